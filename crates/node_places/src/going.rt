ghost use Rattle.std.specs.Prelude.{◌≡◌, ◌≢◌, ◌<◌, ℕ, true, None, Some, List, length, IfSome, IsNone, IsSome, OnOk, OnErr};
ghost use Rattle.node_places.specs.Places.{Places as Value, HasGone, IsAbove, IsLeft, StandsAlike, gone_to, home as home_in, listed as listed_in, rewritten, without};

use crate::places::Places;
use arrayvec::ArrayVec;
use std::alloc::AllocError;

// Whether a path is another, or stands below it.
fn is_below(path: &ArrayVec<u16, 8>, other: &ArrayVec<u16, 8>) -> bool
    ensures yes { result ≡ true → IsAbove other.now.items path.now.items }
    ensures no { IsAbove other.now.items path.now.items → result ≡ true }
{
    path.as_slice().starts_with(other.as_slice())
}

// A path that is equal. It takes no memory.
fn copy(path: &ArrayVec<u16, 8>) -> ArrayVec<u16, 8>
    ensures { result ≡ path.now }
{
    path.clone().unwrap()
}

impl Places {
    // Writes another node for a path that is listed, and nothing for another.
    fn rewrite(&mut self, path: &ArrayVec<u16, 8>, node: u32)
        requires { node < self.old.nodes }
        ensures is { self.new ≡ record { nodes = self.old.nodes; away = rewritten self.old.away path.now.items node } }
        ensures gone { IsSome (listed_in self.old.away path.now.items) → HasGone path.now.items node self.old self.new }
    {
        let Some(listed) = self.away.get_mut(path) else {
            return;
        };
        *listed = node;
    }

    /// The space at a path stands on this node from now on. A path that is listed stays so, at home too. The one error is want of memory, for a path that is
    /// not listed and leaves its home, and then nothing has changed.
    pub fn go(&mut self, path: ArrayVec<u16, 8>, node: u32) -> Result<(), AllocError>
        requires { node < self.old.nodes }
        ensures ok { OnOk result (HasGone path.items node self.old self.new) }
        ensures to { OnOk result (self.new ≡ gone_to self.old path.items node) }
        ensures err { OnErr result (self.new ≡ self.old) }
        ensures new_path { OnErr result ((listed_in self.old.away path.items ≡ None) × (node ≢ home_in self.old.nodes path.items)) }
    {
        if self.listed(&path).is_some() {
            self.rewrite(&path, node);
            return Ok(());
        }
        if node != self.home(&path) {
            self.away.insert(path, node)?;
        }
        Ok(())
    }

    /// Undoes a `go`, by what was listed before it. It takes no memory.
    pub fn go_back(&mut self, path: &ArrayVec<u16, 8>, before: Option<u32>)
        requires { IfSome before (λ node. node < self.old.nodes) }
        ensures back { (first : Value) (node : ℕ) → self.old ≡ gone_to first path.now.items node → before ≡ listed_in first.away path.now.items → self.new ≡ first }
    {
        match before {
            Some(node) => self.rewrite(path, node),
            None => self.bring_home(path),
        }
    }

    /// The space at a path stands at home from now on. It takes no memory.
    pub fn bring_home(&mut self, path: &ArrayVec<u16, 8>)
        ensures gone { HasGone path.now.items (home_in self.old.nodes path.now.items) self.old self.new }
        ensures is { self.new ≡ record { nodes = self.old.nodes; away = without self.old.away path.now.items } }
        ensures off { listed_in self.new.away path.now.items ≡ None }
        ensures less { IsSome (listed_in self.old.away path.now.items) → length self.new.away < length self.old.away }
    {
        self.away.remove(path);
    }

    /// Lists a path no more where its space stands at home. Each space stands where it did, and it takes no memory.
    pub fn settle(&mut self, path: &ArrayVec<u16, 8>)
        ensures alike { StandsAlike self.old self.new }
        ensures off { listed_in self.new.away path.now.items ≢ Some (home_in self.new.nodes path.now.items) }
    {
        if let Some(node) = self.listed(path) {
            if node == self.home(path) {
                self.bring_home(path);
            }
        }
    }

    // The first path that is listed at this one or below it, if there is one.
    fn first_below(&self, path: &ArrayVec<u16, 8>) -> Option<ArrayVec<u16, 8>>
        ensures some { IfSome result (λ p. IsAbove path.now.items p.items × IsSome (listed_in self.now.away p.items)) }
        ensures none { IsNone result → (q : List ℕ) → IsAbove path.now.items q → listed_in self.now.away q ≡ None }
    {
        match self.away.range(path..).next() {
            Some((first, _)) => {
                if is_below(first, path) {
                    Some(copy(first))
                } else {
                    None
                }
            }
            None => None,
        }
    }

    /// The spaces at a path and below it stand at home from now on. It takes no memory, and the time of those that were listed there.
    pub fn leave(&mut self, path: &ArrayVec<u16, 8>)
        ensures { IsLeft path.now.items self.old self.new }
    {
        while let Some(below) = self.first_below(path) {
            self.bring_home(&below);
        }
    }
}
