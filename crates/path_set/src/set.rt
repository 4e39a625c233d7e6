ghost use Rattle.std.specs.Prelude.{◌≡◌, ◌≢◌, ◌⊎◌, ℕ, true, [], List, length, IfSome, IsNone, OnOk, OnErr};
ghost use Rattle.path_set.specs.Paths.{Has, IsFirst, IsTakenFrom, rest_of};

use arrayvec::ArrayVec;
use std::alloc::{AllocError, Global};
use std::collections::BTreeSet;
use std::marker::Model;

/// Paths of spaces, each the numbers of the children that lead to one, at most 8. Contracts see a list of them.
#[derive(Drop)]
pub struct PathSet {
    paths: BTreeSet<ArrayVec<u16, 8>>,
}

impl Model for PathSet {
    ghost use Rattle.path_set.specs.Paths.{coded_paths, paths_in};
    ghost use Rattle.std.specs.Prelude.{List, ℕ};

    ghost Value = { List (List ℕ) };

    ghost coded = { coded_paths };

    ghost view = { λ s. paths_in s.paths.keys };
}

impl PathSet {
    /// No paths.
    pub fn new(alloc: Global) -> PathSet
        ensures { result ≡ [] }
    {
        PathSet {
            paths: BTreeSet::new(alloc),
        }
    }

    /// The first path in the order of paths, where there is one: each other comes behind it.
    #[tactic(auto, using(crate::proofs::Firsts::is_first))]
    pub fn first(&self) -> Option<&ArrayVec<u16, 8>>
        ensures some { IfSome result (λ p. IsFirst p.now.items self.now) }
        ensures none { IsNone result → self.now ≡ [] }
    {
        self.paths.first()
    }

    /// Takes the first path out, where there is one.
    pub fn pop_first(&mut self)
        ensures { self.new ≡ rest_of self.old }
    {
        self.paths.pop_first();
    }

    /// Takes the first path out, where there is one, and gives it. It takes no memory.
    #[tactic(auto, using(crate::proofs::Firsts::is_taken))]
    pub fn take_first(&mut self) -> Option<ArrayVec<u16, 8>>
        ensures some { IfSome result (λ p. IsTakenFrom p.items self.old self.new) }
        ensures none { IsNone result → self.old ≡ [] }
    {
        self.paths.pop_first()
    }

    /// How many paths there are.
    #[tactic(auto, using(crate::proofs::Firsts::as_many))]
    pub fn len(&self) -> usize
        ensures { result ≡ length self.now }
    {
        self.paths.len()
    }

    /// Whether a path is there.
    pub fn contains(&self, path: &ArrayVec<u16, 8>) -> bool
        ensures yes { result ≡ true → Has self.now path.now.items }
        ensures no { Has self.now path.now.items → result ≡ true }
    {
        self.paths.contains(path)
    }

    /// Takes a path out, where it is there, and no other. It takes no memory.
    pub fn remove(&mut self, path: &ArrayVec<u16, 8>)
        ensures gone { Has self.new path.now.items → ⊥ }
        ensures others { (p : List ℕ) → p ≢ path.now.items → Has self.old p → Has self.new p }
        ensures less { (p : List ℕ) → Has self.new p → Has self.old p }
    {
        self.paths.remove(path);
    }

    /// Puts a path in, where it is not there, and no other. The one error is want of memory, and then nothing has changed.
    #[tactic(auto, using(crate::proofs::Puts::is_there, crate::proofs::Puts::stays_there))]
    pub fn insert(&mut self, path: ArrayVec<u16, 8>) -> Result<(), AllocError>
        ensures there { OnOk result (Has self.new path.items) }
        ensures others { (p : List ℕ) → Has self.old p → Has self.new p }
        ensures only { (p : List ℕ) → Has self.new p → Has self.old p ⊎ (p ≡ path.items) }
        ensures err { OnErr result (self.new ≡ self.old) }
    {
        self.paths.insert(path)?;
        Ok(())
    }
}
