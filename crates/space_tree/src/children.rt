ghost use Rattle.std.specs.Prelude.{◌≡◌, ℕ, true, map, max, suc, IfOk, IfSome, OnOk, OnErr};
ghost use Rattle.std.specs.BTreeMap.{IsOrdered};
ghost use Rattle.std.specs.Ordering.{nat_cmp};
ghost use Rattle.std.specs.Option.{option_copied, option_copied_mut};
ghost use Rattle.std.specs.Borrow.{sem};
ghost use Rattle.space_model.specs.Space.{none, find, put_child, remove_child, height, levels_of, is_settled, are_settled};
ghost use Rattle.space_tree.specs.Kept.{children_in, levels_at, numbers_of};
ghost use Rattle.space_tree.specs.Lending.{LendsChild};

use crate::space::Space;
use std::alloc::{AllocError, Global};
use std::collections::BTreeMap;
use std::marker::Model;

/// The children of a space, 0 to 65,536 of them, by their numbers. It keeps whether all below have settled and how many levels there
/// are, as far as that is known: a child that is handed out to be changed makes it unknown, `remember` finds it again.
#[cycle(space)]
#[derive(Drop)]
pub struct Children {
    pub(crate) entries: BTreeMap<u16, Box<Space>>,
    // Whether it is known that all have settled.
    pub(crate) settled: bool,
    // How many levels they make, where that is known.
    pub(crate) levels: Option<u8>,
    // From which number on to look first for one that has not settled.
    pub(crate) looked: u16,
}

impl Model for Children {
    ghost use Rattle.space_model.specs.Space.{Children};
    ghost use Rattle.space_tree.specs.Kept.{children_in, coded_children, children_size, each_smaller, IsKept};
    ghost use Rattle.std.proofs.Common.{arith};

    ghost Value = { Children };

    ghost coded = { coded_children };

    ghost view = { λ c. children_in c.entries.entries };

    ghost invariant = { λ c. IsKept c.settled c.levels (children_in c.entries.entries) };

    ghost size = { children_size };

    ghost size_decreases = { λ c h. Prim.omega (arith, each_smaller c.entries.entries) };
}

// The numbers under which children stand in a map, in rising order.
pub(crate) fn keys(
    alloc: Global,
    entries: &BTreeMap<u16, Box<Space>>,
) -> Result<Vec<u16>, AllocError>
    ensures numbers { IfOk result (λ numbers. numbers.items ≡ map (λ e. e.0) entries.now.entries) }
    ensures rising { IsOrdered nat_cmp entries.now }
{
    entries.keys().copied().collect(alloc)
}

// Whether it is known of each child that it has settled, with all below it.
#[tactic(auto, using(crate::proofs::Values::all_settled_values))]
fn all_known_settled(entries: &BTreeMap<u16, Box<Space>>) -> bool
    ensures { result ≡ true → are_settled (children_in entries.now.entries) ≡ true }
{
    for child in entries.values() {
        if !child.is_known_settled() {
            return false;
        }
    }
    true
}

// How many levels the children make, where that is known of each.
#[tactic(auto, using(crate::proofs::Heights::most_levels_values))]
fn known_levels(entries: &BTreeMap<u16, Box<Space>>) -> Option<u8>
    ensures { IfSome result (λ n. levels_of (children_in entries.now.entries) ≡ n) }
{
    let mut most: u8 = 0;
    for child in entries.values() {
        match child.known_levels() {
            Some(levels) => most = most.max(levels),
            None => return None,
        }
    }
    Some(most)
}

// The most of some numbers is `levels`, one of them is `former`: the most of them once that one is `new`, where this decides it.
fn levels_with_other(levels: u8, former: u8, new: u8) -> Option<u8>
    ensures { (others : ℕ) → levels ≡ max former others → IfSome result (λ n. n ≡ max new others) }
{
    if former < levels || former <= new {
        Some(levels.max(new))
    } else {
        None
    }
}

impl Space {
    // Whether it is known that the space has settled, with all below it.
    pub(crate) fn is_known_settled(&self) -> bool
        ensures { result ≡ true → is_settled self.now ≡ true }
    {
        self.top.is_stopped() && self.children.are_known_settled()
    }

    // How many levels the space makes as a child, where that is known.
    fn known_levels(&self) -> Option<u8>
        ensures { IfSome result (λ n. suc (height self.now) ≡ n) }
    {
        match self.children.known_levels() {
            Some(below) => below.checked_add(1),
            None => None,
        }
    }
}

impl Children {
    /// No children.
    pub fn new(alloc: Global) -> Children
        ensures { result ≡ none }
    {
        Children {
            entries: BTreeMap::new(alloc),
            settled: true,
            levels: Some(0),
            looked: 0,
        }
    }

    /// The children by rising number.
    pub fn entries(&self) -> &BTreeMap<u16, Box<Space>>
        ensures { children_in result.now.entries ≡ self.now }
    {
        &self.entries
    }

    /// The numbers of the children, in rising order. The one error is want of memory.
    pub fn numbers(&self, alloc: Global) -> Result<Vec<u16>, AllocError>
        ensures { IfOk result (λ numbers. numbers.items ≡ numbers_of self.now) }
    {
        keys(alloc, &self.entries)
    }

    /// The child of that number.
    pub fn get(&self, number: u16) -> Option<&Space>
        ensures { option_copied result ≡ find number self.now }
    {
        match self.entries.get(&number) {
            Some(child) => Some(child),
            None => None,
        }
    }

    /// The child of that number, to be changed. What was known of all is forgotten.
    pub fn get_mut(&mut self, number: u16) -> Option<&mut Space>
        ensures* lends { sem 𝓛 (LendsChild self.entry number result) }
        ensures value { option_copied_mut result ≡ find number self.old }
    {
        self.settled = false;
        self.levels = None;
        match self.entries.get_mut(&number) {
            Some(child) => Some(child),
            None => None,
        }
    }

    /// Whether it is known that all have settled, with all below them. It takes one look.
    pub fn are_known_settled(&self) -> bool
        ensures { result ≡ true → are_settled self.now ≡ true }
    {
        self.settled
    }

    /// How many levels there are, where that is known. It takes one look.
    pub fn known_levels(&self) -> Option<u8>
        ensures { IfSome result (λ n. levels_of self.now ≡ n) }
    {
        self.levels
    }

    /// Looks at each child once, and keeps what is known then of all.
    pub fn remember(&mut self)
        ensures { self.new ≡ self.old }
    {
        self.settled = all_known_settled(&self.entries);
        self.levels = known_levels(&self.entries);
    }

    // How many levels the child of that number makes, where that is known; 0 where it is missing.
    fn known_levels_at(&self, number: u16) -> Option<u8>
        ensures { IfSome result (λ n. levels_at number self.now ≡ n) }
    {
        match self.get(number) {
            Some(child) => child.known_levels(),
            None => Some(0),
        }
    }

    // How many levels there are once a child that makes so many has that number; 0 stands for no child.
    fn levels_after(&self, number: u16, new: u8) -> Option<u8>
        ensures { IfSome result (λ n. n ≡ max new (levels_of (remove_child number self.now))) }
    {
        let levels = self.known_levels()?;
        let former = self.known_levels_at(number)?;
        levels_with_other(levels, former, new)
    }

    // How many levels there are once this child has that number, where that is known.
    fn levels_with(&self, number: u16, child: &Space) -> Option<u8>
        ensures { IfSome result (λ n. levels_of (put_child number child.now self.now) ≡ n) }
    {
        match child.known_levels() {
            Some(new) => self.levels_after(number, new),
            None => None,
        }
    }

    // Whether it is known that all have settled, and this space with them.
    fn are_settled_with(&self, child: &Space) -> bool
        ensures { (number : ℕ) → result ≡ true → are_settled (put_child number child.now self.now) ≡ true }
    {
        self.are_known_settled() && child.is_known_settled()
    }

    /// Puts a child in the place of the one of its number, or as a new one. Its one error is want of memory; nothing changes then.
    pub fn insert(&mut self, alloc: Global, number: u16, child: Space) -> Result<(), AllocError>
        ensures ok { OnOk result (self.new ≡ put_child number child self.old) }
        ensures err { OnErr result (self.new ≡ self.old) }
    {
        let settled = self.are_settled_with(&child);
        let levels = self.levels_with(number, &child);
        let child = Box::new(alloc, child)?;
        self.entries.insert(number, child)?;
        self.settled = settled;
        self.levels = levels;
        Ok(())
    }

    /// The child of that number goes, where it is there, with all below it.
    pub fn remove(&mut self, number: u16)
        ensures { self.new ≡ remove_child number self.old }
    {
        let levels = self.levels_after(number, 0);
        self.entries.remove(&number);
        self.levels = levels;
        if self.entries.is_empty() {
            self.settled = true;
            self.levels = Some(0);
        }
    }
}
