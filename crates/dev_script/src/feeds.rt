ghost use Rattle.std.specs.Prelude.{◌≡◌, ◌++◌, [], drop, option_to_list, IfOk};

use std::alloc::{AllocError, Global};
use std::marker::Model;
use std::sync::Arc;

/// Bytes that a device gives one after the other, from the first one on: contracts see those that are left. Copies share them all, and a
/// copy takes no time by the byte.
#[derive(Drop)]
pub struct ByteFeed {
    // All that there were at first; none where there was nothing.
    bytes: Option<Arc<Vec<u8>, Global>>,
    // How many of them were given.
    given: usize,
}

impl Model for ByteFeed {
    ghost use Rattle.std.specs.Prelude.{ℕ, ◌≤◌, List, length, drop};
    ghost use Rattle.dev_script.specs.Feeds.{items_in};

    ghost Value = { List ℕ };

    ghost view = { λ f. drop f.given (items_in f.bytes) };

    ghost invariant = { λ f. f.given ≤ length (items_in f.bytes) };
}

impl ByteFeed {
    /// Nothing to give.
    pub fn none() -> ByteFeed
        ensures { result ≡ [] }
    {
        ByteFeed {
            bytes: None,
            given: 0,
        }
    }

    /// These bytes to give. The one error is want of memory.
    pub fn new(alloc: Global, bytes: Vec<u8>) -> Result<ByteFeed, AllocError>
        ensures { IfOk result (λ feed. feed ≡ bytes.items) }
    {
        let bytes = Arc::new(alloc, bytes)?;
        Ok(ByteFeed {
            bytes: Some(bytes),
            given: 0,
        })
    }

    /// The same bytes to give, which both share. The one error is want of memory.
    pub fn copy(&self) -> Result<ByteFeed, AllocError>
        ensures { IfOk result (λ feed. feed ≡ self.now) }
    {
        let bytes = match &self.bytes {
            Some(bytes) => Some(Arc::try_clone(bytes)?),
            None => None,
        };
        Ok(ByteFeed {
            bytes,
            given: self.given,
        })
    }

    /// The bytes that are left.
    pub fn left(&self) -> &[u8]
        ensures { result.now ≡ self.now }
    {
        match &self.bytes {
            Some(bytes) => &bytes.as_slice()[self.given..],
            None => &[],
        }
    }

    /// Gives the first bytes, at most so many.
    pub fn consume(&mut self, count: usize)
        ensures { self.new ≡ drop count self.old }
    {
        let left = self.left().len();
        self.given += left.min(count);
    }
}

/// Numbers that a device gives one after the other, from the first one on: contracts see those that are left. Copies share them all, and a
/// copy takes no time by the number.
#[derive(Drop)]
pub struct NumberFeed {
    // All that there were at first; none where there was nothing.
    numbers: Option<Arc<Vec<u32>, Global>>,
    // How many of them were given.
    given: usize,
}

impl Model for NumberFeed {
    ghost use Rattle.std.specs.Prelude.{ℕ, ◌≤◌, List, length, drop};
    ghost use Rattle.dev_script.specs.Feeds.{items_in};

    ghost Value = { List ℕ };

    ghost view = { λ f. drop f.given (items_in f.numbers) };

    ghost invariant = { λ f. f.given ≤ length (items_in f.numbers) };
}

impl NumberFeed {
    /// Nothing to give.
    pub fn none() -> NumberFeed
        ensures { result ≡ [] }
    {
        NumberFeed {
            numbers: None,
            given: 0,
        }
    }

    /// These numbers to give. The one error is want of memory.
    pub fn new(alloc: Global, numbers: Vec<u32>) -> Result<NumberFeed, AllocError>
        ensures { IfOk result (λ feed. feed ≡ numbers.items) }
    {
        let numbers = Arc::new(alloc, numbers)?;
        Ok(NumberFeed {
            numbers: Some(numbers),
            given: 0,
        })
    }

    /// The same numbers to give, which both share. The one error is want of memory.
    pub fn copy(&self) -> Result<NumberFeed, AllocError>
        ensures { IfOk result (λ feed. feed ≡ self.now) }
    {
        let numbers = match &self.numbers {
            Some(numbers) => Some(Arc::try_clone(numbers)?),
            None => None,
        };
        Ok(NumberFeed {
            numbers,
            given: self.given,
        })
    }

    /// The numbers that are left.
    pub fn left(&self) -> &[u32]
        ensures { result.now ≡ self.now }
    {
        match &self.numbers {
            Some(numbers) => &numbers.as_slice()[self.given..],
            None => &[],
        }
    }

    /// Gives the first number, where one is left.
    pub fn pop_front(&mut self) -> Option<u32>
        ensures items { self.old ≡ option_to_list result ++ self.new }
        ensures rest { self.new ≡ drop 1 self.old }
    {
        let next = self.left().first().copied();
        if next.is_some() {
            self.given += 1;
        }
        next
    }
}
