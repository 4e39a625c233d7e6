ghost use Rattle.std.specs.Prelude.{◌≡◌, true};

use crate::book::{Law, Naming};
use logbook::Seen;
use std::marker::{Model, PhantomData};

/// A number that stands for a value. Contracts see the value.
#[derive(Drop)]
pub struct Name<T, J: Naming> {
    pub(crate) number: u64,
    pub(crate) seen: Seen<T, u64, Law>,
    pub(crate) of: PhantomData<J>,
}

impl<T, J: Naming> Model for Name<T, J> {
    ghost use Rattle.std.specs.Prelude.{◌≡◌, ◌<◌, length, slice_get};
    ghost use Rattle.std.specs.declared.option.Option.{Option};

    ghost Value = { Option T };

    ghost view = { λ n. slice_get n.seen.log n.number };

    ghost invariant = { λ n. (n.number < length n.seen.log) × (n.seen.book ≡ J.book) };
}

impl<T, J: Naming> Name<T, J> {
    /// The same name once more.
    pub fn again(&self) -> Name<T, J>
        ensures { result ≡ self.now }
    {
        Name {
            number: self.number,
            seen: self.seen.again(),
            of: PhantomData,
        }
    }

    /// Whether the numbers are the same. Then so are the values. It costs one comparison, whatever the values are.
    pub fn is_same(&self, other: &Name<T, J>) -> bool
        ensures { result ≡ true → (self.now ≡ other.now) }
    {
        let mut both = self.seen.again();
        both.learn(&other.seen);
        self.number == other.number
    }
}
