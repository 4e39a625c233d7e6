ghost use Rattle.std.specs.Prelude.{◌≡◌, ◌<◌, ◌^◌, ◌++◌, ◌∷◌, [], true, length, List, Some, IfSome, slice_get};
ghost use Rattle.value_names.specs.Rules.{head_of};

use crate::book::{Add, Law, Look, Naming, Nothing};
use crate::name::Name;
use logbook::{Offer, Seen, Word};
use std::marker::{Model, PhantomData};

/// How often a draw is tried again where other threads draw at the same time.
const TRIES: u32 = 64;

/// The most values that have names.
const MOST: u64 = 1 << 62;

/// Gives names to values. It may be shared by threads.
#[derive(Drop)]
pub struct Names<T, J: Naming> {
    head: Word<T, u64, Law>,
    front: Front<T, J>,
    ghost head_is: { head ≡ head_of J.book },
}

/// The values that were seen to have names.
#[derive(Drop)]
struct Front<T, J: Naming> {
    count: u64,
    seen: Seen<T, u64, Law>,
    of: PhantomData<J>,
}

impl<T, J: Naming> Model for Front<T, J> {
    ghost Value = { List T };

    ghost view = { λ f. f.seen.log };

    ghost invariant = { λ f. (f.count ≡ length f.seen.log) × (f.seen.book ≡ J.book) };
}

impl<T, J: Naming> Front<T, J> {
    fn again(&self) -> Front<T, J>
        ensures { result ≡ self.now }
    {
        Front {
            count: self.count,
            seen: self.seen.again(),
            of: PhantomData,
        }
    }

    fn observe(&mut self, head: &Word<T, u64, Law>, item: &T)
        requires { head.now ≡ head_of J.book }
    {
        let mut offer: Offer<T, u64, Law, Nothing> = self.seen.plain::<Nothing, T, Add>(item);
        self.count = head.load::<Look, Nothing>(&mut self.seen, &mut offer);
    }

    // Adds a value to all that was seen, and says whether it did. It did not where the book has more.
    fn add(&mut self, head: &Word<T, u64, Law>, item: &T) -> bool
        requires head { head.now ≡ head_of J.book }
        requires room { length self.old < 2 ^ 62 }
        ensures { result ≡ true → (self.new ≡ self.old ++ item.now ∷ []) }
    {
        let mut offer: Offer<T, u64, Law, Nothing> = self.seen.plain::<Nothing, T, Add>(item);
        let mut pen = self.seen.no_pen();
        let count = self.count;
        let found = head.compare_exchange::<Add, Nothing>(
            count,
            count + 1,
            &mut self.seen,
            &mut offer,
            &mut pen,
        );
        self.count = if found == count { count + 1 } else { found };
        found == count
    }

    fn len(&self) -> u64
        ensures { result ≡ length self.now }
    {
        self.count
    }

    // The name of the value at this place.
    fn at(&self, number: u64) -> Name<T, J>
        requires { number < length self.now }
        ensures { result ≡ slice_get self.now number }
    {
        Name {
            number,
            seen: self.seen.again(),
            of: PhantomData,
        }
    }
}

impl<T, J: Naming> Names<T, J> {
    /// Over a book in which no value has a name.
    pub(crate) fn over(head: Word<T, u64, Law>, seen: Seen<T, u64, Law>) -> Names<T, J>
        requires head { head ≡ head_of J.book }
        requires book { seen.book ≡ J.book }
        requires empty { seen.log ≡ [] }
    {
        Names {
            head,
            front: Front {
                count: 0,
                seen,
                of: PhantomData,
            },
        }
    }

    /// A name for the value. `None` where other threads were always ahead, or all numbers are given out.
    pub fn name(&self, item: &T) -> Option<Name<T, J>>
        ensures { IfSome result (λ n. n ≡ Some item.now) }
    {
        let mut front = self.front.again();
        front.observe(&self.head, item);
        for _ in 0..TRIES {
            let number = front.len();
            if number >= MOST {
                return None;
            }
            if front.add(&self.head, item) {
                return Some(front.at(number));
            }
        }
        None
    }
}
