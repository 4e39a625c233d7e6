// The book that stands behind the names. It is there in proofs alone: at run time it is one number, how many names there are.

ghost use Rattle.std.specs.Prelude.{◌≡◌, []};
ghost use Rattle.value_names.specs.Rules.{head_of};

use crate::names::Names;
use logbook::{Gain, Plain, Play, Rule, Seen, Start, Word};
use std::marker::Brand;

/// The rule of the book: its word is the number of the values that have names.
pub struct Law;

impl<T> Rule<T, u64> for Law {
    ghost use Rattle.std.specs.Prelude.{[]};
    ghost use base.Fml.{ftrue};
    ghost use Rattle.value_names.specs.Rules.{IsKept};

    ghost holds = { λ cells log. IsKept cells log };

    ghost first = { [] };

    ghost hinted = { λ n log. Unit {0} };

    ghost shows = { λ log. [] };

    ghost keeps = { λ names log. ftrue };

    ghost moves = { λ ask before after answer. Unit {0} };
}

/// Callers trade nothing.
pub struct Nothing;

impl<T> Gain<T, u64> for Nothing {
    ghost use base.Fml.{ftrue};

    ghost after = { λ names about answer. ftrue };
}

/// A step that looks.
pub struct Look;

impl<T> Play<T, u64> for Look {
    ghost use Rattle.value_names.specs.Rules.{Looks};

    ghost then = { Looks };
}

/// A step that adds a value.
pub struct Add;

impl<T> Play<T, u64> for Add {
    ghost use Rattle.value_names.specs.Rules.{Adds};

    ghost then = { Adds };
}

/// What a step asks for: the value.
impl<T> Plain<T, T, u64> for Add {
    ghost use Rattle.std.specs.Prelude.{None};

    ghost ask = { λ item. item };

    ghost state = { λ item. None };
}

/// Says which book names are of. It is a type that whoever makes a book picks for it, so that names of two books are never taken for one another.
pub trait Naming {
    ghost use Rattle.logbook.specs.Pages.{Book};

    ghost book: { Book };
}

impl Naming for Brand {
    ghost book = { record { number = 0; log_name = 0; cells_name = 0 } };
}

/// A book in which no value has a name, and which has no type of its own yet.
#[derive(Drop)]
pub struct NewBook<T> {
    pub(crate) head: Word<T, u64, Law>,
    pub(crate) seen: Seen<T, u64, Law>,
    pub ghost empty: { seen.log ≡ [] },
    pub ghost head_is: { head ≡ head_of seen.book },
}

impl<T> NewBook<T> {
    pub fn open() -> NewBook<T> {
        let (seen, mut first, _second) = Seen::open(Start::alone(), 0, 0);
        NewBook {
            head: Word::tracked(0, &mut first),
            seen,
        }
    }

    /// The names of this book, under the type that stands for it.
    pub fn named<J: Naming>(self) -> Names<T, J>
        requires { self.seen.book ≡ J.book }
    {
        let NewBook { head, seen } = self;
        Names::over(head, seen)
    }
}
