ghost use Rattle.std.specs.Prelude.{◌<◌, List, Bool, length};

use crate::view::View;
use atomic_table::{Join, Play, Split, TableRule};
use std::marker::PhantomData;

/// What the passes of a lock know of its value. `C` is what one pass knows.
pub trait Custody<S, C> {
    // The value is as the passes know, in the order in which they were made. It holds between any two turns.
    ghost fits: { S → List C → Type 0 };

    // Whether a pass that knows this may have turns.
    ghost lives: { C → Bool };

    // What a pass knows once its turn has ended, from what it knew, the value as its turn found it, and the value as it gives it back.
    ghost after: { C → S → S → C };

    // There are fewer passes than 2^32.
    ghost few: { (x : S) (cs : List C) → fits x cs → length cs < 4294967296 };
}

/// What the first pass of a lock knows, from what the lock is told when it is made.
pub trait Opening<C, T> {
    ghost first: { T → C };
}

/// How what one pass knows is cut in two.
pub trait Parting<C> {
    ghost left: { C → C };

    ghost right: { C → C };
}

/// What one pass knows that takes in another, and what the other is left with.
pub trait Joining<C> {
    ghost both: { C → C → C };

    ghost spent: { C };
}

/// The rule of the table that a lock stands on.
pub struct Order<K> {
    custody: PhantomData<K>,
}

impl<S, C, T, K: Custody<S, C> + Opening<C, T>> TableRule<S, View<S, C>, T> for Order<K> {
    ghost use Rattle.ticket_lock.specs.Rule.{Holds};
    ghost use Rattle.ticket_lock.specs.Plays.{fresh};

    ghost holds = { λ _. Holds K.fits K.lives };

    ghost first = { λ t. fresh (K.first t) };
}

/// A pass draws a ticket.
pub(crate) struct Draw;

impl<S, C> Play<S, View<S, C>> for Draw {
    ghost use Rattle.ticket_lock.specs.Plays.{draws};

    ghost then = { draws };
}

/// A pass looks whose turn it is.
pub(crate) struct Look<K> {
    custody: PhantomData<K>,
}

impl<S, C, K: Custody<S, C>> Play<S, View<S, C>> for Look<K> {
    ghost use Rattle.ticket_lock.specs.Plays.{looks};

    ghost then = { looks K.fits };
}

/// The turn of a pass ends.
pub(crate) struct End<K> {
    custody: PhantomData<K>,
}

impl<S, C, K: Custody<S, C>> Play<S, View<S, C>> for End<K> {
    ghost use Rattle.ticket_lock.specs.Plays.{ends};

    ghost then = { ends K.after };
}

/// A pass is about to sleep, or has slept.
pub(crate) struct Sleep;

impl<S, C> Play<S, View<S, C>> for Sleep {
    ghost use Rattle.ticket_lock.specs.Plays.{stays};

    ghost then = { stays };
}

/// A pass is cut in two.
pub(crate) struct Cut<P> {
    parting: PhantomData<P>,
}

impl<S, C, P: Parting<C>> Split<View<S, C>> for Cut<P> {
    ghost use Rattle.ticket_lock.specs.Plays.{fresh, with_core};

    ghost left = { λ v. with_core v (P.left v.core) };

    ghost right = { λ v. fresh (P.right v.core) };
}

/// A pass takes in another.
pub(crate) struct Both<P> {
    joining: PhantomData<P>,
}

impl<S, C, P: Joining<C>> Join<View<S, C>> for Both<P> {
    ghost use Rattle.ticket_lock.specs.Plays.{fresh, with_core};

    ghost both = { λ v w. with_core v (P.both v.core w.core) };

    ghost spent = { fresh P.spent };
}
