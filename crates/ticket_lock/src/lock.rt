ghost use Rattle.std.specs.Prelude.{◌≡◌, ◌≢◌, ◌+◌, ◌%◌, ◌<◌, ◌∷◌, [], IfOk, Some, true};
ghost use Rattle.ticket_lock.specs.Passes.{IsIdle, IsInTurn, IsNextTo, IsWaiting};
ghost use Rattle.ticket_lock.specs.Plays.{IsKnown, IsLast, MayEnd, MayJoin, MaySplit};

use crate::pass::Pass;
use crate::rule::{Both, Custody, Cut, Draw, End, Joining, Look, Opening, Order, Parting, Sleep};
use crate::view::View;
use atomic_table::{Refused, Table};
use std::alloc::{AllocError, Global};
use std::hint::spin_loop;
use std::sync::Wait;

/// How many tickets were drawn.
const DRAWN: usize = 0;

/// Whose turn it is.
const NOW: usize = 1;

/// How many passes sleep, or are about to.
const ASLEEP: usize = 2;

/// The first of the words on which passes sleep, each on that of its ticket.
const BEDS: usize = 3;

/// How many such words there are.
const BED_COUNT: u64 = 64;

/// How many words there are.
const WORDS: usize = 67;

/// How often a pass looks whose turn it is before it sleeps.
const LOOKS: u32 = 128;

/// The ticket whose turn comes. It is not `Drop`, so whoever has it wakes the pass that has drawn it.
struct Coming {
    ticket: u64,
}

/// That a pass is counted among those that sleep, or are about to. It is not `Drop`, so whoever has it is taken off the count.
struct Counted {
    marker: (),
}

// The word on which a pass sleeps that has this ticket. While there are at most as many passes as such words, each that sleeps has its own.
fn bed_of(ticket: u64) -> usize
    ensures { result ≡ 3 + ticket % 64 }
{
    BEDS + (ticket % BED_COUNT) as usize
}

// Whether a pass is to be woken, where so many sleep, or are about to.
fn is_any_asleep(count: u64) -> bool
    ensures { 0 < count → result ≡ true }
{
    count > 0
}

/// A value that threads hand round, each in the turn that it has drawn: turns come in the order of their tickets. What is known of the value between turns is
/// said by `K`.
#[derive(Drop)]
pub struct TicketLock<S: Drop, C, T, K: Custody<S, C> + Opening<C, T>> {
    pub table: Table<S, View<S, C>, T, Order<K>, Global>,
    ghost sized: { (table.shared.table_id.words ≡ 67) × (table.shared.table_id.slots ≡ 1) },
}

impl<S: Drop, C, T, K: Custody<S, C> + Opening<C, T>> TicketLock<S, C, T, K> {
    /// A lock around a value, with its first pass, which knows what the lock is told. The one error is want of memory.
    pub fn new(
        alloc: Global,
        value: S,
        about: &T,
    ) -> Result<(TicketLock<S, C, T, K>, Pass<S, C>), AllocError>
        requires { K.fits value (K.first about.now ∷ []) }
        ensures pass { IfOk result (λ made. made.1.seat.table_id ≡ made.0.table.shared.table_id) }
        ensures idle { IfOk result (λ made. IsIdle made.1.seat.me × (made.1.seat.id ≡ 0) × (made.1.seat.me.0.core ≡ K.first about.now)) }
    {
        let mut slots = Vec::new(alloc);
        slots.push(value)?;
        match Table::new(alloc, &[0; WORDS], slots, about) {
            Ok((table, seat)) => Ok((TicketLock { table }, Pass { seat })),
            Err(Refused { slots: _ }) => Err(AllocError),
        }
    }

    // Looks whose turn it is. Where it is this pass's, it has the value.
    fn look(&self, pass: &mut Pass<S, C>, ticket: u64) -> u64
        requires pass { pass.old.seat.table_id ≡ self.now.table.shared.table_id }
        requires waits { IsWaiting ticket pass.old.seat.me }
        ensures pass { (pass.new.seat.table_id ≡ pass.old.seat.table_id) × (pass.new.seat.id ≡ pass.old.seat.id) × (pass.new.seat.me.0.core ≡ pass.old.seat.me.0.core) }
        ensures turn { result ≡ ticket → (x : S) × IsInTurn x x pass.new.seat.me × IsKnown K.fits pass.new.seat.me.0.core x }
        ensures waits { result ≢ ticket → IsWaiting ticket pass.new.seat.me }
    {
        self.table.shared.load::<Look<K>>(&mut pass.seat, NOW)
    }

    // Draws a ticket.
    fn draw(&self, pass: &mut Pass<S, C>) -> u64
        requires pass { pass.old.seat.table_id ≡ self.now.table.shared.table_id }
        requires idle { IsIdle pass.old.seat.me × (K.lives pass.old.seat.me.0.core ≡ true) }
        ensures pass { (pass.new.seat.table_id ≡ pass.old.seat.table_id) × (pass.new.seat.id ≡ pass.old.seat.id) × (pass.new.seat.me.0.core ≡ pass.old.seat.me.0.core) }
        ensures waits { IsWaiting result pass.new.seat.me }
    {
        self.table
            .shared
            .fetch_add::<Draw>(&mut pass.seat, DRAWN, 1)
    }

    // Looks whose turn it is as one that is counted among those that sleep, and sleeps where it is not this pass's. Whoever ends the turn before it either sees the count, and then changes the word on
    // which this pass sleeps and wakes it; or has ended that turn before the pass was counted, and then the look shows that the turn has come.
    fn look_or_sleep<R: Wait>(&self, rt: &R, pass: &mut Pass<S, C>, ticket: u64) -> u64
        requires pass { pass.old.seat.table_id ≡ self.now.table.shared.table_id }
        requires waits { IsWaiting ticket pass.old.seat.me }
        ensures pass { (pass.new.seat.table_id ≡ pass.old.seat.table_id) × (pass.new.seat.id ≡ pass.old.seat.id) × (pass.new.seat.me.0.core ≡ pass.old.seat.me.0.core) }
        ensures turn { result ≡ ticket → (x : S) × IsInTurn x x pass.new.seat.me × IsKnown K.fits pass.new.seat.me.0.core x }
        ensures waits { result ≢ ticket → IsWaiting ticket pass.new.seat.me }
    {
        let bed = bed_of(ticket);
        let counted = self.count_in(pass);
        let found = self.table.shared.peek(bed);
        let now = self.look(pass, ticket);
        if now != ticket {
            self.sleep(rt, &counted, bed, found);
        }
        self.count_out(pass, counted);
        now
    }

    // Looks whose turn it is, after so many looks.
    fn look_again<R: Wait>(&self, rt: &R, pass: &mut Pass<S, C>, ticket: u64, looks: u32) -> u64
        requires pass { pass.old.seat.table_id ≡ self.now.table.shared.table_id }
        requires waits { IsWaiting ticket pass.old.seat.me }
        ensures pass { (pass.new.seat.table_id ≡ pass.old.seat.table_id) × (pass.new.seat.id ≡ pass.old.seat.id) × (pass.new.seat.me.0.core ≡ pass.old.seat.me.0.core) }
        ensures turn { result ≡ ticket → (x : S) × IsInTurn x x pass.new.seat.me × IsKnown K.fits pass.new.seat.me.0.core x }
        ensures waits { result ≢ ticket → IsWaiting ticket pass.new.seat.me }
    {
        if looks < LOOKS {
            spin_loop();
            return self.look(pass, ticket);
        }
        self.look_or_sleep(rt, pass, ticket)
    }

    // Sleeps while this word is as it was found, or for no reason less. This is the one place where a pass sleeps: one that is counted.
    fn sleep<R: Wait>(&self, rt: &R, counted: &Counted, bed: usize, found: u64)
        requires { bed < 67 }
    {
        let _counted = counted;
        self.table.shared.park(rt, bed, (found % (1 << 32)) as u32);
    }

    // One pass more sleeps, or is about to.
    fn count_in(&self, pass: &mut Pass<S, C>) -> Counted
        requires pass { pass.old.seat.table_id ≡ self.now.table.shared.table_id }
        ensures { (pass.new.seat.table_id ≡ pass.old.seat.table_id) × (pass.new.seat.id ≡ pass.old.seat.id) × (pass.new.seat.me ≡ pass.old.seat.me) }
    {
        self.table
            .shared
            .fetch_add::<Sleep>(&mut pass.seat, ASLEEP, 1);
        Counted { marker: () }
    }

    // One pass fewer does.
    fn count_out(&self, pass: &mut Pass<S, C>, counted: Counted)
        requires pass { pass.old.seat.table_id ≡ self.now.table.shared.table_id }
        ensures { (pass.new.seat.table_id ≡ pass.old.seat.table_id) × (pass.new.seat.id ≡ pass.old.seat.id) × (pass.new.seat.me ≡ pass.old.seat.me) }
    {
        let Counted { marker: _ } = counted;
        self.table
            .shared
            .fetch_sub::<Sleep>(&mut pass.seat, ASLEEP, 1);
    }

    // Wakes the pass whose turn comes, if any sleeps. Whoever is counted later finds that its turn has come.
    fn wake(&self, pass: &mut Pass<S, C>, coming: Coming)
        requires pass { pass.old.seat.table_id ≡ self.now.table.shared.table_id }
        ensures { (pass.new.seat.table_id ≡ pass.old.seat.table_id) × (pass.new.seat.id ≡ pass.old.seat.id) × (pass.new.seat.me ≡ pass.old.seat.me) }
    {
        let Coming { ticket } = coming;
        if is_any_asleep(self.table.shared.peek(ASLEEP)) {
            self.wake_bed(pass, bed_of(ticket));
        }
    }

    // Changes a word, and wakes whoever sleeps on it.
    fn wake_bed(&self, pass: &mut Pass<S, C>, bed: usize)
        requires pass { pass.old.seat.table_id ≡ self.now.table.shared.table_id }
        requires bed { (2 < bed) × (bed < 67) }
        ensures { (pass.new.seat.table_id ≡ pass.old.seat.table_id) × (pass.new.seat.id ≡ pass.old.seat.id) × (pass.new.seat.me ≡ pass.old.seat.me) }
    {
        self.table.shared.fetch_add::<Sleep>(&mut pass.seat, bed, 1);
        self.table.shared.wake_all(bed);
    }

    // Waits for the turn of a ticket: looks some times, and then sleeps between looks.
    fn wait<R: Wait>(&self, rt: &R, pass: &mut Pass<S, C>, ticket: u64)
        requires pass { pass.old.seat.table_id ≡ self.now.table.shared.table_id }
        requires waits { IsWaiting ticket pass.old.seat.me }
        ensures pass { (pass.new.seat.table_id ≡ pass.old.seat.table_id) × (pass.new.seat.id ≡ pass.old.seat.id) × (pass.new.seat.me.0.core ≡ pass.old.seat.me.0.core) }
        ensures turn { (x : S) × IsInTurn x x pass.new.seat.me × IsKnown K.fits pass.new.seat.me.0.core x }
    {
        let mut looks: u32 = 0;
        for _ in rt.forever() {
            let now = self.look_again(rt, pass, ticket, looks);
            if now == ticket {
                return;
            }
            looks = looks.saturating_add(1);
        }
        unreachable!()
    }

    /// Draws a ticket, and waits for its turn. Then the pass has the value, which is as the passes know. It may wait for ever: no clause says that the turns before it end.
    pub fn begin<R: Wait>(&self, rt: &R, pass: &mut Pass<S, C>)
        requires pass { pass.old.seat.table_id ≡ self.now.table.shared.table_id }
        requires idle { IsIdle pass.old.seat.me × (K.lives pass.old.seat.me.0.core ≡ true) }
        ensures pass { (pass.new.seat.table_id ≡ pass.old.seat.table_id) × (pass.new.seat.id ≡ pass.old.seat.id) × (pass.new.seat.me.0.core ≡ pass.old.seat.me.0.core) }
        ensures turn { (x : S) × IsInTurn x x pass.new.seat.me × IsKnown K.fits pass.new.seat.me.0.core x }
    {
        let ticket = self.draw(pass);
        self.wait(rt, pass, ticket);
    }

    // The pass gives the value back. Answers the ticket whose turn comes.
    fn give(&self, pass: &mut Pass<S, C>) -> Coming
        requires pass { pass.old.seat.table_id ≡ self.now.table.shared.table_id }
        requires turn { (found : S) × (value : S) × IsInTurn found value pass.old.seat.me × MayEnd K.fits pass.old.seat.id pass.old.seat.me.0.core found value (K.after pass.old.seat.me.0.core found value) }
        ensures pass { (pass.new.seat.table_id ≡ pass.old.seat.table_id) × (pass.new.seat.id ≡ pass.old.seat.id) × (pass.new.seat.me.0.noted ≡ pass.old.seat.me.0.noted) }
        ensures idle { IsIdle pass.new.seat.me }
        ensures core { (found value : S) → IsInTurn found value pass.old.seat.me → pass.new.seat.me.0.core ≡ K.after pass.old.seat.me.0.core found value }
        ensures next { IsNextTo result.ticket pass.old.seat.me }
    {
        let ended = self
            .table
            .shared
            .fetch_add::<End<K>>(&mut pass.seat, NOW, 1);
        Coming {
            ticket: ended.wrapping_add(1),
        }
    }

    /// Ends the turn of a pass, and wakes the one whose turn comes, if it sleeps. The caller owes that the value is as the passes know then, this one with what it knows from then on.
    pub fn end(&self, pass: &mut Pass<S, C>)
        requires pass { pass.old.seat.table_id ≡ self.now.table.shared.table_id }
        requires turn { (found : S) × (value : S) × IsInTurn found value pass.old.seat.me × MayEnd K.fits pass.old.seat.id pass.old.seat.me.0.core found value (K.after pass.old.seat.me.0.core found value) }
        ensures pass { (pass.new.seat.table_id ≡ pass.old.seat.table_id) × (pass.new.seat.id ≡ pass.old.seat.id) × (pass.new.seat.me.0.noted ≡ pass.old.seat.me.0.noted) }
        ensures idle { IsIdle pass.new.seat.me }
        ensures core { (found value : S) → IsInTurn found value pass.old.seat.me → pass.new.seat.me.0.core ≡ K.after pass.old.seat.me.0.core found value }
    {
        let coming = self.give(pass);
        self.wake(pass, coming);
    }

    /// Cuts an idle pass in two. The caller owes that the value stays as the passes know.
    pub fn split<P: Parting<C>>(&self, pass: &mut Pass<S, C>) -> Pass<S, C>
        requires pass { pass.old.seat.table_id ≡ self.now.table.shared.table_id }
        requires idle { IsIdle pass.old.seat.me × MaySplit K.fits pass.old.seat.id pass.old.seat.me.0.core (P.left pass.old.seat.me.0.core) (P.right pass.old.seat.me.0.core) }
        ensures pass { (pass.new.seat.table_id ≡ pass.old.seat.table_id) × (pass.new.seat.id ≡ pass.old.seat.id) × (pass.new.seat.me.0.noted ≡ pass.old.seat.me.0.noted) }
        ensures left { IsIdle pass.new.seat.me × (pass.new.seat.me.0.core ≡ P.left pass.old.seat.me.0.core) }
        ensures right { (result.seat.table_id ≡ pass.old.seat.table_id) × IsIdle result.seat.me × (result.seat.me.0.core ≡ P.right pass.old.seat.me.0.core) }
    {
        let seat = self.table.shared.split_seat::<Cut<P>>(&mut pass.seat);
        Pass { seat }
    }

    /// An idle pass takes in another. The caller owes that the value stays as the passes know.
    pub fn join<P: Joining<C>>(&self, pass: &mut Pass<S, C>, other: Pass<S, C>)
        requires pass { (pass.old.seat.table_id ≡ self.now.table.shared.table_id) × (other.seat.table_id ≡ self.now.table.shared.table_id) }
        requires idle { IsIdle pass.old.seat.me × IsIdle other.seat.me }
        requires fits { MayJoin K.fits pass.old.seat.id pass.old.seat.me.0.core other.seat.id other.seat.me.0.core (P.both pass.old.seat.me.0.core other.seat.me.0.core) P.spent }
        ensures pass { (pass.new.seat.table_id ≡ pass.old.seat.table_id) × (pass.new.seat.id ≡ pass.old.seat.id) × (pass.new.seat.me.0.noted ≡ pass.old.seat.me.0.noted) }
        ensures both { IsIdle pass.new.seat.me × (pass.new.seat.me.0.core ≡ P.both pass.old.seat.me.0.core other.seat.me.0.core) }
    {
        let Pass { seat } = other;
        self.table.shared.join_seat::<Both<P>>(&mut pass.seat, seat);
    }

    /// Gives the value back at the end, by an idle pass that is the last that may have turns: it is as the passes know.
    pub fn close(self, pass: Pass<S, C>) -> S
        requires pass { pass.seat.table_id ≡ self.table.shared.table_id }
        requires last { IsIdle pass.seat.me × IsLast K.fits K.lives pass.seat.id pass.seat.me.0.core }
        ensures { IsKnown K.fits pass.seat.me.0.core result }
    {
        let TicketLock { table } = self;
        let Pass { seat } = pass;
        let mut closed = table.close_with(seat);
        let value = closed.take(0);
        closed.free();
        value
    }
}
