ghost use Rattle.std.specs.Prelude.{◌≡◌, ◌+◌, ◌≤◌, ◌^◌, false, true, None, if◌then◌else◌};
ghost use Rattle.memory_model.specs.Memory.{with_number};
ghost use Rattle.instruction_model.specs.Form.{HasFields};
ghost use Rattle.instruction_model.specs.Outcome.{view_of, outcome, perform};
ghost use Rattle.rv_exec.specs.Flat.{meaning};
ghost use Rattle.rv_exec.specs.Steps.{Steps, registers_at};
ghost use Rattle.space_model.specs.Change.{after_spending};
ghost use Rattle.space_model.specs.declared.Status.TheVariants.{Running};
ghost use Rattle.space_mem.specs.Held.{Marks};
ghost use Rattle.space_step.specs.Stretch.{IsDone, Pays};
ghost use Rattle.explain_core.specs.Instructions.{spelled, word_in};
ghost use Rattle.explain_core.specs.Stretch.{IsWatchable, KeepsUp, Watches, WatchesFrom, last_in, noted, with_parts};
ghost use Rattle.explain_core.specs.Watch.{value_in};

use crate::instructions::{spelled, word_in};
use crate::watch::{ByteWatch, RegisterWatch, Watch};
use crate::watched_memory::WatchedMemory;
use crate::watching::{Found, Moment, Watched};
use rv_exec::{FlatInstruction, RegisterFile, Regs, Stepped, perform};
use space_step::{DecodeCache, Source, budget, forget_stored};
use space_tree::{Mem, Status, Top};
use std::alloc::AllocError;

/// Instructions of a space that is watched, none of which is a call or a trap.
#[derive(Clone, Copy, Debug, PartialEq, Eq)]
pub(crate) struct Stretch {
    /// How many there are.
    pub(crate) count: u32,
    /// What is found of the last that changed what is watched, if one did.
    pub(crate) last: Option<Moment>,
}

/// What is known behind instructions of a space that is watched. It is written field by field, where an instruction has changed what is watched.
#[derive(Clone, Copy)]
pub(crate) struct Trail {
    /// What is watched now.
    pub(crate) value: u32,
    /// Whether one of them has changed it; all that follows is of the last that did.
    pub(crate) changed: bool,
    /// Its number among the own events of the path.
    pub(crate) number: u64,
    /// pc before it.
    pub(crate) at: u32,
    /// The word there, where it can be fetched.
    pub(crate) word: Option<u32>,
    /// What was watched before it.
    pub(crate) found: u32,
    /// pc behind it.
    pub(crate) pc: u32,
    /// x0 to x31 behind it.
    pub(crate) x: RegisterFile,
}

impl Trail {
    // Nothing has happened yet.
    fn new(value: u32, x: RegisterFile) -> Trail
        ensures value { result.value ≡ value }
        ensures changed { result.changed ≡ false }
    {
        Trail {
            value,
            changed: false,
            number: 0,
            at: 0,
            word: None,
            found: 0,
            pc: 0,
            x,
        }
    }

    // An instruction of a number, which stands at this pc, has left this value of what is watched, and these registers.
    #[inline(always)]
    fn note(
        &mut self,
        value: u32,
        number: u64,
        at: u32,
        word: Option<u32>,
        pc: u32,
        x: &RegisterFile,
    )
        ensures { self.new ≡ noted self.old value number at word pc x.now }
    {
        if value != self.value {
            self.found = self.value;
            self.value = value;
            self.changed = true;
            self.number = number;
            self.at = at;
            self.word = word;
            self.pc = pc;
            self.x = *x;
        }
    }

    // What is found of the last instruction that changed what is watched.
    fn last<W: Watch>(&self, watch: W) -> Option<Moment>
        requires { IsWatchable (W.what watch) }
        ensures { result ≡ last_in (W.what watch) self.now }
    {
        if !self.changed {
            return None;
        }
        let before = watch.given_back(self.x, self.found);
        Some(Moment {
            number: self.number,
            found: Found {
                registers: Regs::from_parts(self.at, before),
                instruction: spelled(self.word),
                value: self.found,
            },
            after: Regs::from_parts(self.pc, self.x),
            status: Status::Running,
            value: self.value,
        })
    }
}

// The word at an address, where it can be fetched and the instruction there is seen.
#[inline(always)]
fn word_if(seen: bool, memory: &Mem, at: u32) -> Option<u32>
    ensures { seen ≡ true → result ≡ word_in memory.now.memory at }
{
    if seen { word_in(memory, at) } else { None }
}

// What an instruction does that stands at pc. A call and a trap change nothing, nor a store for which there is no memory.
#[inline(always)]
#[tactic(auto, using(space_step::proofs::Seen::steps_seen))]
fn does<S: Source, W>(
    source: &mut S,
    pc: &mut u32,
    x: &mut RegisterFile,
    memory: &mut WatchedMemory<W>,
    instruction: FlatInstruction,
) -> Result<Stepped, AllocError>
    requires agrees { S.agrees source.old (view_of memory.old.memory) }
    requires fields { HasFields (meaning instruction) }
    ensures steps { Steps with_number true (perform (meaning instruction) (view_of memory.old.memory) (registers_at pc.old x.old)) result (registers_at pc.old x.old) memory.old.memory (registers_at pc.new x.new) memory.new.memory }
    ensures agrees { S.agrees source.new (view_of memory.new.memory) }
    ensures marks { Marks memory.old memory.new }
{
    forget_stored(source, x, &instruction);
    perform(pc, x, memory, instruction)
}

// The instruction at pc, from a source, and whether it did anything; what is found of it is kept, where it changed what is watched.
#[inline(always)]
fn step<S: Source, W: Watch>(
    source: &mut S,
    pc: &mut u32,
    x: &mut RegisterFile,
    memory: &mut WatchedMemory<W>,
    trail: &mut Trail,
    watch: W,
    number: u64,
) -> bool
    requires agrees { S.agrees source.old (view_of memory.old.memory) }
    requires watchable { IsWatchable (W.what watch) }
    requires value { trail.old.value ≡ value_in (W.what watch) x.old memory.old.memory }
    ensures done { result ≡ true → IsDone (outcome (view_of memory.old.memory) (registers_at pc.old x.old)) memory.old.memory (registers_at pc.new x.new) memory.new.memory }
    ensures knows { result ≡ true → KeepsUp (W.what watch) number (registers_at pc.old x.old) memory.old.memory (registers_at pc.new x.new) memory.new.memory trail.old trail.new }
    ensures same { result ≡ false → (registers_at pc.new x.new ≡ registers_at pc.old x.old) × (memory.new.memory ≡ memory.old.memory) × (trail.new ≡ trail.old) }
    ensures agrees { S.agrees source.new (view_of memory.new.memory) }
    ensures marks { Marks memory.old memory.new }
{
    let at = *pc;
    let Ok(instruction) = source.instruction_at(memory.memory(), at) else {
        return false;
    };
    let seen = watch.may_change(&instruction, x);
    let word = word_if(seen, memory.memory(), at);
    let Ok(Stepped::Next) = does(source, pc, x, memory, instruction) else {
        return false;
    };
    if seen {
        let value = watch.value(x, memory.memory());
        trail.note(value, number, at, word, *pc, x);
    }
    true
}

// Executes instructions from a source, at most as many as the budget, up to a call or a trap. The first has a number among the own events.
#[inline(never)]
fn watch_in<S: Source, W: Watch>(
    source: &mut S,
    registers: &mut Regs,
    memory: &mut WatchedMemory<W>,
    budget: u32,
    watch: W,
    first: u64,
) -> Stretch
    requires agrees { S.agrees source.old (view_of memory.old.memory) }
    requires watchable { IsWatchable (W.what watch) }
    requires fits { first + budget ≤ 2 ^ 64 }
    ensures within { result.count ≤ budget }
    ensures done { Watches (W.what watch) first result.count registers.old memory.old.memory registers.new memory.new.memory result.last }
    ensures marks { Marks memory.old memory.new }
    ensures agrees { S.agrees source.new (view_of memory.new.memory) }
{
    let mut pc = registers.pc;
    let mut x = registers.file();
    let mut trail = Trail::new(watch.value(&x, memory.memory()), x);
    for count in 0..budget {
        let number = first + u64::from(count);
        if !step(source, &mut pc, &mut x, memory, &mut trail, watch, number) {
            *registers = Regs::from_parts(pc, x);
            return Stretch {
                count,
                last: trail.last(watch),
            };
        }
    }
    *registers = Regs::from_parts(pc, x);
    Stretch {
        count: budget,
        last: trail.last(watch),
    }
}

// The same over a memory, which is a watched one for as long as that takes.
fn watch_over<S: Source, W: Watch>(
    source: &mut S,
    registers: &mut Regs,
    memory: &mut Mem,
    budget: u32,
    watch: W,
    first: u64,
) -> Stretch
    requires agrees { S.agrees source.old (view_of memory.old.memory) }
    requires watchable { IsWatchable (W.what watch) }
    requires fits { first + budget ≤ 2 ^ 64 }
    ensures within { result.count ≤ budget }
    ensures done { Watches (W.what watch) first result.count registers.old memory.old.memory registers.new memory.new.memory result.last }
    ensures marks { Marks memory.old memory.new }
    ensures agrees { S.agrees source.new (view_of memory.new.memory) }
{
    let mut own = WatchedMemory::take(memory);
    let stretch = watch_in(source, registers, &mut own, budget, watch, first);
    *memory = own.into_memory();
    stretch
}

// Instructions of a space that can pay for so many, up to a call or a trap, paid for.
#[tactic(auto, using(space_mem::proofs::Dirty::covers_in_after))]
fn watch_paid<S: Source, W: Watch>(
    source: &mut S,
    top: &mut Top,
    budget: u32,
    watch: W,
    first: u64,
) -> Stretch
    requires agrees { S.agrees source.old (view_of top.old.memory) }
    requires watchable { IsWatchable (W.what watch) }
    requires fits { first + budget ≤ 2 ^ 64 }
    requires pays { Pays budget top.old }
    ensures within { result.count ≤ budget }
    ensures done { Watches (W.what watch) first result.count top.old.registers top.old.memory top.new.registers top.new.memory result.last }
    ensures top { top.new ≡ after_spending result.count top.old (with_parts top.old top.new.registers top.new.memory) }
    ensures agrees { S.agrees source.new (view_of top.new.memory) }
{
    let stretch = watch_over(
        source,
        &mut top.registers,
        &mut top.memory,
        budget,
        watch,
        first,
    );
    top.pay(stretch.count);
    stretch
}

// Instructions of a space that runs, at most so many, up to a call, a trap or the end of what it can pay for, in the loop for what is watched.
fn watch_as<W: Watch>(
    cache: &mut DecodeCache,
    top: &mut Top,
    most: u32,
    watch: W,
    first: u64,
) -> Stretch
    requires running { top.old.status ≡ Running }
    requires watchable { IsWatchable (W.what watch) }
    requires fits { first + most ≤ 2 ^ 64 }
    ensures { WatchesFrom (W.what watch) first most result top.old top.new }
{
    let most = budget(top, most);
    let table = &mut *cache.table;
    table.renew();
    watch_paid(table, top, most, watch, first)
}

/// Instructions of a space that runs, at most so many, up to a call, a trap or the end of what it can pay for. The first has a number among the own
/// events of its path.
pub(crate) fn watch_stretch(
    cache: &mut DecodeCache,
    top: &mut Top,
    most: u32,
    watched: Watched,
    first: u64,
) -> Stretch
    requires running { top.old.status ≡ Running }
    requires watchable { IsWatchable watched }
    requires fits { first + most ≤ 2 ^ 64 }
    ensures { WatchesFrom watched first most result top.old top.new }
{
    match watched {
        Watched::Byte(address) => watch_as(cache, top, most, ByteWatch { address }, first),
        Watched::Register(number) => watch_as(cache, top, most, RegisterWatch { number }, first),
    }
}
