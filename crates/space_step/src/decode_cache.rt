ghost use Rattle.std.specs.Prelude.{◌≡◌, ◌+◌, ◌-◌, ◌*◌, ◌/◌, ◌%◌, ◌^◌, ◌<◌, ◌≤◌, true, false, IfOk, IsTrue, replicate};
ghost use Rattle.instruction_model.specs.Form.{HasFields};
ghost use Rattle.instruction_model.specs.Outcome.{View, view_of};
ghost use Rattle.rv_exec.specs.Flat.{meaning};
ghost use Rattle.space_step.specs.Source.{IsKnown, HasNone};
ghost use Rattle.space_step.specs.Cache.{Agrees, Hits, IsBounded, Lacks, place};

use crate::source::{Source, Trap, decoded_at, trap_at};
use rv_exec::{FlatInstruction, flat_of};
use space_mem::Mem;
use std::alloc::{AllocError, Global};
use std::marker::Model;

/// How many entries a cache has. Words whose addresses are a multiple of four times as many apart share an entry.
pub(crate) const ENTRIES: usize = 16384;

// How many keys a generation has: one for each address.
const KEYS: u64 = 4294967296;

// The key of an entry that keeps nothing: it is of no generation.
const EMPTY: u64 = 0;

/// A decoded instruction, and its key: the generation in which it was decoded, and the address of its word.
#[derive(Clone, Copy)]
pub(crate) struct Entry {
    key: u64,
    instruction: FlatInstruction,
}

impl Entry {
    /// An entry that keeps nothing. All its bytes are 0, so that a table of such entries is memory that is cleared.
    #[inline(always)]
    pub(crate) fn empty() -> Entry
        ensures { result.key ≡ 0 }
    {
        Entry {
            key: EMPTY,
            instruction: FlatInstruction::Beq {
                rs1: 0,
                rs2: 0,
                immediate: 0,
            },
        }
    }
}

/// A direct-mapped table of decoded instructions. What it keeps is what it has learnt in the present generation, whose keys begin at `first`.
#[derive(Drop)]
pub struct Table {
    first: u64,
    entries: [Entry; ENTRIES],
}

// As many entries as a cache has, of which each keeps nothing.
#[inline(always)]
fn empty_entries() -> [Entry; ENTRIES]
    ensures { (e : Entry) × (e.key ≡ 0) × (result ≡ replicate ENTRIES e) }
{
    [Entry::empty(); ENTRIES]
}

// The place of the entry for the word of an address.
#[inline(always)]
fn place_of(at: u32) -> usize
    ensures { result ≡ place at }
{
    (at / 4) as usize % ENTRIES
}

impl Table {
    // A table that keeps nothing, made where it stands. Its first generation begins behind that: a table all of whose bytes are 0 takes no place on
    // the stack on its way there.
    #[inline(never)]
    fn empty(alloc: Global) -> Result<Box<Table, Global>, AllocError>
        ensures bounded { IfOk result (λ t. IsBounded t.value.first t.value.entries) }
        ensures nothing { IfOk result (λ t. (v : View) → Agrees v t.value) }
    {
        let mut table = Box::new(
            alloc,
            Table {
                first: 0,
                entries: [Entry::empty(); ENTRIES],
            },
        )?;
        table.begin();
        Ok(table)
    }

    // Begins the first generation, where all entries are empty.
    #[inline(always)]
    fn begin(&mut self)
        ensures { (e : Entry) → e.key ≡ 0 → self.old.entries ≡ replicate ENTRIES e → (v : View) → Agrees v self.new }
    {
        self.first = KEYS;
    }

    // The key of an address in this generation.
    #[inline(always)]
    fn key_of(&self, at: u32) -> u64
        ensures { self.now.first ≤ 2 ^ 64 - 2 ^ 32 → result ≡ self.now.first + at }
    {
        self.first.wrapping_add(u64::from(at))
    }

    // Whether the instruction at an address is kept.
    #[inline(always)]
    fn hits(&self, at: u32) -> bool
        ensures { self.now.first ≤ 2 ^ 64 - 2 ^ 32 → IsTrue result → Hits self.now at }
    {
        self.entries[place_of(at)].key == self.key_of(at)
    }

    // The instruction at an address, where it is kept.
    #[inline(always)]
    fn kept(&self, at: u32) -> FlatInstruction
        ensures { (v : View) → Agrees v self.now → Hits self.now at → (at % 4 ≡ 0) × HasFields (meaning result) × IsKnown v at (meaning result) }
    {
        self.entries[place_of(at)].instruction
    }

    // Keeps the instruction at an address, if one stands there.
    #[inline(never)]
    fn learn(&mut self, memory: &Mem, at: u32) -> bool
        requires { Agrees (view_of memory.now.memory) self.old }
        ensures agrees { Agrees (view_of memory.now.memory) self.new }
        ensures learnt { result ≡ true → Hits self.new at }
        ensures none { result ≡ false → HasNone (view_of memory.now.memory) at }
    {
        match decoded_at(memory, at) {
            Ok(instr) => {
                let key = self.key_of(at);
                let instruction = flat_of(instr);
                self.entries[place_of(at)] = Entry { key, instruction };
                true
            }
            Err(_) => false,
        }
    }

    // Has the instruction at an address kept, if one stands there.
    #[inline(always)]
    fn find(&mut self, memory: &Mem, at: u32) -> bool
        requires { Agrees (view_of memory.now.memory) self.old }
        ensures agrees { Agrees (view_of memory.now.memory) self.new }
        ensures found { result ≡ true → Hits self.new at }
        ensures none { result ≡ false → HasNone (view_of memory.now.memory) at }
    {
        if self.hits(at) {
            return true;
        }
        self.learn(memory, at)
    }

    // Keeps the word of an address no longer.
    #[inline(always)]
    fn invalidate(&mut self, at: u32)
        ensures agrees { (v : View) → Agrees v self.old → Agrees v self.new }
        ensures lacks { (v : View) → Agrees v self.old → Lacks self.new at }
    {
        let place = place_of(at);
        if self.entries[place].key == self.key_of(at / 4 * 4) {
            self.entries[place].key = EMPTY;
        }
    }

    // Empties all entries.
    #[inline(never)]
    fn clear(&mut self)
        ensures { (v : View) → Agrees v self.new }
    {
        self.entries = empty_entries();
        self.begin();
    }

    /// Begins a new generation, in which nothing is kept yet.
    pub fn renew(&mut self)
        ensures { IsBounded self.old.first self.old.entries → (v : View) → Agrees v self.new }
    {
        if self.first < u64::MAX - 2 * KEYS {
            self.first += KEYS;
        } else {
            self.clear();
        }
    }
}

impl Source for Table {
    ghost use Rattle.space_step.specs.Cache.{Agrees};

    ghost agrees = { λ s v. Agrees v s };

    #[inline(always)]
    #[tactic(auto, using(crate::proofs::Caching::known_stands))]
    fn instruction_at(&mut self, memory: &Mem, at: u32) -> Result<FlatInstruction, Trap> {
        if self.find(memory, at) {
            Ok(self.kept(at))
        } else {
            Err(trap_at(memory, at))
        }
    }

    #[inline(always)]
    fn forget(&mut self, at: u32) {
        self.invalidate(at);
    }

    fn forget_all(&mut self) {
        self.renew();
    }
}

/// Decoded instructions of the memory of one space: what a word decodes to is kept until a store, or an event that may write memory otherwise.
/// Each `advance` begins with nothing kept, so one cache serves any spaces in turn.
#[derive(Drop)]
pub struct DecodeCache {
    /// Where instructions are decoded once.
    pub table: Box<Table, Global>,
}

impl Model for DecodeCache {
    ghost use Rattle.space_step.specs.Cache.{IsBounded};

    ghost Value = { Unit {0} };

    ghost view = { λ c. tt };

    ghost invariant = { λ c. IsBounded c.table.value.first c.table.value.entries };
}

impl DecodeCache {
    /// A cache that keeps nothing, of some 256 KB. Its one error is want of memory.
    pub fn new(alloc: Global) -> Result<DecodeCache, AllocError> {
        let table = Table::empty(alloc)?;
        Ok(DecodeCache { table })
    }
}
