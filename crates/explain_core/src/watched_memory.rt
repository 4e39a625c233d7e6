ghost use Rattle.std.specs.Prelude.{◌≡◌};
ghost use Rattle.space_mem.specs.Held.{nothing_held};

use rv_exec::{Bus, Fault, StoreFault, Width};
use space_tree::Mem;
use std::marker::{Model, PhantomData};
use std::mem;

/// A memory while the space that it belongs to is watched by a `W`. Contracts see it as that memory. It is a type of its own for each kind of watch, so that the instructions
/// over it are compiled apart from all others: a body as large as that of `rv_exec::perform` is put in the place of a call only where there is one call.
pub(crate) struct WatchedMemory<W> {
    memory: Mem,
    watch: PhantomData<W>,
}

impl<W> Model for WatchedMemory<W> {
    ghost use Rattle.space_mem.specs.Held.{Held, coded_held};

    ghost Value = { Held };

    ghost coded = { coded_held };

    ghost view = { λ w. w.memory };

    ghost inverse = { λ h. record { memory = h; watch = record {} } };
}

impl<W> WatchedMemory<W> {
    /// Takes a memory, and leaves an empty one in its place.
    pub(crate) fn take(memory: &mut Mem) -> WatchedMemory<W>
        ensures taken { result ≡ memory.old }
        ensures left { memory.new ≡ nothing_held }
    {
        let none = Mem::new(memory.allocator());
        WatchedMemory {
            memory: mem::replace(memory, none),
            watch: PhantomData,
        }
    }

    /// The memory.
    #[inline(always)]
    pub(crate) fn memory(&self) -> &Mem
        ensures { result.now ≡ self.now }
    {
        &self.memory
    }

    /// The memory, as it was taken or as instructions have left it.
    pub(crate) fn into_memory(self) -> Mem
        ensures { result ≡ self }
    {
        let WatchedMemory { memory, watch: _ } = self;
        memory
    }
}

impl<W> Bus for WatchedMemory<W> {
    ghost use Rattle.std.specs.Prelude.{true};
    ghost use Rattle.space_mem.specs.Held.{with_stored};
    ghost use Rattle.space_mem.specs.Stored as laws;
    ghost use Rattle.instruction_model.specs.Outcome.{view_of};

    ghost view = { λ h. view_of h.memory };

    ghost takes_memory = { λ _. true };

    ghost stored = { with_stored };

    #[inline(always)]
    fn fetch(&self, at: u32) -> Result<u32, Fault> {
        Bus::fetch(&self.memory, at)
    }

    #[inline(always)]
    fn load(&self, at: u32, width: Width) -> Result<u32, Fault> {
        Bus::load(&self.memory, at, width)
    }

    #[inline(always)]
    fn store(&mut self, at: u32, width: Width, value: u32) -> Result<(), StoreFault> {
        Bus::store(&mut self.memory, at, width, value)
    }

    ghost byte_stored = { λ s a w v q h i j. laws.byte_stored s.memory a w v q };

    ghost may_fetch_stored = { λ s a w v q h i j. laws.may_fetch_stored s.memory a w v q };

    ghost may_read_stored = { λ s a w v q h i j. laws.may_read_stored s.memory a w v q };

    ghost may_write_stored = { λ s a w v q h i j. laws.may_write_stored s.memory a w v q };

    ghost takes_memory_stored = { λ s a w v h i j. laws.true_is_true };
}
