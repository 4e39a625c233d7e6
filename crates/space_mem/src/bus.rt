ghost use Rattle.std.specs.Prelude.{ℕ, true};
ghost use Rattle.space_mem.specs.Held.{with_stored};
ghost use Rattle.instruction_model.specs.Outcome.{view_of};

use crate::memory::Mem;
use rv_exec::{Bus, Fault, StoreFault, Width};

impl Bus for Mem {
    ghost use Rattle.space_mem.specs.Stored as laws;

    ghost view = { λ h. view_of h.memory };

    ghost takes_memory = { λ _. true };

    ghost stored = { with_stored };

    #[inline(always)]
    fn fetch(&self, at: u32) -> Result<u32, Fault> {
        match Mem::fetch(self, at) {
            Some(word) => Ok(word),
            None => Err(Fault { cause: 1, addr: at }),
        }
    }

    #[inline(always)]
    fn load(&self, at: u32, width: Width) -> Result<u32, Fault> {
        self.bounds();
        match Mem::load(self, at, width) {
            Some(number) => Ok(number),
            None => Err(Fault { cause: 5, addr: at }),
        }
    }

    #[inline(always)]
    fn store(&mut self, at: u32, width: Width, value: u32) -> Result<(), StoreFault> {
        match self.try_store(at, width, value) {
            Ok(true) => Ok(()),
            Ok(false) => Err(StoreFault::Fault(Fault { cause: 7, addr: at })),
            Err(_) => Err(StoreFault::Memory),
        }
    }

    ghost byte_stored = { λ s a w v q h i j. laws.byte_stored s.memory a w v q };

    ghost may_fetch_stored = { λ s a w v q h i j. laws.may_fetch_stored s.memory a w v q };

    ghost may_read_stored = { λ s a w v q h i j. laws.may_read_stored s.memory a w v q };

    ghost may_write_stored = { λ s a w v q h i j. laws.may_write_stored s.memory a w v q };

    ghost takes_memory_stored = { λ s a w v h i j. laws.true_is_true };
}
