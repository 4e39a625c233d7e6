ghost use Rattle.std.specs.Prelude.{◌≡◌, ℕ, ◌<◌, ◌*◌, ◌%◌, ◌^◌, Bool, true, IfOk};
ghost use Rattle.instruction_model.specs.Outcome.{View};
ghost use Rattle.memory_model.specs.Memory.{width_bytes};
ghost use Rattle.memory_model.specs.declared.Width.{Width};
ghost use Rattle.rv_exec.specs.Access.{fetch_result, load_result, IsStored, stored_byte};

use rv_decode::Width;

/// A refused access: 1 for a fetch, 5 for a load, 7 for a store (RISC-V Privileged ISA, "Machine Cause"), and its address.
#[derive(Clone, Copy, Debug, PartialEq, Eq)]
pub struct Fault {
    pub cause: u8,
    pub addr: u32,
}

/// Why a store was not done.
#[derive(Clone, Copy, Debug, PartialEq, Eq)]
pub enum StoreFault {
    Fault(Fault),
    Memory,
}

/// What instructions fetch from, load from and store to. Addresses are aligned to the access.
pub trait Bus {
    // the bytes, and the addresses that may be fetched, read and written
    ghost view: { Self → View };

    // whether a store may want memory
    ghost takes_memory: { Self → Bool };

    // the bus after a store of a number of this width at an address
    ghost stored: { Self → ℕ → Width → ℕ → Self };

    /// The word at a multiple of 4.
    fn fetch(&self, at: u32) -> Result<u32, Fault>
        requires { at % 4 ≡ 0 }
        ensures { result ≡ fetch_result (view self.now) at };

    /// The number of this width at a multiple of the width, zero extended.
    fn load(&self, at: u32, width: Width) -> Result<u32, Fault>
        requires { at % width_bytes width ≡ 0 }
        ensures value { result ≡ load_result (view self.now) at width }
        ensures zero_extended { IfOk result (λ v. v < 2 ^ (8 * width_bytes width)) };

    /// Stores the lowest bytes of `value` at a multiple of the width.
    fn store(&mut self, at: u32, width: Width, value: u32) -> Result<(), StoreFault>
        requires { at % width_bytes width ≡ 0 }
        ensures { IsStored ((view self.old).may_write at) (takes_memory self.old) at self.old (stored self.old at width value) self.new result };

    ghost byte_stored: { (s : Self) (a : ℕ) (w : Width) (v : ℕ) (q : ℕ) → a % width_bytes w ≡ 0 → (view s).may_write a ≡ true → v < 2 ^ 32
        → (view (stored s a w v)).byte q ≡ stored_byte (view s).byte a w v q };

    ghost may_fetch_stored: { (s : Self) (a : ℕ) (w : Width) (v : ℕ) (q : ℕ) → a % width_bytes w ≡ 0 → (view s).may_write a ≡ true → v < 2 ^ 32
        → (view (stored s a w v)).may_fetch q ≡ (view s).may_fetch q };

    ghost may_read_stored: { (s : Self) (a : ℕ) (w : Width) (v : ℕ) (q : ℕ) → a % width_bytes w ≡ 0 → (view s).may_write a ≡ true → v < 2 ^ 32
        → (view (stored s a w v)).may_read q ≡ (view s).may_read q };

    ghost may_write_stored: { (s : Self) (a : ℕ) (w : Width) (v : ℕ) (q : ℕ) → a % width_bytes w ≡ 0 → (view s).may_write a ≡ true → v < 2 ^ 32
        → (view (stored s a w v)).may_write q ≡ (view s).may_write q };

    ghost takes_memory_stored: { (s : Self) (a : ℕ) (w : Width) (v : ℕ) → a % width_bytes w ≡ 0 → (view s).may_write a ≡ true → v < 2 ^ 32
        → takes_memory (stored s a w v) ≡ takes_memory s };
}
