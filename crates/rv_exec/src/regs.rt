ghost use Rattle.std.specs.Prelude.{◌≡◌, ℕ, ◌<◌, ◌≤◌, ◌==◌, ◌^◌, IfSome, IsNone, if◌then◌else◌, replicate, slice_index, slice_set};
ghost use Rattle.instruction_model.specs.Outcome as outcome;

use std::marker::Model;

/// pc, and x0 to x31 (RISC-V Unprivileged ISA, RV32I, programmers' model). x0 is 0.
#[derive(Clone, Copy, Debug, PartialEq, Eq)]
pub struct Regs {
    pub pc: u32,
    pub file: RegisterFile,
}

impl Model for Regs {
    ghost use Rattle.instruction_model.specs.Outcome.{Registers};

    ghost Value = { Registers };

    ghost view = { λ r. record { pc = r.pc; x = r.file } };

    ghost inverse = { λ s. record { pc = s.pc; file = s.x } };
}

impl Regs {
    /// All registers 0.
    pub fn new(pc: u32) -> Regs
        ensures { result ≡ record { pc = pc; x = replicate 32 0 } }
    {
        Regs {
            pc,
            file: RegisterFile { x: [0; 32] },
        }
    }

    /// Register 0 to 31.
    #[inline(always)]
    pub fn register(&self, number: u8) -> u32
        requires { number < 32 }
        ensures { result ≡ outcome.register self.now number }
    {
        self.file.register(number)
    }

    /// Writes register 0 to 31; x0 stays 0.
    #[inline(always)]
    pub fn set_register(&mut self, number: u8, value: u32)
        requires { number < 32 }
        ensures { self.new ≡ outcome.with_register self.old number value }
    {
        if number == 0 {
            return;
        }
        self.file.x[number as usize] = value;
    }

    /// x0 to x31, of which the first is 0.
    #[inline(always)]
    pub fn x(&self) -> &[u32; 32]
        ensures same { result.now ≡ self.now.x }
        ensures zero { slice_index result.now 0 ≡ 0 }
    {
        &self.file.x
    }

    /// x0 to x31, without pc.
    #[inline(always)]
    pub fn file(&self) -> RegisterFile
        ensures { result ≡ self.now.x }
    {
        self.file
    }

    /// pc and x0 to x31.
    #[inline(always)]
    pub fn from_parts(pc: u32, file: RegisterFile) -> Regs
        ensures { result ≡ record { pc = pc; x = file } }
    {
        Regs { pc, file }
    }
}

/// A register that a result goes to, x1 to x31; what is written to x0 goes nowhere (RISC-V Unprivileged ISA, RV32I, programmers' model). Contracts see its
/// number.
#[derive(Clone, Copy)]
pub struct Destination {
    number: u8,
}

impl Model for Destination {
    ghost use Rattle.std.specs.Prelude.{◌≤◌, ◌<◌, ℕ};

    ghost Value = { ℕ };

    ghost view = { λ d. d.number };

    ghost invariant = { λ d. (1 ≤ d.number) × (d.number < 32) };

    ghost inverse = { λ n. record { number = n } };
}

impl Destination {
    /// The register of a number, 0 to 31; none for x0.
    #[inline(always)]
    pub fn of(number: u8) -> Option<Destination>
        requires { number < 32 }
        ensures some { IfSome result (λ d. d ≡ number) }
        ensures none { IsNone result → number ≡ 0 }
    {
        if number == 0 {
            return None;
        }
        Some(Destination { number })
    }

    /// Its number, 1 to 31.
    #[inline(always)]
    pub fn number(self) -> u8
        ensures value { result ≡ self }
        ensures some { 1 ≤ result }
        ensures register { result < 32 }
    {
        self.number
    }
}

/// x0 to x31, while pc stands apart (RISC-V Unprivileged ISA, RV32I, programmers' model). x0 is 0.
#[derive(Clone, Copy, Debug, PartialEq, Eq)]
pub struct RegisterFile {
    x: [u32; 32],
}

impl Model for RegisterFile {
    ghost use Rattle.std.specs.Prelude.{◌≡◌, ℕ, List, slice_index};

    ghost Value = { List ℕ };

    ghost view = { λ f. f.x };

    ghost invariant = { λ f. slice_index f.x 0 ≡ 0 };

    ghost inverse = { λ s. record { x = s } };
}

impl RegisterFile {
    /// Register 0 to 31.
    #[inline(always)]
    pub fn register(&self, number: u8) -> u32
        requires { number < 32 }
        ensures { result ≡ slice_index self.now number }
    {
        self.x[number as usize]
    }

    /// Writes a register that a result goes to. It asks for no test, since that is not x0.
    #[inline(always)]
    #[tactic(auto, using(crate::proofs::Registers::first_stays, crate::proofs::Registers::other_written))]
    pub fn write(&mut self, rd: Destination, value: u32)
        ensures { self.new ≡ (if rd == 0 then self.old else slice_set self.old rd value) }
    {
        self.x[rd.number as usize] = value;
    }

    /// Writes register 0 to 31; x0 stays 0, since it is written behind each.
    #[inline(always)]
    #[tactic(auto, using(crate::proofs::Registers::zero_stays))]
    pub fn set_register(&mut self, number: u8, value: u32)
        requires { number < 32 }
        ensures { self.new ≡ (if number == 0 then self.old else slice_set self.old number value) }
    {
        self.x[number as usize] = value;
        self.x[0] = 0;
    }
}
