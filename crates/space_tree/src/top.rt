ghost use Rattle.std.specs.Prelude.{◌≡◌, ◌≤◌, ◌<◌, ◌+◌, ◌%◌, ◌^◌, true, length, IfSome, IfOk};
ghost use Rattle.call_model.specs.Limits.{block_size};
ghost use Rattle.space_model.specs.Stop.{is_stopped};
ghost use Rattle.space_model.specs.Sound.{has_devices};
ghost use Rattle.space_model.specs.Block.{registers_at, block_of, stop_number, stop_value};
ghost use Rattle.space_model.specs.Change.{stop, after_success, after_error, after_spending, after_payment};
ghost use Rattle.space_model.specs.Event.{MayPay, after_answer};
ghost use Rattle.space_model.specs.declared.FileAnswer.TheVariants.{Done};
ghost use Rattle.space_model.specs.Part.{registers_part};
ghost use Rattle.space_model.specs.Runtime.{with_stop};
ghost use Rattle.space_model.specs.Beginning.{fresh_top, root_of};
ghost use Rattle.space_model.specs.Space.{console_bytes};
ghost use Rattle.space_mem.specs.Held.{memory_in};

use crate::registers::{read_registers, without_zero};
use dev_script::Devices;
use rv_exec::Regs;
use space_mem::Mem;
use space_model::{Cause, Refusal, Status};
use std::alloc::{AllocError, Global};
use std::marker::Model;
use trap_ret::{Block, cause_number};

/// The status of a space that has never run.
pub const FRESH: Status = Status::Stopped {
    cause: Cause::Fresh,
    value: 0,
};

// What stands for the cause of a space that runs.
const NO_CAUSE: u32 = 22;

// The number of the cause.
fn stop_number(status: Status) -> u32
    ensures { result ≡ stop_number status }
{
    match status {
        Status::Running => NO_CAUSE,
        Status::Stopped { cause, .. } => cause_number(cause),
    }
}

// The value that came with the cause.
fn stop_value(status: Status) -> u32
    ensures { result ≡ stop_value status }
{
    match status {
        Status::Running => 0,
        Status::Stopped { value, .. } => value,
    }
}

/// The state of a space, without its children. Fuel plus used is from 1 to 2^32 - 1, and x0 is 0 (by the type of the registers).
/// Outside of its dirty pages the memory has the bytes of the snapshot, where there is one.
#[derive(Drop)]
pub struct Top {
    pub registers: Regs,
    pub memory: Mem,
    pub snapshot: Option<Mem>,
    pub limit: Option<u32>,
    pub fuel: u32,
    pub used: u32,
    pub status: Status,
    pub devices: Option<Devices>,
}

impl Model for Top {
    ghost use Rattle.std.specs.Prelude.{◌≡◌, ◌≤◌, ◌<◌, ◌^◌, ◌+◌};
    ghost use Rattle.space_model.specs.Space.{Top};
    ghost use Rattle.space_model.specs.Encoding.{coded_top};
    ghost use Rattle.space_mem.specs.Held.{CoversIn, memory_in};

    ghost Value = { Top };

    ghost coded = { coded_top };

    ghost view = { λ t. record { registers = t.registers; memory = t.memory.memory; snapshot = memory_in t.snapshot; limit = t.limit; fuel = t.fuel; used = t.used; status = t.status; devices = t.devices } };

    ghost invariant = { λ t. (t.fuel + t.used < 2 ^ 32) × (1 ≤ t.fuel + t.used) × CoversIn t.memory t.snapshot };
}

impl Top {
    /// A root that is about to run at `entry`, with x2 as its stack pointer.
    pub fn root(entry: u32, stack: u32, memory: Mem, fuel: u32, devices: Devices) -> Top
        requires { 1 ≤ fuel }
        ensures { result ≡ root_of entry stack memory.memory fuel devices }
    {
        let mut registers = Regs::new(entry);
        registers.set_register(2, stack);
        Top {
            registers,
            memory,
            snapshot: None,
            limit: None,
            fuel,
            used: 0,
            status: Status::Running,
            devices: Some(devices),
        }
    }

    /// A space that has never run, with so much fuel.
    pub fn fresh(alloc: Global, fuel: u32) -> Top
        requires { 1 ≤ fuel }
        ensures { result ≡ fresh_top fuel }
    {
        Top {
            registers: Regs::new(0),
            memory: Mem::new(alloc),
            snapshot: None,
            limit: None,
            fuel,
            used: 0,
            status: FRESH,
            devices: None,
        }
    }

    /// How many bytes it wrote to its console; without devices there are none.
    pub fn console_len(&self) -> usize
        ensures { result ≡ length (console_bytes self.now.devices) }
    {
        match &self.devices {
            Some(devices) => devices.console.len(),
            None => 0,
        }
    }

    /// The bytes that it wrote to its console, in one list; without devices there are none. The one error is want of memory.
    pub fn console(&self, alloc: Global) -> Result<Vec<u8>, AllocError>
        ensures { IfOk result (λ bytes. bytes.items ≡ console_bytes self.now.devices) }
    {
        match &self.devices {
            Some(devices) => devices.console.bytes(alloc),
            None => Ok(Vec::new(alloc)),
        }
    }

    /// Whether it has stopped.
    pub fn is_stopped(&self) -> bool
        ensures { result ≡ is_stopped self.now.status }
    {
        match self.status {
            Status::Running => false,
            Status::Stopped { .. } => true,
        }
    }

    /// Whether it has devices.
    pub fn has_devices(&self) -> bool
        ensures { result ≡ has_devices self.now.devices }
    {
        self.devices.is_some()
    }

    /// Fuel and used together: the fuel that each space of the tree had at first.
    pub fn total_fuel(&self) -> u32
        ensures total { result ≡ self.now.fuel + self.now.used }
        ensures some { 1 ≤ result }
    {
        self.fuel + self.used
    }

    /// Stops.
    pub fn stop(&mut self, cause: Cause, value: u32)
        ensures { self.new ≡ stop self.old cause value }
    {
        self.status = Status::Stopped { cause, value };
    }

    /// A call has succeeded: a0 is 0, and the next instruction follows.
    pub fn succeed(&mut self)
        ensures { self.new ≡ after_success self.old }
    {
        self.registers.pc = self.registers.pc.wrapping_add(4);
        self.registers.set_register(10, 0);
    }

    /// Pays for so many events: fuel and the limit, where there is one, go down by them, and used goes up.
    pub fn pay(&mut self, events: u32)
        requires fuel { events ≤ self.old.fuel }
        requires limit { IfSome self.old.limit (λ n. events ≤ n) }
        ensures { self.new ≡ after_spending events self.old self.old }
    {
        self.fuel -= events;
        self.used += events;
        if let Some(limit) = &mut self.limit {
            *limit -= events;
        }
    }

    /// A space that may pay for an event pays for its call, and stops.
    pub fn trap(&mut self, refusal: Refusal)
        requires { MayPay self.old }
        ensures { self.new ≡ stop (after_payment self.old self.old) refusal.cause refusal.value }
    {
        self.pay(1);
        self.stop(refusal.cause, refusal.value);
    }

    /// A space that may pay for an event pays for its call, which has succeeded: a0 is 0, and the next instruction follows.
    pub fn pay_and_succeed(&mut self)
        requires { MayPay self.old }
        ensures { self.new ≡ after_success (after_payment self.old self.old) }
    {
        self.pay(1);
        self.succeed();
    }

    /// A call is done: a1 is what it has counted, where it counts; a0 is 0, and the next instruction follows.
    pub fn finish(&mut self, count: Option<u32>)
        ensures { self.new ≡ after_answer (Done count) self.old }
    {
        if let Some(n) = count {
            self.registers.set_register(11, n);
        }
        self.succeed();
    }

    /// A call is refused: a0 is the number of the error, and the next instruction follows.
    pub fn fail(&mut self, number: u32)
        ensures { self.new ≡ after_error number self.old }
    {
        self.registers.pc = self.registers.pc.wrapping_add(4);
        self.registers.set_register(10, number);
    }

    /// Is told how a child has stopped: a1 is the number of the cause, a2 the value.
    pub fn tell_stop(&mut self, status: Status)
        ensures { self.new ≡ with_stop status self.old }
    {
        self.registers.set_register(11, stop_number(status));
        self.registers.set_register(12, stop_value(status));
    }

    /// The register block that it gives: pc, x1 to x31, the number of its cause and the value.
    pub fn block(&self) -> Block
        ensures { result ≡ block_of self.now }
    {
        Block {
            pc: self.registers.pc,
            x: without_zero(&self.registers),
            cause: stop_number(self.status),
            value: stop_value(self.status),
        }
    }

    /// Its registers become those of the register block that stands in a memory at an address, a multiple of 4.
    pub fn take_block(&mut self, memory: &Mem, at: u32)
        requires aligned { at % 4 ≡ 0 }
        requires within { at + block_size ≤ 2 ^ 32 }
        ensures { self.new ≡ registers_part (registers_at memory.now.memory at) self.old }
    {
        self.registers = read_registers(memory, at);
    }
}
