ghost use Rattle.std.specs.Prelude.{◌≡◌, ◌+◌, ◌≤◌, ◌^◌, length, take, drop, Some, OnOk, OnErr, IfOk, IfSome};
ghost use Rattle.call_model.specs.declared.Call.TheVariants.{ConsoleIn, ConsoleOut};
ghost use Rattle.memory_model.specs.Memory.{bytes_from, with_bytes};
ghost use Rattle.space_model.specs.Change.{after_payment, stop};
ghost use Rattle.space_model.specs.Event as event;
ghost use Rattle.space_model.specs.Event.{MayPay, moves, charge};

use space_model::{Cause, Refusal};
use space_tree::{Devices, Top};
use std::alloc::{AllocError, Global};

// A space that has no devices pays for a call of one, and stops.
pub(crate) fn stop_without(top: &mut Top)
    requires { MayPay top.old }
    ensures { top.new ≡ stop (after_payment top.old top.old) Cause.Badcall 6 }
{
    top.trap(Refusal {
        cause: Cause::Badcall,
        value: 6,
    });
}

// A space pays for a call that names bytes which lack a right, and stops.
fn stop_at(top: &mut Top, cause: Cause, value: u32)
    requires { MayPay top.old }
    ensures { top.new ≡ stop (after_payment top.old top.old) cause value }
{
    top.trap(Refusal { cause, value });
}

// Appends a range of memory to the console.
fn write_console(top: &mut Top, addr: u32, len: u32) -> Result<(), AllocError>
    requires { addr + len ≤ 2 ^ 32 }
    ensures ok { OnOk result (IfSome top.old.devices (λ d. top.new ≡ event.with_output top.old d (bytes_from top.old.memory addr len))) }
    ensures err { OnErr result (top.new ≡ top.old) }
{
    let Some(devices) = &mut top.devices else {
        return Ok(());
    };
    if let Some(bytes) = top.memory.lent(addr, len) {
        return devices.console.extend_from_slice(bytes);
    }
    let bytes = top.memory.bytes(top.memory.allocator(), addr, len)?;
    devices.console.extend_from_slice(&bytes)
}

/// Console out of a range of memory that ends within it, of a space that runs and may pay for it: one event, which is paid for. All of the range
/// has to be readable: the space stops (`LoadFault`) at the least address that is not. A space without devices stops (`Badcall` 6). The one
/// error is want of memory: nothing has changed then.
#[tactic(auto, using(crate::proofs::ConsoleEvents::refused, crate::proofs::ConsoleEvents::output_stops, crate::proofs::ConsoleEvents::output_told))]
pub fn console_out(top: &mut Top, addr: u32, len: u32) -> Result<(), AllocError>
    requires within { addr + len ≤ 2 ^ 32 }
    requires may_pay { MayPay top.old }
    ensures ok { OnOk result (charge top.old (event.effect_of top.old (ConsoleOut addr len)) ≡ moves top.new) }
    ensures err { OnErr result (top.new ≡ top.old) }
{
    let Some(_) = &top.devices else {
        stop_without(top);
        return Ok(());
    };
    if let Some(at) = top.memory.first_unreadable(addr, len) {
        stop_at(top, Cause::LoadFault, at);
        return Ok(());
    }
    write_console(top, addr, len)?;
    top.pay_and_succeed();
    Ok(())
}

// The first bytes of the input that is left, at most so many.
fn first_input(alloc: Global, devices: &Devices, len: u32) -> Result<Vec<u8>, AllocError>
    ensures { IfOk result (λ bytes. bytes.items ≡ take len devices.now.input) }
{
    devices
        .input
        .left()
        .iter()
        .take(len as usize)
        .copied()
        .collect(alloc)
}

// Takes the first bytes off the input, at most so many.
fn drop_input(top: &mut Top, len: u32)
    ensures { IfSome top.old.devices (λ d. top.new ≡ record top.old { devices = Some (record d { input = drop len d.input }) }) }
{
    if let Some(devices) = &mut top.devices {
        devices.input.consume(len as usize);
    }
}

// Writes bytes to the memory of a space.
#[tactic(auto, using(space_mem::proofs::Dirty::covers_in_after))]
fn write_memory(top: &mut Top, addr: u32, bytes: &[u8]) -> Result<(), AllocError>
    requires { addr + length bytes.now ≤ 2 ^ 32 }
    ensures ok { OnOk result (top.new ≡ record top.old { memory = with_bytes top.old.memory addr bytes.now }) }
    ensures err { OnErr result (top.new ≡ top.old) }
{
    top.memory.write_bytes(addr, bytes)
}

// Moves the first bytes of the input, at most so many, to a buffer, and counts them. At an error nothing has changed.
#[tactic(auto, using(crate::proofs::ConsoleEvents::taken_within))]
fn move_input(top: &mut Top, addr: u32, len: u32) -> Result<u32, AllocError>
    requires { addr + len ≤ 2 ^ 32 }
    ensures count { IfOk result (λ n. IfSome top.old.devices (λ d. n ≡ length (take len d.input))) }
    ensures ok { OnOk result (IfSome top.old.devices (λ d. top.new ≡ record top.old { memory = with_bytes top.old.memory addr (take len d.input); devices = Some (record d { input = drop len d.input }) })) }
    ensures err { OnErr result (top.new ≡ top.old) }
{
    let Some(devices) = &top.devices else {
        return Ok(0);
    };
    let bytes = first_input(top.memory.allocator(), devices, len)?;
    write_memory(top, addr, &bytes)?;
    drop_input(top, len);
    Ok(bytes.len() as u32)
}

/// Console in to a buffer that ends within memory, of a space that runs and may pay for it: one event, which is paid for. All of the buffer has to
/// be writable: the space stops (`StoreFault`) at the least address that is not. A space without devices stops (`Badcall` 6). The one error is
/// want of memory: nothing has changed then.
#[tactic(auto, using(crate::proofs::ConsoleEvents::refused, crate::proofs::ConsoleEvents::input_stops, crate::proofs::ConsoleEvents::input_told))]
pub fn console_in(top: &mut Top, addr: u32, len: u32) -> Result<(), AllocError>
    requires within { addr + len ≤ 2 ^ 32 }
    requires may_pay { MayPay top.old }
    ensures ok { OnOk result (charge top.old (event.effect_of top.old (ConsoleIn addr len)) ≡ moves top.new) }
    ensures err { OnErr result (top.new ≡ top.old) }
{
    let Some(_) = &top.devices else {
        stop_without(top);
        return Ok(());
    };
    if let Some(at) = top.memory.first_unwritable(addr, len) {
        stop_at(top, Cause::StoreFault, at);
        return Ok(());
    }
    let count = move_input(top, addr, len)?;
    top.pay(1);
    top.finish(Some(count));
    Ok(())
}
