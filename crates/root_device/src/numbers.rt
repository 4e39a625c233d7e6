ghost use Rattle.std.specs.Prelude.{◌≡◌};
ghost use Rattle.call_model.specs.declared.Call.TheVariants.{Clock, Random};
ghost use Rattle.space_model.specs.Change.{after_payment};
ghost use Rattle.space_model.specs.Event as event;
ghost use Rattle.space_model.specs.Event.{MayPay, moves, charge};
ghost use Rattle.root_device.specs.Calls.{after_number};

use crate::console::stop_without;
use space_tree::Top;

// A space pays for the number that a device gave, which goes into a1; where it had none left, a0 is 1 and a1 is 0.
fn tell_number(top: &mut Top, number: Option<u32>)
    requires { MayPay top.old }
    ensures { top.new ≡ after_number number (after_payment top.old top.old) }
{
    top.pay(1);
    match number {
        Some(n) => top.finish(Some(n)),
        None => {
            top.registers.set_register(11, 0);
            top.fail(1);
        }
    }
}

/// The next reading of the clock goes into a1, of a space that runs and may pay for it: one event, which is paid for. Where there is none left, a0 is
/// 1. A space without devices stops (`Badcall` 6).
#[tactic(auto, using(crate::proofs::ConsoleEvents::refused))]
pub fn read_clock(top: &mut Top)
    requires { MayPay top.old }
    ensures { charge top.old (event.effect_of top.old Clock) ≡ moves top.new }
{
    let Some(devices) = &mut top.devices else {
        return stop_without(top);
    };
    let number = devices.clocks.pop_front();
    tell_number(top, number);
}

/// The next random number goes into a1, of a space that runs and may pay for it: one event, which is paid for. Where there is none left, a0 is 1. A
/// space without devices stops (`Badcall` 6).
#[tactic(auto, using(crate::proofs::ConsoleEvents::refused))]
pub fn draw_number(top: &mut Top)
    requires { MayPay top.old }
    ensures { charge top.old (event.effect_of top.old Random) ≡ moves top.new }
{
    let Some(devices) = &mut top.devices else {
        return stop_without(top);
    };
    let number = devices.numbers.pop_front();
    tell_number(top, number);
}
