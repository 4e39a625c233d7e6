ghost use Rattle.std.specs.Prelude.{◌≡◌};
ghost use Rattle.space_model.specs.Change.{stop};
ghost use Rattle.space_step.specs.Stretch.{budget, shortage};

use space_model::Cause;
use space_tree::Top;

/// How many of `quantum` events fuel and limit cover.
pub fn budget(top: &Top, quantum: u32) -> u32
    ensures { result ≡ budget top.now quantum }
{
    let fuelled = quantum.min(top.fuel);
    match top.limit {
        Some(limit) => fuelled.min(limit),
        None => fuelled,
    }
}

/// Stops a space that may pay for no event: by its fuel, else by its limit.
pub(crate) fn run_out(top: &mut Top)
    ensures { top.new ≡ stop top.old (shortage top.old) 0 }
{
    if top.fuel == 0 {
        top.stop(Cause::Fuel, 0);
    } else {
        top.stop(Cause::Limit, 0);
    }
}
