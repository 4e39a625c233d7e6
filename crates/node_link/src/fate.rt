ghost use Rattle.std.specs.Prelude.{◌≡◌};
ghost use Rattle.bench_model.specs.Generated as generated;
ghost use Rattle.link_model.specs.Carrying as carrying;

use link_model::Fate;

// What a number is multiplied by to get the next one (a linear congruential generator of Numerical Recipes), and what is then added.
const MULTIPLIER: u32 = 1_664_525;

const INCREMENT: u32 = 1_013_904_223;

/// The number after a number.
pub(crate) fn next(number: u32) -> u32
    ensures { result ≡ generated.next number }
{
    MULTIPLIER.wrapping_mul(number).wrapping_add(INCREMENT)
}

/// The fate of a frame, by a number; at the last turn it arrives.
pub(crate) fn fate_with(left: u32, number: u32) -> Fate
    ensures { result ≡ carrying.fate_with left number }
{
    if left == 0 {
        return Fate::Arrives;
    }
    match number / 65536 % 4 {
        0 => Fate::Lost,
        1 => Fate::Arrives,
        2 => Fate::ArrivesTwice,
        _ => Fate::EarlierArrives,
    }
}
