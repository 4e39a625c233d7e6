ghost use Rattle.std.specs.Prelude.{◌≡◌};
ghost use Rattle.space_model.specs.Stop as stops;

use space_model::Cause;

/// The number of a cause: 0 to 7 for traps of RISC-V (Privileged ISA, "Machine Cause"), 16 to 21 for the others.
pub fn cause_number(cause: Cause) -> u32
    ensures number { result ≡ stops.cause_number cause }
    ensures back { stops.cause_of result ≡ cause }
{
    match cause {
        Cause::FetchMisaligned => 0,
        Cause::FetchFault => 1,
        Cause::Illegal => 2,
        Cause::Breakpoint => 3,
        Cause::LoadMisaligned => 4,
        Cause::LoadFault => 5,
        Cause::StoreMisaligned => 6,
        Cause::StoreFault => 7,
        Cause::Badcall => 16,
        Cause::Conflict => 17,
        Cause::Limit => 18,
        Cause::Fuel => 19,
        Cause::Ret => 20,
        Cause::Fresh => 21,
    }
}

/// The cause of a number; numbers of no cause give `Fresh`.
pub fn cause_of(number: u32) -> Cause
    ensures { result ≡ stops.cause_of number }
{
    match number {
        0 => Cause::FetchMisaligned,
        1 => Cause::FetchFault,
        2 => Cause::Illegal,
        3 => Cause::Breakpoint,
        4 => Cause::LoadMisaligned,
        5 => Cause::LoadFault,
        6 => Cause::StoreMisaligned,
        7 => Cause::StoreFault,
        16 => Cause::Badcall,
        17 => Cause::Conflict,
        18 => Cause::Limit,
        19 => Cause::Fuel,
        20 => Cause::Ret,
        _ => Cause::Fresh,
    }
}
