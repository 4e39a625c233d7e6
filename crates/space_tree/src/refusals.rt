ghost use Rattle.std.specs.Prelude.{◌≡◌, Some};
ghost use Rattle.space_model.specs.Meeting.{test_refusal};

use space_model::{Cause, Refusal};

// The call fails the test of this number, one of those that stand behind the tests on registers.
fn failed_test(value: u32) -> Refusal
    ensures { Some result ≡ test_refusal value }
{
    Refusal {
        cause: Cause::Badcall,
        value,
    }
}

/// Test 5: the child has no snapshot to merge against.
pub fn no_snapshot() -> Refusal
    ensures { Some result ≡ test_refusal 5 }
{
    failed_test(5)
}

/// Test 8: a copied tree would be deeper than the deepest space may be.
pub fn too_deep() -> Refusal
    ensures { Some result ≡ test_refusal 8 }
{
    failed_test(8)
}

/// Both sides of a merge have changed the byte at this address.
pub fn conflict(addr: u32) -> Refusal
    ensures { result ≡ record { cause = Cause.Conflict; value = addr } }
{
    Refusal {
        cause: Cause::Conflict,
        value: addr,
    }
}
