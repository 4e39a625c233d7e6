ghost use Rattle.std.specs.Prelude.{◌≡◌, ◌^◌, ◌%◌, IfOk, true, length};
ghost use Rattle.std.specs.List.{sum_by};
ghost use Rattle.space_model.specs.Space.{is_settled};
ghost use Rattle.report_model.specs.Summary.{summary, tops_of};

use crate::line::stop_text;
use space_tree::Space;
use std::alloc::{AllocError, Global};

// How many spaces there are in a tree, and how many events they took, both modulo 2^64.
#[derive(Clone, Copy)]
struct Sums {
    spaces: u64,
    used: u64,
}

// The sums of a space and all below it.
fn sums_of(space: &Space) -> Sums
    ensures spaces { result.spaces ≡ length (tops_of space.now) % 2 ^ 64 }
    ensures used { result.used ≡ sum_by (λ t. t.used) (tops_of space.now) % 2 ^ 64 }
{
    let entries = space.children.entries();
    let mut spaces: u64 = 1;
    let mut used = u64::from(space.top.used);
    for child in entries.values() {
        let below = sums_of(child);
        spaces = spaces.wrapping_add(below.spaces);
        used = used.wrapping_add(below.used);
    }
    Sums { spaces, used }
}

/// The line that sums up a settled tree: how many children its root has, how many spaces there are and how many events they took, both modulo
/// 2^64, how many bytes the console has, and the root's cause and value as in its report.
pub fn summary(alloc: Global, space: &Space) -> Result<Vec<u8>, AllocError>
    requires { is_settled space.now ≡ true }
    ensures { IfOk result (λ v. v.items ≡ summary space.now) }
{
    let threads = space.children.entries().len();
    let Sums { spaces, used } = sums_of(space);
    let console = space.top.console_len();
    let root = stop_text(alloc, space.top.status)?;
    let text = format!(in alloc;
        "threads {threads} spaces {spaces} used {used} console {console} root {root}\n"
    )?;
    Ok(text.into_bytes())
}
