ghost use Rattle.std.specs.Prelude.{◌≡◌, ◌++◌, ◌∷◌, ℕ, List, IfOk, OnOk, true, string_bytes};
ghost use Rattle.std.specs.Fmt.{decimal};
ghost use Rattle.space_model.specs.Space.{is_settled};
ghost use Rattle.report_model.specs.Report.{report, report_of};
ghost use Rattle.det_report.specs.Paths.{steps_of};

use crate::line::push_line;
use space_tree::Space;
use std::alloc::{AllocError, Global};

// The steps of a child: those of its parent and its number.
fn steps_of_child(alloc: Global, steps: &str, number: u16) -> Result<String, AllocError>
    ensures { IfOk result (λ s. string_bytes s ≡ steps.now ++ 47 ∷ decimal number) }
{
    format!(in alloc; "{steps}/{number}")
}

// Appends the report of a settled space, which stands behind these steps, and of all below it.
fn push_report(
    alloc: Global,
    steps: &str,
    space: &Space,
    digest: bool,
    text: &mut Vec<u8>,
) -> Result<(), AllocError>
    requires { is_settled space.now ≡ true }
    ensures { OnOk result ((path : List ℕ) → steps.now ≡ steps_of path → text.new.items ≡ text.old.items ++ report_of digest path space.now) }
{
    push_line(alloc, steps, &space.top, digest, text)?;
    for (number, child) in space.children.entries() {
        let steps = steps_of_child(alloc, steps, *number)?;
        push_report(alloc, &steps, child, digest, text)?;
    }
    Ok(())
}

/// The report of a settled tree: a line for each space with its path, cause, value, pc and used, and with the digest of its memory
/// where `digest` asks for it; a parent before its children, and children by rising number.
pub fn report(alloc: Global, space: &Space, digest: bool) -> Result<Vec<u8>, AllocError>
    requires { is_settled space.now ≡ true }
    ensures { IfOk result (λ v. v.items ≡ report digest space.now) }
{
    let mut text = Vec::new(alloc);
    push_report(alloc, "", space, digest, &mut text)?;
    Ok(text)
}
