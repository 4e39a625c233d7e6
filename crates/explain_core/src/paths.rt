ghost use Rattle.std.specs.Prelude.{◌≡◌, ◌∷◌, IfOk, string_bytes};
ghost use Rattle.std.specs.List.{flat_map};
ghost use Rattle.std.specs.Fmt.{decimal};
ghost use Rattle.report_model.specs.Report.{path_text};

use space_tree::Path;
use std::alloc::{AllocError, Global};

// A slash and a number for each level.
fn steps_text(alloc: Global, path: &[u16]) -> Result<String, AllocError>
    ensures { IfOk result (λ s. string_bytes s ≡ flat_map (λ k. 47 ∷ decimal k) path.now) }
{
    let mut text = String::new(alloc);
    for number in path {
        let step = format!(in alloc; "/{number}")?;
        text.push_str(&step)?;
    }
    Ok(text)
}

/// A path: a slash and a number for each level, or a slash for the root's.
pub fn path_text(alloc: Global, path: &Path) -> Result<String, AllocError>
    ensures { IfOk result (λ s. string_bytes s ≡ path_text path.now.items) }
{
    match path.as_slice() {
        [] => String::from_str(alloc, "/"),
        steps => steps_text(alloc, steps),
    }
}
