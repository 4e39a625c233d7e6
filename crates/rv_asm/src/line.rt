ghost use Rattle.std.specs.Prelude.{◌≡◌, option_map, IfOk};
ghost use Rattle.rv_asm.specs.Gives.{GivesExactly};
ghost use Rattle.rv_asm.specs.Sound.{IsStatement};
ghost use Rattle.source_model.specs.Line as lines;

use crate::statement::{Read, statement_of};
use crate::text::{code_of, cut, label_at};
use source_model::{AsmErrorKind, Class};

/// The label that a line defines.
#[tactic(auto, unfolding(source_model::specs::Line::label_of))]
pub(crate) fn label_of(line: &[u8]) -> Option<&[u8]>
    ensures { option_map (λ n. n.now) result ≡ lines.label_of line.now }
{
    match label_at(code_of(line)) {
        Some((name, _)) => Some(name),
        None => None,
    }
}

#[tactic(auto, unfolding(source_model::specs::Line::body_of))]
fn body_of(line: &[u8]) -> &[u8]
    ensures { result.now ≡ lines.body_of line.now }
{
    let code = code_of(line);
    match label_at(code) {
        Some((_, rest)) => rest,
        None => code,
    }
}

/// A line's statement, or the first kind of fault that the line has by itself.
#[tactic(auto, unfolding(source_model::specs::Line::statement_in))]
pub(crate) fn statement_in(line: &[u8]) -> Read<'_>
    ensures value { GivesExactly (λ x. (x.0, x.1.now)) result (lines.statement_in line.now) }
    ensures sound { IfOk result (λ x. IsStatement x.0) }
{
    if !cut(Class::Foreign, line).1.is_empty() {
        return Err(AsmErrorKind::Word);
    }
    let body = body_of(line);
    match label_at(body) {
        Some(_) => Err(AsmErrorKind::Word),
        None => statement_of(body),
    }
}
