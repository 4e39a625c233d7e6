ghost use Rattle.std.specs.Prelude.{◌≡◌, ◌≤◌, ◌^◌, Some, Ok, Err, false, IfOk, IfErr, option_map, length};
ghost use Rattle.fault_model.specs.Gives.{Gives};
ghost use Rattle.image_model.specs.Image as model;
ghost use Rattle.image_model.specs.Image.{image_bytes};
ghost use Rattle.rv_asm.specs.Sound.{IsStatement, IsNear};
ghost use Rattle.rv_asm.specs.View.{Refuses, draft_view, labels_in};
ghost use Rattle.source_model.specs.Layout.{is_out_of_place as cannot_stand, address_in as address, size_of as statement_size};
ghost use Rattle.source_model.specs.Reading as sources;
ghost use Rattle.source_model.specs.Reading.{source_of};
ghost use Rattle.source_model.specs.Source.{SourceOf, IsRefused};
ghost use Rattle.source_model.specs.declared.error.AsmError.{AsmError as ErrorData};
ghost use Rattle.source_model.specs.Bytes.{lines_of};

use crate::draft::{Draft, blank, draft_image, draft_with, is_too_far, operand_of, size_with};
use crate::fault::{AsmFault, bad};
use crate::labels::{Labels, is_defined_before, labels_of, worth_of};
use crate::layout::{address_in, is_out_of_place, size_of};
use crate::line::{label_of, statement_in};
use crate::text::first_line;
use image_file::Image;
use source_model::{AsmErrorKind, Statement};
use std::alloc::Global;

/// The most bytes that an image's file has.
const LIMIT: u64 = 16_777_216;

// The value of a statement that can stand behind the draft, or the first kind of fault.
#[tactic(auto, unfolding(source_model::specs::Reading::check_line))]
fn check_line(
    labels: &Labels<'_>,
    number: u64,
    draft: &Draft,
    label: Option<&[u8]>,
    statement: Statement,
    value: Option<u32>,
) -> Result<u32, AsmErrorKind>
    requires near { IsNear draft.now.layout }
    requires room { draft.now.size ≤ 16777216 }
    requires sound { IsStatement statement }
    ensures fault { IfErr result (λ k. sources.check_line (labels_in labels.now) number (draft_view draft.now) (option_map (λ n. n.now) label.entry) statement value ≡ Err k) }
    ensures value { IfOk result (λ v. sources.check_line (labels_in labels.now) number (draft_view draft.now) (option_map (λ n. n.now) label.entry) statement value ≡ Ok (sources.draft_with (draft_view draft.now) statement v)) }
    ensures reach { IfOk result (λ v. sources.is_too_far (address draft.now.layout.reached) statement (Some v) ≡ false) }
    ensures place { IfOk result (λ v. cannot_stand draft.now.layout statement ≡ false) }
    ensures small { IfOk result (λ v. sources.size_with (draft_view draft.now) (statement_size statement) ≤ 16777216) }
{
    if is_too_far(address_in(draft.layout.reached), statement, value) {
        return Err(AsmErrorKind::Number);
    }
    if is_defined_before(labels, number, label) {
        return Err(AsmErrorKind::Twice);
    }
    if is_out_of_place(draft.layout, statement) {
        return Err(AsmErrorKind::Place);
    }
    if size_with(draft, size_of(statement)) > LIMIT {
        return Err(AsmErrorKind::TooBig);
    }
    value.ok_or(AsmErrorKind::Label)
}

// The draft with a line.
#[tactic(auto, unfolding(source_model::specs::Reading::with_line))]
fn with_line(
    alloc: Global,
    labels: &Labels<'_>,
    number: u64,
    draft: Draft,
    line: &[u8],
) -> Result<Draft, AsmFault>
    requires near { IsNear draft.layout }
    requires room { draft.size ≤ 16777216 }
    ensures value { Gives draft_view result (sources.in_line number (sources.with_line (labels_in labels.now) number (draft_view draft) line.now) (λ d. Ok d)) }
    ensures near { IfOk result (λ d. IsNear d.layout) }
    ensures room { IfOk result (λ d. d.size ≤ 16777216) }
{
    let (statement, name) = match statement_in(line) {
        Ok(found) => found,
        Err(kind) => return Err(bad(number, kind)),
    };
    let value = worth_of(labels, name, operand_of(statement));
    match check_line(labels, number, &draft, label_of(line), statement, value) {
        Ok(value) => Ok(draft_with(alloc, draft, statement, value)?),
        Err(kind) => Err(bad(number, kind)),
    }
}

// The draft with every line.
fn with_lines(alloc: Global, labels: &Labels<'_>, source: &[u8]) -> Result<Draft, AsmFault>
    ensures { Gives draft_view result (sources.with_lines (labels_in labels.now) 1 sources.blank (lines_of source.now)) }
{
    let mut draft = blank(alloc);
    let mut number = 1;
    let mut rest = source;
    while !rest.is_empty() {
        let (line, after) = first_line(rest);
        draft = with_line(alloc, labels, number, draft, line)?;
        number += 1;
        rest = after;
    }
    Ok(draft)
}

#[tactic(auto, unfolding(source_model::specs::Reading::source_of))]
fn whole(alloc: Global, source: &[u8]) -> Result<Image, AsmFault>
    ensures exact { Gives (λ i. i) result (source_of source.now) }
    ensures small { IfOk result (λ i. length (image_bytes i) ≤ 16777216) }
{
    let labels = labels_of(alloc, source)?;
    let draft = with_lines(alloc, &labels, source)?;
    Ok(draft_image(draft)?)
}

/// The image that a source stands for: ASCII text in lines, each an optional label with a colon, an optional statement
/// and an optional comment from `;` or `#` on. Statements are the instructions of RV32I, `li`, and the directives
/// `.segment`, `.dti2`, `.entry`, `.stack`, `.word`, `.byte` and `.zero`. An error is the first fault of the least line that has
/// one, or want of memory.
pub fn assemble(alloc: Global, source: &[u8]) -> Result<Image, AsmFault>
    // What is assembled is a source of that image.
    ensures found { IfOk result (λ i. SourceOf source.now i) }
    // A source of an image is assembled, unless memory runs out.
    ensures only { (i : model.Image) → SourceOf source.now i → Gives (λ x. x) result (Ok i) }
    // Its file is no larger than the limit.
    ensures small { IfOk result (λ i. length (image_bytes i) ≤ 16777216) }
    // What is refused is refused with that fault.
    ensures fault { IfErr result (λ f. Refuses f source.now) }
    // A text that is refused with a fault is refused, unless memory runs out.
    ensures rest { (e : ErrorData) → IsRefused source.now e → Gives (λ x. x) result (Err e) }
    // What reading from left to right gives.
    ensures exact { Gives (λ i. i) result (source_of source.now) }
{
    whole(alloc, source)
}
