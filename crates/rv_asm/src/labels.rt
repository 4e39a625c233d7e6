ghost use Rattle.std.specs.Prelude.{◌≡◌, ℕ, List, OnOk, IfOk, option_map, Some, None, if◌then◌else◌, ◌≤◌, ◌<◌, ◌^◌};
ghost use Rattle.rv_asm.specs.Sound.{IsNear};
ghost use Rattle.rv_asm.specs.View.{labels_in};
ghost use Rattle.source_model.specs.Layout as layouts;
ghost use Rattle.source_model.specs.Line as lines;
ghost use Rattle.source_model.specs.Mnemonic.{or_else};
ghost use Rattle.source_model.specs.Reading as sources;

use crate::layout::{address_in, next};
use crate::line::label_of;
use crate::text::first_line;
use source_model::{Definition, Format, Layout, Value};
use std::alloc::{AllocError, Global};
use std::collections::BTreeMap;

/// Where labels are first defined, by name.
pub type Labels<'a> = BTreeMap<&'a [u8], Definition>;

/// The layout before the first line.
pub(crate) const START: Layout = Layout {
    format: Format::Dti1,
    reached: None,
    used: 0,
    begun: 0,
};

// Defines a name unless it is defined already.
fn define<'a>(
    labels: &mut Labels<'a>,
    name: &'a [u8],
    definition: Definition,
) -> Result<(), AllocError>
    ensures { OnOk result ((q : List ℕ) → labels_in labels.new q ≡ or_else (labels_in labels.old q) (if lines.is_named q (Some name.now) then Some definition else None)) }
{
    if !labels.contains_key(name) {
        labels.insert(name, definition)?;
    }
    Ok(())
}

#[tactic(auto, unfolding(source_model::specs::Line::defines))]
// Defines the label of a line, where it has one that is not defined.
fn define_label<'a>(
    labels: &mut Labels<'a>,
    line: &'a [u8],
    number: u64,
    here: Layout,
) -> Result<(), AllocError>
    ensures { OnOk result ((q : List ℕ) → labels_in labels.new q ≡ or_else (labels_in labels.old q) (if lines.defines q line.now then Some (record { line = number; value = layouts.address_in here.reached }) else None)) }
{
    match label_of(line) {
        Some(name) => {
            let value = address_in(here.reached);
            define(
                labels,
                name,
                Definition {
                    line: number,
                    value,
                },
            )
        }
        None => Ok(()),
    }
}

/// Where the labels of a source are first defined, whether it can be assembled or not. The one error is want of memory.
pub fn labels_of<'a>(alloc: Global, source: &'a [u8]) -> Result<Labels<'a>, AllocError>
    ensures { IfOk result (λ m. labels_in m ≡ layouts.definitions source.now) }
{
    let mut labels = BTreeMap::new(alloc);
    let mut here = START;
    let mut number = 1;
    let mut rest = source;
    while !rest.is_empty() {
        let (line, after) = first_line(rest);
        define_label(&mut labels, line, number, here)?;
        here = next(here, line);
        number += 1;
        rest = after;
    }
    Ok(labels)
}

/// What a value is worth, None where its label is not defined.
#[tactic(auto, unfolding(crate::specs::View::labels_in))]
pub(crate) fn worth_of(labels: &Labels<'_>, name: &[u8], value: Value) -> Option<u32>
    ensures { result ≡ sources.worth_of (labels_in labels.now) name.now value }
{
    match value {
        Value::Number(number) => Some(number),
        Value::Label => match labels.get(name) {
            Some(definition) => Some(definition.value),
            None => None,
        },
    }
}

/// Whether a label is defined in an earlier line than this one.
#[tactic(auto, unfolding(crate::specs::View::labels_in))]
pub(crate) fn is_defined_before(labels: &Labels<'_>, number: u64, label: Option<&[u8]>) -> bool
    ensures { result ≡ sources.is_defined_before (labels_in labels.now) number (option_map (λ n. n.now) label.entry) }
{
    match label {
        Some(name) => match labels.get(name) {
            Some(definition) => definition.line < number,
            None => false,
        },
        None => false,
    }
}
