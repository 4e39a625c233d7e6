ghost use Rattle.std.specs.Prelude.{◌≡◌, Err, IfErr, IfOk, map};
ghost use Rattle.fault_model.specs.Gives.{Gives};
ghost use Rattle.rv_asm.specs.View.{Refuses, labels_in};
ghost use Rattle.source_model.specs.Source.{IsRefused};
ghost use Rattle.source_model.specs.declared.error.AsmError.{AsmError as ErrorData};
ghost use Rattle.symbols.specs.Symbols.{symbol_of};
ghost use Rattle.image_symbols.specs.Labels.{AreLabelsOf, IsListOf};

use rv_asm::{AsmFault, Labels, assemble, labels_of};
use std::alloc::{AllocError, Global};
use symbols::{Symbol, Symbols};

// A name of an address.
fn symbol(alloc: Global, name: &[u8], address: u32) -> Result<Symbol, AllocError>
    ensures { IfOk result (λ s. symbol_of s ≡ record { address = address; name = name.now }) }
{
    Ok(Symbol {
        address,
        name: Vec::from_slice(alloc, name)?,
    })
}

// The labels that are defined, in the order of their names.
fn list_of(alloc: Global, labels: &Labels<'_>) -> Result<Vec<Symbol>, AllocError>
    ensures { IfOk result (λ v. IsListOf (labels_in labels.now) (map symbol_of v.items)) }
{
    let mut symbols = Vec::new(alloc);
    for (name, definition) in labels {
        symbols.push(symbol(alloc, name, definition.value)?)?;
    }
    Ok(symbols)
}

// The labels of a text, in ascending order of their addresses.
fn labels_in_order(alloc: Global, source: &[u8]) -> Result<Symbols, AllocError>
    ensures { IfOk result (λ s. AreLabelsOf source.now s) }
{
    let labels = labels_of(alloc, source)?;
    let symbols = list_of(alloc, &labels)?;
    Symbols::new(symbols)
}

/// The labels of a source, each a name of the address that it stands for. Labels of one address stand in the order of their names, so the last of these names a place
/// there. An error is the first fault of the least line that has one, as of `assemble`, or want of memory.
pub fn source_symbols(alloc: Global, source: &[u8]) -> Result<Symbols, AsmFault>
    // The symbols are the source's labels.
    ensures found { IfOk result (λ s. AreLabelsOf source.now s) }
    // What is refused is refused with that fault.
    ensures fault { IfErr result (λ f. Refuses f source.now) }
    // A text that is refused with a fault is refused, unless memory runs out.
    ensures rest { (e : ErrorData) → IsRefused source.now e → Gives (λ x. x) result (Err e) }
{
    match assemble(alloc, source) {
        Ok(_) => Ok(labels_in_order(alloc, source)?),
        Err(fault) => Err(fault),
    }
}
