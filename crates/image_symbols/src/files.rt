ghost use Rattle.std.specs.Prelude.{◌≡◌, Err, IfErr, IfOk};
ghost use Rattle.fault_model.specs.Gives.{Gives};
ghost use Rattle.source_model.specs.declared.error.AsmError.{AsmError as ErrorData};
ghost use Rattle.image_symbols.specs.Files.{AreSymbolsOf, HasFault, Tells};

use crate::entries::elf_symbols;
use crate::labels::source_symbols;
use elf_image::begins_as_elf;
use rv_asm::AsmFault;
use std::alloc::Global;
use symbols::Symbols;

/// The symbols of a file: of one that begins as executable files do those of `elf_symbols`, of any other, which is read as a source, those of `source_symbols`. An error is
/// the fault of a source, or want of memory.
pub fn file_symbols(alloc: Global, file: &[u8]) -> Result<Symbols, AsmFault>
    // The symbols are the file's.
    ensures found { IfOk result (λ s. AreSymbolsOf file.now s) }
    // What is refused is a source with that fault.
    ensures fault { IfErr result (λ f. Tells f file.now) }
    // A source with a fault is refused with it, unless memory runs out.
    ensures rest { (e : ErrorData) → HasFault file.now e → Gives (λ x. x) result (Err e) }
{
    if begins_as_elf(file) {
        Ok(elf_symbols(alloc, file)?)
    } else {
        source_symbols(alloc, file)
    }
}
