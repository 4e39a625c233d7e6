ghost use Rattle.std.specs.Prelude.{IfOk};
ghost use Rattle.det_cli.specs.Commands.{image_of_file, refusal_of};
ghost use Rattle.std.proofs.Common.{lit<};
ghost use Rattle.det_cli.specs.Stages.{GivesRefusal};
ghost use Rattle.explain_cli.specs.Answers.{refusal_of_names};
ghost use Rattle.explain_cli.specs.Stages.{AreOwn, ReadsNamed};
ghost use Rattle.image_symbols.specs.Files.{AreSymbolsOf};

use det_cli::{End, FileFormat};
use elf_image::begins_as_elf;
use image_file::Image;
use image_symbols::{elf_symbols, file_symbols};
use rv_asm::AsmFault;
use std::alloc::{AllocError, Global};
use symbols::Symbols;

/// What gives names to addresses: the symbols of an executable file, or the labels of a source.
#[derive(Drop)]
pub(crate) struct Names {
    pub(crate) symbols: Symbols,
}

// The symbols of a file, or the end that the first fault of a source is to `det asm`.
fn read_names(alloc: Global, bytes: &[u8]) -> Result<Names, End>
    ensures ok { IfOk result (λ names. AreSymbolsOf bytes.now names.symbols) }
    ensures judged { GivesRefusal (refusal_of_names bytes.now) result }
{
    match file_symbols(alloc, bytes) {
        Ok(symbols) => Ok(Names { symbols }),
        Err(AsmFault::Bad(e)) => Err(End::BadSource(e)),
        Err(AsmFault::Memory) => Err(End::NoMemory),
    }
}

// There is room for a file that is an image.
impl FileFormat for Names {
    const ROOM: u64 = 16_777_216;

    ghost ROOM = { 16777216 };

    ghost reads = { λ bytes names. AreSymbolsOf bytes names.symbols };

    ghost refusal = { λ bytes. refusal_of_names bytes };

    ghost small = { lit< tt };

    fn read(alloc: Global, bytes: &[u8]) -> Result<Names, End> {
        read_names(alloc, bytes)
    }
}

/// An image, and what gives names to its addresses of itself: the symbols of an executable file.
#[derive(Drop)]
pub(crate) struct NamedImage {
    pub(crate) image: Image,
    pub(crate) names: Option<Names>,
}

// The symbols of an image that is an executable file.
fn own_names(alloc: Global, bytes: &[u8]) -> Result<Option<Names>, AllocError>
    ensures { IfOk result (λ o. AreOwn bytes.now o) }
{
    if begins_as_elf(bytes) {
        let symbols = elf_symbols(alloc, bytes)?;
        return Ok(Some(Names { symbols }));
    }
    Ok(None)
}

// An image with its own names, or the end that its first fault is to `det run`.
fn read_named(alloc: Global, bytes: &[u8]) -> Result<NamedImage, End>
    ensures ok { IfOk result (λ n. ReadsNamed bytes.now n) }
    ensures judged { GivesRefusal (refusal_of (image_of_file bytes.now)) result }
{
    let image = <Image as FileFormat>::read(alloc, bytes)?;
    match own_names(alloc, bytes) {
        Ok(names) => Ok(NamedImage { image, names }),
        Err(_) => Err(End::NoMemory),
    }
}

impl FileFormat for NamedImage {
    const ROOM: u64 = 16_777_216;

    ghost ROOM = { 16777216 };

    ghost reads = { ReadsNamed };

    ghost refusal = { λ bytes. refusal_of (image_of_file bytes) };

    ghost small = { lit< tt };

    fn read(alloc: Global, bytes: &[u8]) -> Result<NamedImage, End> {
        read_named(alloc, bytes)
    }
}
