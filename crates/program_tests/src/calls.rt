ghost use Rattle.std.specs.Prelude.{Some};

use det_cli::{End, Exit, det_program, status};
use det_host::{MemLoader, MemSink, OpenGate, Sink, SinkError};
use std::alloc::{AllocError, Global};
use std::process::Abort;
use std::sync::Wait;
use std::test::*;
use std::thread::Threads;

/// The image of `addi a7, zero, 3`, `addi a0, zero, 7`, `ecall`, of 35 bytes.
pub(crate) const RETURN_SEVEN: [u8; 35] = [
    0x44, 0x54, 0x49, 0x31, 0x00, 0x10, 0, 0, 0, 0, 0, 0, 1, 0, 0x00, 0x10, 0, 0, 1, 12, 0, 0, 0,
    0x93, 0x08, 0x30, 0x00, 0x13, 0x05, 0x70, 0x00, 0x73, 0x00, 0x00, 0x00,
];

/// Its source.
pub(crate) const SOURCE: &[u8] = b".segment 0x1000 1\naddi a7, zero, 3\naddi a0, zero, 7\necall\n";

/// Writes `AB`, which stands at 0x2000, to the console, and returns 0.
pub(crate) const WRITE_TWO: [u8; 58] = [
    0x44, 0x54, 0x49, 0x31, 0x00, 0x10, 0, 0, 0, 0, 0, 0, 2, 0, 0x00, 0x10, 0, 0, 1, 24, 0, 0, 0,
    0xb7, 0x25, 0x00, 0x00, 0x13, 0x06, 0x20, 0x00, 0x93, 0x08, 0x40, 0x00, 0x73, 0x00, 0x00, 0x00,
    0x93, 0x08, 0x30, 0x00, 0x73, 0x00, 0x00, 0x00, 0x00, 0x20, 0, 0, 1, 2, 0, 0, 0, 0x41, 0x42,
];

/// The report of that program.
pub(crate) const REPORT: &str = "/ ret 00000000 00001018 6\n";

/// The line that sums up the image of the number 0.
pub(crate) const SUMMARY: &[u8] = b"threads 1 spaces 2 used 25495 console 64 root ret 00000001\n";

/// A call of the program: its words, the bytes of its image or source, how many bytes the sinks take a call, and which calls of `out` and
/// of `err` fail. Then how it ends, and what `out` and `err` have taken. Its script and its schedule are empty.
#[derive(Clone, Copy)]
pub(crate) struct Row<'a> {
    pub(crate) words: &'a str,
    pub(crate) image: &'a [u8],
    pub(crate) most: usize,
    pub(crate) outs: &'a [u64],
    pub(crate) errs: &'a [u64],
    pub(crate) end: End,
    pub(crate) out: &'a [u8],
    pub(crate) err: &'a str,
}

/// A call in which no read or write fails.
pub(crate) fn plain<'a>(
    words: &'a str,
    image: &'a [u8],
    end: End,
    out: &'a [u8],
    err: &'a str,
) -> Row<'a> {
    Row {
        words,
        image,
        most: 65536,
        outs: &[],
        errs: &[],
        end,
        out,
        err,
    }
}

/// The words of a command line, which one blank parts.
pub(crate) fn words_of(alloc: Global, text: &str) -> Result<Vec<String>, AllocError> {
    let mut words = Vec::new(alloc);
    for word in text.split(' ') {
        words.push(word.to_string(alloc)?)?;
    }
    Ok(words)
}

fn file(alloc: Global, name: &str, bytes: &[u8]) -> Result<(String, Vec<u8>), AllocError> {
    let name = name.to_string(alloc)?;
    Ok((name, bytes.to_vec(alloc)?))
}

/// The files of a call, by the names `image`, `script` and `schedule`.
pub(crate) fn files_of(alloc: Global, row: &Row<'_>) -> Result<MemLoader, AllocError> {
    let mut held = Vec::new(alloc);
    held.push(file(alloc, "image", row.image)?)?;
    held.push(file(alloc, "script", b"")?)?;
    held.push(file(alloc, "schedule", b"")?)?;
    Ok(MemLoader::new(alloc, held, Vec::new(alloc)))
}

/// A sink in memory that counts the empty pieces that it gets.
#[derive(Drop)]
pub(crate) struct Watched {
    sink: MemSink,
    empty: u64,
}

impl Sink for Watched {
    ghost taken = { λ s. Some s.sink.taken };

    ghost faults = { λ s. s.sink.calls.faults };

    fn write(&mut self, piece: &[u8]) -> Result<usize, SinkError> {
        if piece.is_empty() {
            self.empty = self.empty.saturating_add(1);
        }
        self.sink.write(piece)
    }
}

/// A sink that takes at most that many bytes a call, and fails at the calls of these numbers.
pub(crate) fn sink(alloc: Global, most: usize, failing: &[u64]) -> Result<Watched, AllocError> {
    let sink = MemSink::new(alloc, most, failing.to_vec(alloc)?);
    Ok(Watched { sink, empty: 0 })
}

/// Asserts what both sinks have taken, and that neither got an empty piece.
pub(crate) fn assert_taken(rt: &impl Abort, row: &Row<'_>, out: &Watched, err: &Watched) {
    let words = row.words;
    let taken = [out.sink.taken(), err.sink.taken()];
    assert_eq!(rt; taken, [row.out, row.err.as_bytes()], "{words}");
    assert_eq!(rt; [out.empty, err.empty], [0, 0], "{words}");
}

fn assert_exit(rt: &impl Abort, row: &Row<'_>, exit: &Exit) {
    let words = row.words;
    assert_eq!(rt; exit.end, row.end, "{words}");
    assert_eq!(rt; exit.status, status(&row.end), "{words}");
}

fn call<R: AllocGlobal + Abort + Threads + Wait + Sync>(
    rt: &R,
    row: &Row<'_>,
) -> Result<(), AllocError> {
    let alloc = rt.alloc();
    let words = words_of(alloc, row.words)?;
    let mut files = files_of(alloc, row)?;
    let mut out = sink(alloc, row.most, row.outs)?;
    let mut err = sink(alloc, row.most, row.errs)?;
    let exit = det_program(rt, &words, &mut files, &mut out, &mut err, &OpenGate);
    assert_exit(rt, row, &exit);
    assert_taken(rt, row, &out, &err);
    Ok(())
}

/// Calls the program, and asserts what the row says.
pub(crate) fn check<R: AllocGlobal + Abort + Threads + Wait + Sync>(rt: &R, row: &Row<'_>) {
    assert!(rt; call(rt, row).is_ok());
}
