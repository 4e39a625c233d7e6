ghost use Rattle.std.specs.Prelude.{◌<◌, ◌^◌, Some, None};

use det_host::{
    FileLoader, FileReader, Gate, GateEvent, LoadError, Loader, MemLoader, MemSink, OpenGate, Sink,
    SinkError, StdSink, SureSink, write_all,
};
use std::alloc::{AllocError, Global};
use std::io::{Read, Write};
use std::process::Abort;
use std::test::*;
use std::{fs, io};

// Asserts that bytes are the ones that are wanted.
fn assert_bytes(rt: &impl Abort, got: &[u8], want: &[u8]) {
    assert_eq!(rt; got, want);
}

/// A writer that takes two bytes a call, and would block at its third call.
#[derive(Drop)]
struct Narrow {
    taken: Vec<u8>,
    calls: u32,
}

impl Write for Narrow {
    fn write(&mut self, piece: &[u8]) -> io::Result<usize> {
        self.calls = self.calls.saturating_add(1);
        if self.calls == 3 {
            return Err(io::ErrorKind::WouldBlock.into());
        }
        let count = piece.len().min(2);
        match self.taken.extend_from_slice(&piece[..count]) {
            Ok(()) => Ok(count),
            Err(_) => Err(io::ErrorKind::OutOfMemory.into()),
        }
    }

    fn flush(&mut self) -> io::Result<()> {
        Ok(())
    }
}

/// A writer that is interrupted at its first call, and takes all of each later one.
#[derive(Drop)]
struct Interrupted {
    taken: Vec<u8>,
    was: bool,
}

impl Write for Interrupted {
    fn write(&mut self, piece: &[u8]) -> io::Result<usize> {
        if !self.was {
            self.was = true;
            return Err(io::ErrorKind::Interrupted.into());
        }
        match self.taken.extend_from_slice(piece) {
            Ok(()) => Ok(piece.len()),
            Err(_) => Err(io::ErrorKind::OutOfMemory.into()),
        }
    }

    fn flush(&mut self) -> io::Result<()> {
        Ok(())
    }
}

/// More bytes than one turn reads.
static LONG: [u8; 9000] = [7; 9000];

/// Some files with known bytes. It counts how many files were opened, and the bytes that were read since. In the middle of "torn" it would block; before the
/// first byte of "halting" it is interrupted once.
#[derive(Drop)]
struct Shelf {
    left: &'static [u8],
    opened: u64,
    read: usize,
    is_torn: bool,
    is_halting: bool,
}

fn bytes_of(name: &str) -> Option<&'static [u8]> {
    match name {
        "one" => Some(b"abc"),
        "two" => Some(b"defgh"),
        "none" => Some(b""),
        "long" | "torn" => Some(&LONG),
        "halting" => Some(b"abc"),
        _ => None,
    }
}

impl FileReader for Shelf {
    ghost held = { λ s name. None };

    ghost left = { λ s. Some s.left.now };

    fn open(&mut self, name: &str) -> io::Result<()> {
        let Some(bytes) = bytes_of(name) else {
            return Err(io::ErrorKind::NotFound.into());
        };
        self.left = bytes;
        self.opened = self.opened.saturating_add(1);
        self.read = 0;
        self.is_torn = name == "torn";
        self.is_halting = name == "halting";
        Ok(())
    }

    fn read(&mut self, buffer: &mut [u8]) -> io::Result<usize> {
        if self.is_torn && self.read > 0 {
            return Err(io::ErrorKind::WouldBlock.into());
        }
        if self.is_halting {
            self.is_halting = false;
            return Err(io::ErrorKind::Interrupted.into());
        }
        let count = self.left.read(buffer)?;
        self.read = self.read.saturating_add(count);
        Ok(count)
    }
}

fn file(alloc: Global, name: &str, bytes: &[u8]) -> Result<(String, Vec<u8>), AllocError> {
    let name = name.to_string(alloc)?;
    Ok((name, bytes.to_vec(alloc)?))
}

fn loader(alloc: Global, failing: &[u64]) -> Result<MemLoader, AllocError> {
    let mut files = Vec::new(alloc);
    files.push(file(alloc, "one", b"abc")?)?;
    files.push(file(alloc, "one", b"other")?)?;
    files.push(file(alloc, "none", b"")?)?;
    Ok(MemLoader::new(alloc, files, failing.to_vec(alloc)?))
}

fn assert_loaded(
    rt: &impl Abort,
    name: &str,
    got: &Result<Vec<u8>, LoadError>,
    want: Result<&[u8], LoadError>,
) {
    let got = match got {
        Ok(bytes) => Ok(bytes.as_slice()),
        Err(error) => Err(*error),
    };
    assert_eq!(rt; got, want, "{name}");
}

fn one_load<R: AllocGlobal + Abort>(
    rt: &R,
    files: &mut impl Loader,
    name: &str,
    room: u64,
    want: Result<&[u8], LoadError>,
)
    requires { room < 2 ^ 32 }
{
    let got = files.load(rt.alloc(), name, room);
    assert_loaded(rt, name, &got, want);
}

#[test]
fn files_in_memory(rt: HostRuntime) -> Result<(), Fail> {
    let mut files = loader(rt.alloc(), &[4])?;
    one_load(&rt, &mut files, "one", 3, Ok(b"abc"));
    one_load(
        &rt,
        &mut files,
        "one",
        2,
        Err(LoadError::TooLarge { read: 3 }),
    );
    one_load(&rt, &mut files, "none", 0, Ok(b""));
    one_load(&rt, &mut files, "one", 9, Err(LoadError::Failed));
    one_load(&rt, &mut files, "two", 9, Err(LoadError::Failed));
    one_load(&rt, &mut files, "one", 9, Ok(b"abc"));
    Ok(())
}

fn one_write(rt: &impl Abort, sink: &mut impl Sink, piece: &[u8], want: Result<usize, SinkError>) {
    assert_eq!(rt; sink.write(piece), want);
}

#[test]
fn sinks_in_memory(rt: HostRuntime) -> Result<(), Fail> {
    let mut sink = MemSink::new(rt.alloc(), 2, [2].to_vec(rt.alloc())?);
    one_write(&rt, &mut sink, b"abc", Ok(2));
    one_write(&rt, &mut sink, b"c", Err(SinkError::Failed));
    one_write(&rt, &mut sink, b"", Ok(0));
    one_write(&rt, &mut sink, b"c", Ok(1));
    assert_bytes(&rt, sink.taken(), b"abc");
    let mut full = MemSink::new(rt.alloc(), 0, Vec::new(rt.alloc()));
    assert_eq!(&rt; write_all(&mut full, b"abc"), Err(SinkError::Failed));
    Ok(())
}

#[test]
fn sure_sinks(rt: HostRuntime) {
    let mut sink = SureSink::new(rt.alloc());
    one_write(&rt, &mut sink, b"abc", Ok(3));
    assert_bytes(&rt, sink.taken(), b"abc");
}

// Loads a file with this room, and looks at how many bytes of the file that was opened last were read.
fn one_read<R: AllocGlobal + Abort>(
    rt: &R,
    files: &mut FileLoader<Shelf>,
    name: &str,
    room: u64,
    want: Result<&[u8], LoadError>,
    read: usize,
)
    requires { room < 2 ^ 32 }
{
    one_load(rt, files, name, room, want);
    assert_eq!(rt; files.files().read, read, "{name}, {room}");
}

#[test]
fn a_shelf_of_files(rt: HostRuntime) {
    let shelf = Shelf {
        left: b"",
        opened: 0,
        read: 0,
        is_torn: false,
        is_halting: false,
    };
    let mut files = FileLoader::over(rt.alloc(), shelf);
    let large = |read| Err(LoadError::TooLarge { read });
    one_read(&rt, &mut files, "one", 3, Ok(b"abc"), 3);
    one_read(&rt, &mut files, "two", 4_294_967_295, Ok(b"defgh"), 5);
    one_read(&rt, &mut files, "two", 4, large(5), 5);
    one_read(&rt, &mut files, "one", 0, large(1), 1);
    one_read(&rt, &mut files, "none", 0, Ok(b""), 0);
    one_read(&rt, &mut files, "long", 9000, Ok(&LONG), 9000);
    one_read(&rt, &mut files, "long", 4096, large(4097), 4097);
    one_read(&rt, &mut files, "long", 8999, large(9000), 9000);
    one_read(&rt, &mut files, "halting", 3, Ok(b"abc"), 3);
    one_read(&rt, &mut files, "torn", 9000, Err(LoadError::Failed), 4096);
    one_read(&rt, &mut files, "three", 9, Err(LoadError::Failed), 4096);
    assert_eq!(&rt; files.files().opened, 10);
}

#[test]
fn a_real_file(rt: HostRuntime) -> Result<(), Fail> {
    let name = "det_host_test_file";
    let bytes = [7u8; 5000];
    fs::write(&rt, name, bytes.as_slice())?;
    let mut files = FileLoader::new(rt);
    let whole = files.load(rt.alloc(), name, 5000);
    let large = files.load(rt.alloc(), name, 4999);
    let missing = files.load(rt.alloc(), "det_host_no_such_file", 5000);
    fs::remove_file(&rt, name)?;
    assert_loaded(&rt, name, &whole, Ok(bytes.as_slice()));
    assert_loaded(
        &rt,
        "one byte less",
        &large,
        Err(LoadError::TooLarge { read: 5000 }),
    );
    assert_loaded(&rt, "missing", &missing, Err(LoadError::Failed));
    Ok(())
}

// Writes a piece through a sink of its own, and looks at all that the writer has taken by then.
fn narrow_write(
    rt: &impl Abort,
    writer: &mut Narrow,
    piece: &[u8],
    want: Result<usize, SinkError>,
    taken: &[u8],
) {
    one_write(rt, &mut StdSink::new(&mut *writer), piece, want);
    assert_bytes(rt, &writer.taken, taken);
}

#[test]
fn a_narrow_writer(rt: HostRuntime) {
    let mut writer = Narrow {
        taken: Vec::new(rt.alloc()),
        calls: 0,
    };
    narrow_write(&rt, &mut writer, b"abcdef", Ok(4), b"abcd");
    narrow_write(&rt, &mut writer, b"efghi", Ok(5), b"abcdefghi");
    narrow_write(&rt, &mut writer, b"", Ok(0), b"abcdefghi");
}

#[test]
fn a_writer_that_fails_at_once(rt: HostRuntime) {
    let mut writer = Narrow {
        taken: Vec::new(rt.alloc()),
        calls: 2,
    };
    let failed = Err(SinkError::Failed);
    narrow_write(&rt, &mut writer, b"abc", failed, b"");
    narrow_write(&rt, &mut writer, b"abc", Ok(3), b"abc");
}

#[test]
fn a_writer_that_is_interrupted(rt: HostRuntime) {
    let mut writer = Interrupted {
        taken: Vec::new(rt.alloc()),
        was: false,
    };
    let wrote = StdSink::new(&mut writer).write(b"abc");
    assert_eq!(rt; wrote, Ok(3));
    assert_bytes(&rt, &writer.taken, b"abc");
}

#[test]
fn an_open_gate(_rt: HostRuntime) {
    OpenGate.pass(0, GateEvent::Took);
}
