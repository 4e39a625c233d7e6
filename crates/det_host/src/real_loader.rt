ghost use Rattle.std.specs.Prelude.{◌≡◌, ◌≢◌, ◌≤◌, ◌<◌, ◌^◌, ◌+◌, List, [], ℕ, length, IfOk, IfErr, IsErrOf, Ok};
ghost use Rattle.std.specs.Io.{ReadsAtMost};
ghost use Rattle.std.specs.Io.KnownBytes.{IsAtEnd, ReadConsumes};
ghost use Rattle.std.specs.IoError.{error_kind};
ghost use Rattle.det_host.specs.Outside.{Rose, Loads, Asks, IsQuiet};
ghost use Rattle.det_host.specs.FileReading.{Gains, LosesAtMost, ReadsWithin};

use crate::request::{Request, ask};
use crate::{FileReader, LoadError, Loader, SystemFiles};
use std::alloc::Global;
use std::io;
use std::io::ErrorKind;

/// Loads files by their names through a reader of files, by default that of the operating system. It tells what its reader tells.
#[derive(Drop)]
pub struct FileLoader<F: FileReader + Drop = SystemFiles> {
    files: F,
    asked: Vec<Request>,
    faults: u64,
}

impl FileLoader<SystemFiles> {
    /// A loader of files by their paths that has loaded nothing yet.
    pub fn new(rt: HostRuntime) -> FileLoader<SystemFiles> {
        let alloc = rt.alloc();
        FileLoader::over(alloc, SystemFiles::new(rt))
    }
}

impl<F: FileReader + Drop> FileLoader<F> {
    /// A loader over a reader of files that has loaded nothing yet.
    pub fn over(alloc: Global, files: F) -> FileLoader<F>
        ensures files { result.files ≡ files }
        ensures none { result.asked.items ≡ [] }
        ensures no_fault { result.faults ≡ 0 }
    {
        FileLoader {
            files,
            asked: Vec::new(alloc),
            faults: 0,
        }
    }

    /// The reader of files, after all that was loaded.
    pub fn files(&self) -> &F
        ensures { result.now ≡ self.now.files }
    {
        &self.files
    }
}

// The most bytes that one turn reads.
const PIECE: usize = 4096;

// Reads some next bytes to the front of a buffer, and tries again where it was interrupted before it had any.
#[tactic(auto, using(crate::proofs::Sending::kept_same, crate::proofs::Sending::kept_still, crate::proofs::Reading::read_then))]
fn read_some<F: FileReader>(files: &mut F, buffer: &mut [u8]) -> io::Result<usize>
    ensures bound { ReadsAtMost result buffer.new }
    ensures long { length buffer.new ≡ length buffer.old }
    ensures bytes { ReadConsumes (F.left files.old) (F.left files.new) result buffer.new }
    ensures held { (other : List ℕ) → F.held files.new other ≡ F.held files.old other }
    ensures retried { IfErr result (λ e. error_kind e ≢ ErrorKind.Interrupted) }
{
    for _ in 0..u64::MAX {
        match files.read(buffer) {
            Ok(count) => return Ok(count),
            Err(error) => {
                if error.kind() != ErrorKind::Interrupted {
                    return Err(error);
                }
            }
        }
    }
    Err(io::Error::from(ErrorKind::TimedOut))
}

// Reads at least one byte and at most so many, and puts them behind the others; none at the file's end.
fn read_piece<F: FileReader>(
    files: &mut F,
    wanted: usize,
    bytes: &mut Vec<u8>,
) -> Result<usize, LoadError>
    requires { (1 ≤ wanted) × (wanted ≤ 4096) }
    ensures ok { IfOk result (λ n. Gains (F.left files.old) (F.left files.new) bytes.old.items bytes.new.items n) }
    ensures most { IfOk result (λ n. n ≤ wanted) }
    ensures end { result ≡ Ok 0 → IsAtEnd (F.left files.new) }
    ensures loses { LosesAtMost wanted (F.left files.old) (F.left files.new) }
    ensures not_large { (read : ℕ) → IsErrOf result (LoadError.TooLarge read) → ⊥ }
    ensures held { (other : List ℕ) → F.held files.new other ≡ F.held files.old other }
{
    let mut buffer = [0u8; PIECE];
    match read_some(files, &mut buffer[..wanted]) {
        Ok(count) => match bytes.extend_from_slice(&buffer[..count]) {
            Ok(()) => Ok(count),
            Err(_) => Err(LoadError::Memory),
        },
        Err(_) => Err(LoadError::Failed),
    }
}

// All that is left of the open file, where it is at most room. It reads at most room + 1 bytes, and at least one a turn.
#[tactic(auto, using(crate::proofs::Reading::consumed_beyond, crate::proofs::Reading::stopped))]
fn read_all<F: FileReader>(alloc: Global, files: &mut F, room: u64) -> Result<Vec<u8>, LoadError>
    requires { room < 2 ^ 32 }
    ensures loads { Loads (λ v. v.items) (F.left files.old) room result }
    ensures loses { LosesAtMost (room + 1) (F.left files.old) (F.left files.new) }
    ensures held { (other : List ℕ) → F.held files.new other ≡ F.held files.old other }
{
    let mut bytes = Vec::new(alloc);
    'turns: while bytes.len() as u64 <= room {
        let wanted = (room + 1 - bytes.len() as u64).min(PIECE as u64) as usize;
        match read_piece(files, wanted, &mut bytes) {
            Ok(0) => return Ok(bytes),
            Ok(_) => {}
            Err(stop) => return Err(stop),
        }
    }
    Err(LoadError::TooLarge { read: room + 1 })
}

// All bytes of the file of a name, where it has at most room.
#[tactic(auto, using(crate::proofs::Reading::loads_opened, crate::proofs::Reading::reads_opened))]
fn read_file<F: FileReader>(
    alloc: Global,
    files: &mut F,
    name: &str,
    room: u64,
) -> Result<Vec<u8>, LoadError>
    requires { room < 2 ^ 32 }
    ensures loads { Loads (λ v. v.items) (F.held files.old name.now) room result }
    ensures reads { ReadsWithin (room + 1) (F.held files.old name.now) (F.left files.old) (F.left files.new) result }
    ensures held { (other : List ℕ) → F.held files.new other ≡ F.held files.old other }
{
    match files.open(name) {
        Ok(()) => read_all(alloc, files, room),
        Err(_) => Err(LoadError::Failed),
    }
}

impl<F: FileReader + Drop> Loader for FileLoader<F> {
    ghost told = { λ s name. F.held s.files name };

    ghost asked = { λ s. s.asked.items };

    ghost faults = { λ s. s.faults };

    /// Reads at most one byte more of the file than there is room for.
    #[tactic(auto, using(crate::proofs::Reading::asks_made, crate::proofs::Reading::nothing_read))]
    fn load(&mut self, alloc: Global, name: &str, room: u64) -> Result<Vec<u8>, LoadError>
        requires { room < 2 ^ 32 }
        ensures loads { Loads (λ v. v.items) (F.held self.old.files name.now) room result }
        ensures failed { IsErrOf result LoadError.Failed → Rose self.old.faults self.new.faults }
        ensures quiet { IsQuiet self.old.faults self.new.faults result }
        ensures later { self.old.faults ≤ self.new.faults }
        ensures told { (other : List ℕ) → F.held self.new.files other ≡ F.held self.old.files other }
        ensures asked { Asks self.old.asked.items self.new.asked.items (record { name = name.now; room = room }) result }
        ensures reads { ReadsWithin (room + 1) (F.held self.old.files name.now) (F.left self.old.files) (F.left self.new.files) result }
    {
        if ask(alloc, &mut self.asked, name, room).is_err() {
            return Err(LoadError::Memory);
        }
        let answer = read_file(alloc, &mut self.files, name, room);
        if let Err(LoadError::Failed) = answer {
            self.faults = self.faults.saturating_add(1);
        }
        answer
    }
}
