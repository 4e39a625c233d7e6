ghost use Rattle.std.specs.Prelude.{◌≡◌, ◌≤◌, ◌<◌, ◌^◌, List, [], ℕ, Option, Some, None, map, IfOk, IfErr, IfSome, IsNone, IsErrOf, ◌⊎◌, Ok, Err, IsTrue, false};
ghost use Rattle.det_host.specs.Held.{file_bytes, named_file, answer, in_room, no_calls, after_load, FailsAt};
ghost use Rattle.det_host.specs.Outside.{Rose, Loads, Asks, IsQuiet};
ghost use Rattle.det_host.specs.declared.loader.LoadError.{LoadError};

use crate::calls::Calls;
use crate::request::{Request, ask};
use crate::{LoadError, Loader};
use std::alloc::Global;
use std::marker::Model;

/// A loader that holds its files. A name that it does not hold cannot be loaded.
#[derive(Drop)]
pub struct MemLoader {
    files: Vec<(String, Vec<u8>)>,
    asked: Vec<Request>,
    calls: Calls,
}

impl Model for MemLoader {
    ghost use Rattle.std.specs.Prelude.{map};
    ghost use Rattle.det_host.specs.Held.{Files, coded_files, named_file};

    ghost Value = { Files };

    ghost coded = { coded_files };

    ghost view = { λ l. record { files = map named_file l.files.items; asked = l.asked.items; calls = l.calls } };
}

impl MemLoader {
    /// A loader of these files, which fails at the calls of these numbers, from 1. Of files of one name the first is loaded.
    pub fn new(alloc: Global, files: Vec<(String, Vec<u8>)>, failing: Vec<u64>) -> MemLoader
        ensures holds { result ≡ record { files = map named_file files.items; asked = []; calls = no_calls failing.items } }
        ensures numbered { FailsAt failing.items result.calls }
    {
        MemLoader {
            files,
            asked: Vec::new(alloc),
            calls: Calls::new(failing),
        }
    }

    // What a call that fails or not answers.
    fn answer(
        &self,
        fails: bool,
        alloc: Global,
        name: &str,
        room: u64,
    ) -> Result<Vec<u8>, LoadError>
        requires { room < 2 ^ 32 }
        ensures failing { IsTrue fails → result ≡ Err LoadError.Failed }
        ensures ok { fails ≡ false → IfOk result (λ v. in_room room (file_bytes self.now.files name.now) ≡ Ok v.items) }
        ensures err { fails ≡ false → IfErr result (λ e. (e ≡ LoadError.Memory) ⊎ (in_room room (file_bytes self.now.files name.now) ≡ Err e)) }
    {
        if fails {
            return Err(LoadError::Failed);
        }
        match find(&self.files, name) {
            Some(bytes) => copy_in_room(bytes, alloc, room),
            None => Err(LoadError::Failed),
        }
    }
}

// The bytes of the first file of a name.
fn find<'a>(files: &'a [(String, Vec<u8>)], name: &str) -> Option<&'a Vec<u8>>
    ensures none { IsNone result → file_bytes (map named_file files.now) name.now ≡ None }
    ensures some { IfSome result (λ v. file_bytes (map named_file files.now) name.now ≡ Some v.now.items) }
{
    for file in files {
        if file.0.as_str() == name {
            return Some(&file.1);
        }
    }
    None
}

// A copy of a file's bytes, where there is room.
fn copy_in_room(bytes: &[u8], alloc: Global, room: u64) -> Result<Vec<u8>, LoadError>
    requires { room < 2 ^ 32 }
    ensures ok { IfOk result (λ v. in_room room (Some bytes.now) ≡ Ok v.items) }
    ensures err { IfErr result (λ e. (e ≡ LoadError.Memory) ⊎ (in_room room (Some bytes.now) ≡ Err e)) }
    ensures not_failed { IsErrOf result LoadError.Failed → ⊥ }
{
    if bytes.len() as u64 > room {
        return Err(LoadError::TooLarge { read: room + 1 });
    }
    match Vec::from_slice(alloc, bytes) {
        Ok(copy) => Ok(copy),
        Err(_) => Err(LoadError::Memory),
    }
}

impl Loader for MemLoader {
    ghost told = { λ l name. file_bytes l.files name };

    ghost asked = { λ l. l.asked };

    ghost faults = { λ l. l.calls.faults };

    fn load(&mut self, alloc: Global, name: &str, room: u64) -> Result<Vec<u8>, LoadError>
        requires { room < 2 ^ 32 }
        ensures loads { Loads (λ v. v.items) (file_bytes self.old.files name.now) room result }
        ensures failed { IsErrOf result LoadError.Failed → Rose self.old.calls.faults self.new.calls.faults }
        ensures quiet { IsQuiet self.old.calls.faults self.new.calls.faults result }
        ensures later { self.old.calls.faults ≤ self.new.calls.faults }
        ensures told { (other : List ℕ) → file_bytes self.new.files other ≡ file_bytes self.old.files other }
        ensures asked { Asks self.old.asked self.new.asked (record { name = name.now; room = room }) result }
        ensures ok { IfOk result (λ v. answer self.old name.now room ≡ Ok v.items) }
        ensures err { IfErr result (λ e. (e ≡ LoadError.Memory) ⊎ (answer self.old name.now room ≡ Err e)) }
        ensures next { self.new ≡ after_load self.old (record { name = name.now; room = room }) result }
    {
        let fails = self.calls.next_fails();
        let answer = self.answer(fails, alloc, name, room);
        if let Err(LoadError::Memory) = answer {
            return Err(LoadError::Memory);
        }
        if ask(alloc, &mut self.asked, name, room).is_err() {
            return Err(LoadError::Memory);
        }
        if let Err(LoadError::Failed) = answer {
            self.calls.add_fault();
        }
        answer
    }
}
