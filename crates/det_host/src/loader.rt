ghost use Rattle.std.specs.Prelude.{◌≡◌, ◌≤◌, ◌<◌, ◌^◌, List, ℕ, Option, IsErrOf};
ghost use Rattle.det_host.specs.Outside.{Request, Rose, Loads, Asks, IsQuiet};

use std::alloc::Global;

/// Why a file was not loaded.
#[derive(Clone, Copy, Debug, PartialEq, Eq)]
pub enum LoadError {
    /// It could not be opened or read; the loader has counted a fault.
    Failed,
    /// It has more bytes than there is room for; `read` is one more than the room.
    TooLarge { read: u64 },
    /// Memory ran out.
    Memory,
}

/// Where files come from.
pub trait Loader {
    /// The bytes of a name, where the loader tells them.
    ghost told: { Self → List ℕ → Option (List ℕ) };

    /// The files that were asked for, each by its name and the room that was given, the first one first.
    ghost asked: { Self → List Request };

    /// How often it has failed. A count that stands at 2^64 - 1 stays there.
    ghost faults: { Self → ℕ };

    /// All bytes of the file of a name, where it has at most `room`, which is below 2^32.
    fn load(&mut self, alloc: Global, name: &str, room: u64) -> Result<Vec<u8>, LoadError>
        requires { room < 2 ^ 32 }
        ensures loads { Loads (λ v. v.items) (told self.old name.now) room result }
        ensures failed { IsErrOf result LoadError.Failed → Rose (faults self.old) (faults self.new) }
        ensures quiet { IsQuiet (faults self.old) (faults self.new) result }
        ensures later { faults self.old ≤ faults self.new }
        ensures told { (other : List ℕ) → told self.new other ≡ told self.old other }
        ensures asked { Asks (asked self.old) (asked self.new) (record { name = name.now; room = room }) result };
}
