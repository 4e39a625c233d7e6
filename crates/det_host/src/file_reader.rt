ghost use Rattle.std.specs.Prelude.{◌≡◌, List, ℕ, Option, OnOk, OnErr};
ghost use Rattle.std.specs.Io.{ReadsAtMost};
ghost use Rattle.std.specs.Io.KnownBytes.{Keeps, ReadConsumes};
ghost use Rattle.det_host.specs.FileReading.{Opens};

use std::io;

/// Opens files by their names, and reads the one that was opened last.
pub trait FileReader {
    /// The bytes that stand under a name, where they are told.
    ghost held: { Self → List ℕ → Option (List ℕ) };

    /// The bytes of the open file that were not read yet, where they are told.
    ghost left: { Self → Option (List ℕ) };

    /// Opens the file of a name. At an error the file that was open is open still.
    fn open(&mut self, name: &str) -> io::Result<()>
        ensures opened { OnOk result (Opens (held self.old name.now) (left self.new)) }
        ensures kept { OnErr result (Keeps (left self.old) (left self.new)) }
        ensures held { (other : List ℕ) → held self.new other ≡ held self.old other };

    /// Reads some next bytes of the open file to the front of the buffer, and says how many: none only at the file's end or into
    /// an empty buffer.
    fn read(&mut self, buffer: &mut [u8]) -> io::Result<usize>
        ensures bound { ReadsAtMost result buffer.new }
        ensures bytes { ReadConsumes (left self.old) (left self.new) result buffer.new }
        ensures held { (other : List ℕ) → held self.new other ≡ held self.old other };
}
