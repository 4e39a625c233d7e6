ghost use Rattle.std.specs.Prelude.{◌≡◌, IsTrue, IsFalse};
ghost use Rattle.space_mem.specs.Tables.{IsTable, memory_of};

use crate::memory::Mem;
use crate::table::PageTable;

impl PageTable {
    // Whether two tables have the same permissions and bytes of pages.
    pub fn same(&self, other: &PageTable) -> bool
        requires table { IsTable self.now }
        requires other { IsTable other.now }
        ensures same { IsTrue result → memory_of self.now.pages ≡ memory_of other.now.pages }
        ensures differs { IsFalse result → memory_of self.now.pages ≡ memory_of other.now.pages → ⊥ }
    {
        self.pages.same(&other.pages)
    }
}

impl Mem {
    /// Whether two memories have the same bytes and permissions, whichever of their pages are owned or dirty. It takes no memory; a part that
    /// is wholly of one permission is one step, and pages are looked at only where one of the two keeps them.
    pub fn same(&self, other: &Mem) -> bool
        ensures same { IsTrue result → self.now.memory ≡ other.now.memory }
        ensures differs { IsFalse result → self.now.memory ≡ other.now.memory → ⊥ }
    {
        self.table.same(&other.table)
    }
}
