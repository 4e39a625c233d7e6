ghost use Rattle.std.specs.Prelude.{◌≡◌, ℕ, ◌+◌, ◌*◌, ◌^◌, ◌<◌, ◌≤◌};
ghost use Rattle.memory_model.specs.Memory as memory;

use crate::memory::Mem;
use memory_model::PAGE_SIZE;
use page_store::{may_read, may_write};

impl Mem {
    /// The least of `count` addresses from `at` on that may not be read; they end within the memory.
    pub fn first_unreadable(&self, at: u32, count: u32) -> Option<u32>
        requires { at + count ≤ 2 ^ 32 }
        ensures { result ≡ memory.first_without (memory.may_read self.now.memory) at count }
    {
        let mut done: u32 = 0;
        while done < count {
            let from = at + done;
            if !may_read(self.perm(from / PAGE_SIZE)) {
                return Some(from);
            }
            done += (PAGE_SIZE - from % PAGE_SIZE).min(count - done);
        }
        None
    }

    /// The least of `count` addresses from `at` on that may not be written; they end within the memory.
    pub fn first_unwritable(&self, at: u32, count: u32) -> Option<u32>
        requires { at + count ≤ 2 ^ 32 }
        ensures { result ≡ memory.first_without (memory.may_write self.now.memory) at count }
    {
        let mut done: u32 = 0;
        while done < count {
            let from = at + done;
            if !may_write(self.perm(from / PAGE_SIZE)) {
                return Some(from);
            }
            done += (PAGE_SIZE - from % PAGE_SIZE).min(count - done);
        }
        None
    }
}
