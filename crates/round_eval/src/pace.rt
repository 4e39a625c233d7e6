ghost use Rattle.std.specs.Prelude.{◌≤◌};

use std::alloc::{AllocError, Global};
use std::sync::Arc;
use std::sync::atomic::{AtomicBool, Ordering};

// In how many parts a quantum is cut for those who go on beside a root that has one.
const PARTS: u32 = 8;

/// What the threads of a round share: for how many events a space goes on before its thread looks whether all are asked to end, and whether they are.
/// No clause speaks of the latter: whoever looks may end or go on.
#[derive(Drop)]
pub(crate) struct Pace {
    /// For how many events each goes on at first.
    pub(crate) quantum: u32,
    pub(crate) ghost some: { 1 ≤ quantum },
    /// And for how many between two looks behind that.
    pub(crate) further: u32,
    pub(crate) ghost some_further: { 1 ≤ further },
    asked: Arc<AtomicBool, Global>,
}

impl Pace {
    /// Nobody is asked to end. The one error is want of memory.
    pub(crate) fn new(alloc: Global, quantum: u32) -> Result<Pace, AllocError>
        requires { 1 ≤ quantum }
    {
        let asked = Arc::new(alloc, AtomicBool::new(false))?;
        Ok(Pace {
            quantum,
            further: quantum,
            asked,
        })
    }

    /// The same for one more thread.
    pub(crate) fn share(&self) -> Result<Pace, AllocError> {
        let asked = Arc::try_clone(&self.asked)?;
        Ok(Pace {
            quantum: self.quantum,
            further: self.further,
            asked,
        })
    }

    /// All are asked to end.
    pub(crate) fn ask_to_end(&self) {
        self.asked.store(true, Ordering::SeqCst);
    }

    /// Whether they are.
    pub(crate) fn is_to_end(&self) -> bool {
        self.asked.load(Ordering::SeqCst)
    }

    /// A root goes on beside for a quantum: none is to go on much longer than it.
    pub(crate) fn keep_step(&mut self) {
        self.further = (self.quantum / PARTS).max(1);
    }

    /// Nobody is asked any longer. No thread goes on meanwhile.
    pub(crate) fn begin(&mut self) {
        self.further = self.quantum;
        self.asked.store(false, Ordering::SeqCst);
    }
}
