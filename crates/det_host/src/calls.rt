ghost use Rattle.std.specs.Prelude.{◌≡◌, ◌≤◌};
ghost use Rattle.det_host.specs.Held.{is_failing, after_call, with_fault};

use std::marker::Model;

/// Which calls of a thing in memory fail, and how many there were.
#[derive(Drop)]
pub(crate) struct Calls {
    failing: Vec<u64>,
    done: u64,
    faults: u64,
}

impl Model for Calls {
    ghost use Rattle.det_host.specs.Held.{Calls, coded_calls};

    ghost Value = { Calls };

    ghost coded = { coded_calls };

    ghost view = { λ c. record { failing = c.failing.items; done = c.done; faults = c.faults } };
}

impl Calls {
    ghost use Rattle.det_host.specs.Held.{no_calls, FailsAt};

    /// No calls yet. Those of these numbers, from 1, fail.
    pub(crate) fn new(failing: Vec<u64>) -> Calls
        ensures none { result ≡ no_calls failing.items }
        ensures numbered { FailsAt failing.items result }
    {
        Calls {
            failing,
            done: 0,
            faults: 0,
        }
    }

    /// Counts a call, and says whether it fails.
    pub(crate) fn next_fails(&mut self) -> bool
        ensures fails { result ≡ is_failing self.old }
        ensures counted { self.new ≡ after_call self.old }
    {
        self.done = self.done.saturating_add(1);
        self.failing.contains(&self.done)
    }

    /// Counts a fault.
    pub(crate) fn add_fault(&mut self)
        ensures counted { self.new ≡ with_fault self.old }
        ensures later { self.old.faults ≤ self.new.faults }
    {
        self.faults = self.faults.saturating_add(1);
    }
}
