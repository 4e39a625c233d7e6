ghost use Rattle.std.specs.Prelude.{◌≡◌, IfOk};
ghost use Rattle.dev_script.specs.View.{no_devices};

use crate::console::Console;
use crate::feeds::{ByteFeed, NumberFeed};
use std::alloc::{AllocError, Global};
use std::marker::Model;

/// What only the root has: what its script gives it, as far as it has not been taken yet, and its console. Each has its
/// first one in front. Copies share what is given, and all but the last bytes of the console.
#[derive(Drop)]
pub struct Devices {
    /// The bytes of the console's input that are left.
    pub input: ByteFeed,
    /// The readings of the clock that are left.
    pub clocks: NumberFeed,
    /// The random numbers that are left.
    pub numbers: NumberFeed,
    /// The bytes that were written to the console.
    pub console: Console,
}

impl Model for Devices {
    ghost use Rattle.device_model.specs.Devices.{Devices, coded_devices};

    ghost Value = { Devices };

    ghost coded = { coded_devices };

    ghost view = { λ d. record {
      input = d.input;
      clocks = d.clocks;
      numbers = d.numbers;
      console = d.console;
    } };
}

impl Devices {
    /// Devices that have nothing left to give, and an empty console.
    pub fn new(alloc: Global) -> Devices
        ensures { result ≡ no_devices }
    {
        Devices {
            input: ByteFeed::none(),
            clocks: NumberFeed::none(),
            numbers: NumberFeed::none(),
            console: Console::new(alloc),
        }
    }

    /// Equal devices, which share what is given, and all but the last bytes of the console. The one error is want of memory.
    pub fn copy(&self) -> Result<Devices, AllocError>
        ensures { IfOk result (λ d. d ≡ self.now) }
    {
        Ok(Devices {
            input: self.input.copy()?,
            clocks: self.clocks.copy()?,
            numbers: self.numbers.copy()?,
            console: self.console.copy()?,
        })
    }
}
