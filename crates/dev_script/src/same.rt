ghost use Rattle.std.specs.Prelude.{◌≡◌, true, false};

use crate::devices::Devices;

impl Devices {
    /// Whether both have the same left to give, and the same on the console. It takes no memory.
    pub fn same(&self, other: &Devices) -> bool
        ensures same { result ≡ true → self.now ≡ other.now }
        ensures differs { result ≡ false → self.now ≡ other.now → ⊥ }
    {
        self.input.left() == other.input.left()
            && self.clocks.left() == other.clocks.left()
            && self.numbers.left() == other.numbers.left()
            && self.console.same(&other.console)
    }
}
