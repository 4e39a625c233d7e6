ghost use Rattle.std.specs.Prelude.{◌≡◌, ◌+◌, ◌≤◌};
ghost use Rattle.memory_model.specs.Sizes.{pages};

/// Pages in a row: `first` and `count` of them, up to the end of memory.
#[derive(Clone, Copy, Debug, PartialEq, Eq)]
pub struct Pages {
    pub first: u32,
    pub count: u32,
    pub ghost within: { first + count ≤ pages },
}
