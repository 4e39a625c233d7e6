ghost use Rattle.std.specs.Prelude.{◌≡◌};

use space_tree::Space;
use std::marker::Model;

/// The tree that a board began with, which nothing changes. Contracts see the tree.
#[derive(Drop)]
pub(crate) struct Boot {
    space: Space,
}

impl Model for Boot {
    ghost use Rattle.space_model.specs.Space.{Space as Tree};
    ghost use Rattle.space_model.specs.Encoding.{coded_space};

    ghost Value = { Tree };

    ghost coded = { coded_space };

    ghost view = { λ b. b.space };
}

impl Boot {
    pub(crate) fn of(space: Space) -> Boot
        ensures { result ≡ space }
    {
        Boot { space }
    }

    pub(crate) fn into_space(self) -> Space
        ensures { result ≡ self }
    {
        self.space
    }
}
