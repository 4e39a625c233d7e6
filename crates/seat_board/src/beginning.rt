ghost use Rattle.std.specs.Prelude.{◌≡◌};

use space_tree::Space;

/// How a board of seats began, as its first seat is told: its tree, and how many nodes there were.
#[derive(Drop)]
pub struct Beginning {
    pub(crate) boot: Space,
    pub(crate) nodes: u32,
}

impl Beginning {
    pub(crate) fn of(boot: Space, nodes: u32) -> Beginning
        ensures { (result.boot ≡ boot) × (result.nodes ≡ nodes) }
    {
        Beginning { boot, nodes }
    }

    /// It is told, and of no use any more.
    pub(crate) fn forget(self) {
        let Beginning { boot: _, nodes: _ } = self;
    }
}
