ghost use Rattle.std.specs.Prelude.{◌≡◌};
ghost use Rattle.space_model.specs.Space.{Space, space, none, top_of};

use crate::children::Children;
use crate::top::Top;
use std::alloc::Global;
use std::marker::Model;

/// A space: its state, and its children by their numbers (OSDI 2010, "Efficient System-Enforced Deterministic Parallelism",
/// the section on the kernel interface: a tree of spaces).
#[cycle(space)]
#[derive(Drop)]
pub struct Space {
    pub top: Top,
    pub children: Children,
}

impl Model for Space {
    ghost use Rattle.space_model.specs.Space.{Space, space};
    ghost use Rattle.space_model.specs.Encoding.{coded_space};
    ghost use Rattle.space_tree.specs.Kept.{space_size, children_smaller};
    ghost use Rattle.std.proofs.Common.{arith};

    ghost Value = { Space };

    ghost coded = { coded_space };

    ghost view = { λ s. space s.top s.children };

    ghost size = { space_size };

    ghost size_decreases = { λ s h. Prim.omega (arith, children_smaller s.top s.children) };
}

impl Space {
    /// A space without children.
    pub fn alone(alloc: Global, top: Top) -> Space
        ensures { result ≡ space top none }
    {
        Space {
            top,
            children: Children::new(alloc),
        }
    }

    /// Its state, without its children.
    pub fn top(&self) -> &Top
        ensures { result.now ≡ top_of self.now }
    {
        &self.top
    }
}
