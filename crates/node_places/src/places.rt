ghost use Rattle.std.specs.Prelude.{◌≡◌, ◌≤◌, ◌<◌, ℕ, List, IfSome};
ghost use Rattle.parcel_model.specs.Nodes.{node_of};
ghost use Rattle.node_places.specs.Places.{all_home, home as home_in, listed as listed_in, place_of};

use arrayvec::ArrayVec;
use std::alloc::Global;
use std::collections::BTreeMap;
use std::marker::Model;

/// On which node each space stands: at home, but for those that are listed. Contracts see the count of the nodes and the list.
#[derive(Drop)]
pub struct Places {
    pub(crate) nodes: u32,
    pub(crate) away: BTreeMap<ArrayVec<u16, 8>, u32>,
}

impl Model for Places {
    ghost use Rattle.node_places.specs.Places.{Places, coded_places, away_in, AreNodes};

    ghost Value = { Places };

    ghost coded = { coded_places };

    ghost view = { λ s. record { nodes = s.nodes; away = away_in s.away.entries } };

    ghost invariant = { λ s. AreNodes (record { nodes = s.nodes; away = away_in s.away.entries }) };
}

impl Places {
    /// So many nodes, at least 1, and each space at home.
    pub fn new(alloc: Global, nodes: u32) -> Places
        requires { 1 ≤ nodes }
        ensures { result ≡ all_home nodes }
    {
        Places {
            nodes,
            away: BTreeMap::new(alloc),
        }
    }

    /// How many nodes there are, at least 1.
    pub fn nodes(&self) -> u32
        ensures is { result ≡ self.now.nodes }
        ensures some { 1 ≤ result }
    {
        self.nodes
    }

    /// The home of a space of this number: what is left of the number's high byte, divided by the nodes.
    pub fn home_of(&self, number: u16) -> u32
        ensures is { result ≡ node_of number self.now.nodes }
        ensures below { result < self.now.nodes }
    {
        u32::from(number) / 256 % self.nodes
    }

    /// The home of the space at a path: that of its last number, and the first node for the root.
    pub fn home(&self, path: &ArrayVec<u16, 8>) -> u32
        ensures is { result ≡ home_in self.now.nodes path.now.items }
        ensures below { result < self.now.nodes }
    {
        match path.as_slice().last() {
            Some(number) => self.home_of(*number),
            None => {
                prove!(0 < self.nodes);
                0
            }
        }
    }

    /// The node that is listed for a path, if there is one.
    pub fn listed(&self, path: &ArrayVec<u16, 8>) -> Option<u32>
        ensures is { result ≡ listed_in self.now.away path.now.items }
        ensures below { IfSome result (λ node. node < self.now.nodes) }
    {
        self.away.get(path).copied()
    }

    /// The node on which the space at a path stands.
    pub fn place(&self, path: &ArrayVec<u16, 8>) -> u32
        ensures is { result ≡ place_of self.now path.now.items }
        ensures below { result < self.now.nodes }
    {
        match self.listed(path) {
            Some(node) => node,
            None => self.home(path),
        }
    }
    /// Each space stands on one of the nodes.
    pub fn are_nodes(&self)
        ensures { (p : List ℕ) → place_of self.now p < self.now.nodes }
    {
        let _listed = self.away.len();
    }
}
