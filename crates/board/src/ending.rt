ghost use Rattle.std.specs.Prelude.{◌≡◌, ◌<◌, ℕ, List, true};
ghost use Rattle.space_model.specs.Space.{is_settled};
ghost use Rattle.space_model.specs.Sound.{IsSound};
ghost use Rattle.run_model.specs.Demand.{settle_tree};
ghost use Rattle.det_core.specs.Legal.{IsHistory, Legal};
ghost use Rattle.node_places.specs.Places.{place_of};
ghost use Rattle.board.specs.Jobs.{IsNoneOut};
ghost use Rattle.board.specs.Listed.{OutsApart, OutsRun};

use crate::board::Board;
use crate::closed::Closed;
use det_core::Entry;
use space_tree::is_settled;

impl Board {
    /// How many nodes there are, one at least.
    pub fn nodes(&self) -> u32
        ensures is { result ≡ self.now.places.nodes }
        ensures some { 0 < self.now.places.nodes }
    {
        self.lists.run.places.nodes()
    }

    /// Each space stands on one of the nodes.
    pub(crate) fn places_are_nodes(&self)
        ensures { (p : List ℕ) → place_of self.now.places p < self.now.places.nodes }
    {
        self.lists.run.places.are_nodes();
    }

    /// What is known of the tree and of the jobs that are out: it is sound, the space of each has local events, and none is out twice.
    pub fn jobs_go_on(&self)
        ensures sound { IsSound self.now.tree }
        ensures run { OutsRun self.now.tree self.now.out }
        ensures apart { OutsApart self.now.out }
    {
        let _entries = self.history.len();
    }

    /// Whether no job is out and no space in the tree runs. It takes no memory.
    pub fn finished(&self) -> bool
        ensures yes { result ≡ true → IsNoneOut self.now.out × (is_settled self.now.tree ≡ true) }
        ensures no { IsNoneOut self.now.out → is_settled self.now.tree ≡ true → result ≡ true }
    {
        self.out.is_empty() && is_settled(&self.tree)
    }

    /// What has happened, from the tree that the board began with on.
    pub fn history(&self) -> &[Entry]
        ensures is { result.now ≡ self.now.history }
        ensures legal { IsSound self.now.boot × IsHistory self.now.places.nodes self.now.boot self.now.history self.now.tree self.now.places }
    {
        self.history.as_slice()
    }

    /// Closes the board. The jobs that are out are forgotten. Where no space runs, the tree is what the first one settles to.
    pub fn close(self) -> Closed
        ensures boot { result.boot ≡ self.boot }
        ensures nodes { result.nodes ≡ self.places.nodes }
        ensures tree { result.tree ≡ self.tree }
        ensures history { result.history.items ≡ self.history }
        ensures legal { IsSound result.boot × Legal result.nodes result.boot result.history.items result.tree }
        ensures end { is_settled result.tree ≡ true → result.tree ≡ settle_tree result.boot }
    {
        let nodes = self.nodes();
        let Board {
            boot,
            tree,
            history,
            ..
        } = self;
        Closed {
            boot: boot.into_space(),
            nodes,
            tree,
            history,
        }
    }
}
