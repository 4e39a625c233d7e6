ghost use Rattle.std.specs.Prelude.{◌≡◌, ◌<◌, ◌≤◌, ◌+◌, ◌*◌, IfOk, None, OnErr, OnOk, Some, length, replicate, slice_index_or, slice_set};
ghost use Rattle.link_model.specs.Carrying.{with_one_more};
ghost use Rattle.node_link.specs.Linked.{link_of, made_or_new, most_nodes, place_of, with_link};

use crate::link::Link;
use std::alloc::{AllocError, Global};
use std::marker::Model;

/// The most nodes between which parcels go.
pub const MOST_NODES: u32 = 64;

/// The links between nodes: one for each node and each node that it sends to, made when a parcel first goes over it, all with one seed. Contracts see the seed, how
/// many nodes there are, and the links that were made.
#[derive(Drop)]
pub struct Links {
    seed: u32,
    nodes: u32,
    links: Vec<Option<Link>>,
}

impl Model for Links {
    ghost use Rattle.std.specs.Prelude.{◌≡◌, ◌*◌, ◌≤◌, length};
    ghost use Rattle.node_link.specs.Linked.{Linked, most_nodes};

    ghost Value = { Linked };

    ghost view = { λ l. record { seed = l.seed; nodes = l.nodes; links = l.links.items } };

    ghost invariant = { λ l. (length l.links.items ≡ l.nodes * most_nodes) × (l.nodes ≤ most_nodes) };
}

// A parcel goes over a link, which is made where there is none yet.
fn carry_over(
    alloc: Global,
    seed: u32,
    slot: &mut Option<Link>,
    parcel: &[u8],
) -> Result<Vec<u8>, AllocError>
    ensures parcel { IfOk result (λ v. v.items ≡ parcel.now) }
    ensures ok { OnOk result (slot.new ≡ Some (with_one_more (made_or_new seed slot.old))) }
    ensures err { OnErr result (slot.new ≡ slot.old) }
{
    if let Some(link) = slot {
        return link.carry(alloc, parcel);
    }
    let mut link = Link::new(alloc, seed);
    match link.carry(alloc, parcel) {
        Ok(arrived) => {
            *slot = Some(link);
            Ok(arrived)
        }
        Err(error) => Err(error),
    }
}

// A parcel goes over the link of this place.
fn carry_at(
    alloc: Global,
    seed: u32,
    links: &mut Vec<Option<Link>>,
    place: usize,
    parcel: &[u8],
) -> Result<Vec<u8>, AllocError>
    requires { place < length links.old.items }
    ensures parcel { IfOk result (λ v. v.items ≡ parcel.now) }
    ensures ok { OnOk result (links.new.items ≡ slice_set links.old.items place (Some (with_one_more (made_or_new seed (slice_index_or links.old.items place None))))) }
    ensures err { OnErr result (links.new.items ≡ links.old.items) }
    ensures places { length links.new.items ≡ length links.old.items }
{
    carry_over(alloc, seed, &mut links[place], parcel)
}

// Where the link of two nodes stands.
fn place(from: u32, to: u32) -> usize
    requires from { from < most_nodes }
    requires to { to < most_nodes }
    ensures { result ≡ place_of from to }
{
    (from * MOST_NODES + to) as usize
}

// So many places without links.
fn no_links(alloc: Global, count: u32) -> Result<Vec<Option<Link>>, AllocError>
    ensures { IfOk result (λ v. v.items ≡ replicate count None) }
{
    let mut links = Vec::new(alloc);
    for _ in 0..count {
        links.push(None)?;
    }
    Ok(links)
}

impl Links {
    /// So many nodes, from 1 to 64, between which nothing has gone. The one error is want of memory.
    pub fn new(alloc: Global, nodes: u32, seed: u32) -> Result<Links, AllocError>
        requires { nodes ≤ most_nodes }
        ensures { IfOk result (λ l. l ≡ record { seed = seed; nodes = nodes; links = replicate (nodes * most_nodes) None }) }
    {
        Ok(Links {
            seed,
            nodes,
            links: no_links(alloc, nodes * MOST_NODES)?,
        })
    }

    /// Has a parcel go from one node to another over their link: it arrives as it is. The one error is want of memory, or of numbers, once a link has sent 2^64 - 16
    /// frames: nothing has changed then.
    pub fn carry(
        &mut self,
        alloc: Global,
        from: u32,
        to: u32,
        parcel: &[u8],
    ) -> Result<Vec<u8>, AllocError>
        requires from { from < self.old.nodes }
        requires to { to < self.old.nodes }
        ensures parcel { IfOk result (λ v. v.items ≡ parcel.now) }
        ensures ok { OnOk result (self.new ≡ with_link self.old from to (with_one_more (link_of self.old from to))) }
        ensures err { OnErr result (self.new ≡ self.old) }
        ensures nodes { self.new.nodes ≡ self.old.nodes }
    {
        let seed = self.seed;
        carry_at(alloc, seed, &mut self.links, place(from, to), parcel)
    }
}
