ghost use Rattle.std.specs.Prelude.{◌≡◌, ◌<◌, ◌≤◌, length, IfOk, OnOk, OnErr, None, Ok};
ghost use Rattle.fault_model.specs.Gives.{Gives};
ghost use Rattle.space_model.specs.Space as model;
ghost use Rattle.parcel_model.specs.Parcel.{TopOf};
ghost use Rattle.parcel_model.specs.Packing.{parcel_bytes};
ghost use Rattle.node_store.specs.Lists.{after_sending, carried_over, list_of, received, with_devices, with_links, without_links};

use crate::both::add_to_both;
use node_link::Links;
use node_parcel::{ParcelFault, Residents, pack_to_send, unpack};
use space_tree::{Devices, Top};
use std::alloc::{AllocError, Global};
use std::marker::Model;

/// Nodes, at least one, each with its list of resident pages, and with links between them or without. Contracts see the lists, by the number of the node, each the
/// list of its pages, and the links.
#[derive(Drop)]
pub struct Nodes {
    alloc: Global,
    lists: Vec<Residents>,
    links: Option<Links>,
}

impl Model for Nodes {
    ghost use Rattle.node_store.specs.Lists.{NodesView};

    ghost Value = { NodesView };

    ghost view = { λ n. record { lists = n.lists.items; links = n.links } };

    ghost use Rattle.std.specs.Prelude.{length};
    ghost use Rattle.node_store.specs.Lists.{AreLinked};

    ghost invariant = { λ n. AreLinked (length n.lists.items) n.links };
}

impl Nodes {
    /// So many nodes, at least 1, without pages. The one error is want of memory.
    pub fn new(alloc: Global, nodes: u32) -> Result<Nodes, AllocError>
        requires { 1 ≤ nodes }
        ensures { IfOk result (λ n. n ≡ without_links nodes) }
    {
        let mut lists = Vec::new(alloc);
        for _ in 0..nodes {
            lists.push(Residents::new(alloc))?;
        }
        Ok(Nodes {
            alloc,
            lists,
            links: None,
        })
    }

    /// As `new`, of up to 64 nodes, with a link between each two, over which parcels go: all begin with one seed.
    pub fn linked(alloc: Global, nodes: u32, seed: u32) -> Result<Nodes, AllocError>
        requires { (1 ≤ nodes) × (nodes ≤ 64) }
        ensures { IfOk result (λ n. n ≡ with_links nodes seed) }
    {
        let mut all = Nodes::new(alloc, nodes)?;
        all.links = Some(Links::new(alloc, nodes, seed)?);
        Ok(all)
    }

    // The list of a node.
    fn list(&self, node: u32) -> &Residents
        requires { node < length self.now.lists }
        ensures { result.now ≡ list_of self.now.lists node }
    {
        &self.lists[node as usize]
    }

    // The parcel that goes from one node to another, both of which keep the pages whose bytes stand in it.
    fn pack_and_keep(&mut self, from: u32, to: u32, top: &Top) -> Result<Vec<u8>, AllocError>
        requires from { from < length self.old.lists }
        requires to { to < length self.old.lists }
        requires devices { top.now.devices ≡ None }
        ensures packed { IfOk result (λ parcel. parcel.items ≡ parcel_bytes (list_of self.old.lists to) top.now) }
        ensures parcel { IfOk result (λ parcel. TopOf (list_of self.old.lists to) parcel.items top.now) }
        ensures ok { OnOk result (self.new ≡ record self.old { lists = after_sending self.old.lists from to top.now }) }
        ensures err { OnErr result (self.new ≡ self.old) }
    {
        let packed = pack_to_send(self.alloc, top, self.list(to))?;
        add_to_both(
            self.alloc,
            &mut self.lists,
            from as usize,
            to as usize,
            &packed.whole,
        )?;
        Ok(packed.bytes)
    }

    /// The parcel of a top without devices that goes from one node to another: each page by the least number in the list of the node that it
    /// goes to, where that has its bytes. Both ends keep the pages whose bytes are sent, where there is room and they are not there yet. The
    /// one error is want of memory: nothing has changed then.
    pub fn send(&mut self, from: u32, to: u32, top: &Top) -> Result<Vec<u8>, AllocError>
        requires from { from < length self.old.lists }
        requires to { to < length self.old.lists }
        requires devices { top.now.devices ≡ None }
        ensures packed { IfOk result (λ parcel. parcel.items ≡ parcel_bytes (list_of self.old.lists to) top.now) }
        // It is a parcel of this top over the list as it is now, over which it is received.
        ensures arrives { IfOk result (λ parcel. TopOf (list_of self.new.lists to) parcel.items top.now) }
        ensures ok { OnOk result (self.new ≡ record self.old { lists = after_sending self.old.lists from to top.now }) }
        ensures err { OnErr result (self.new ≡ self.old) }
        ensures nodes { length self.new.lists ≡ length self.old.lists }
    {
        self.pack_and_keep(from, to, top)
    }

    /// A parcel goes from one node to another, over their link where they have one, and arrives as it is: one parcel more has gone over that link then. The one error is
    /// want of memory, or of a link's numbers: nothing has changed then.
    pub fn carry(&mut self, from: u32, to: u32, parcel: Vec<u8>) -> Result<Vec<u8>, AllocError>
        requires from { from < length self.old.lists }
        requires to { to < length self.old.lists }
        ensures parcel { IfOk result (λ v. v.items ≡ parcel.items) }
        ensures ok { OnOk result (self.new ≡ record self.old { links = carried_over self.old.links from to }) }
        ensures err { OnErr result (self.new ≡ self.old) }
        ensures nodes { length self.new.lists ≡ length self.old.lists }
    {
        if let Some(links) = &mut self.links {
            return links.carry(self.alloc, from, to, &parcel);
        }
        Ok(parcel)
    }

    /// The top that a parcel means at a node, with the devices handed in. Where it has a snapshot, exactly the pages in which memory and
    /// snapshot differ are dirty. An error is the first fault from the left, at the offset of its field, or want of memory.
    pub fn receive(
        &self,
        to: u32,
        parcel: &[u8],
        devices: Option<Devices>,
    ) -> Result<Top, ParcelFault>
        requires { to < length self.now.lists }
        // What is read is a top of these bytes, with the devices.
        ensures found { IfOk result (λ t. TopOf (list_of self.now.lists to) parcel.now (with_devices None t)) }
        ensures devices { IfOk result (λ t. t.devices ≡ devices) }
        // A top of these bytes is what is read, with the devices, unless memory runs out.
        ensures only { (t : model.Top) → TopOf (list_of self.now.lists to) parcel.now t → Gives (λ x. x) result (Ok (with_devices devices t)) }
        // Which fault it is.
        ensures exact { Gives (λ t. t) result (received (list_of self.now.lists to) parcel.now devices) }
    {
        let mut top = unpack(self.alloc, parcel, self.list(to))?;
        top.devices = devices;
        Ok(top)
    }
}
