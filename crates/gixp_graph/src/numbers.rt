//! Finds the number of an id.
ghost use Rattle.std.specs.Prelude.{◌≡◌, ◌<◌, ◌↔◌, ℕ, [], IsTrue, IsFalse, IfSome, IfNone, OnOk, length};
ghost use Rattle.gixp_graph.specs.Node.{ids_of};
ghost use Rattle.gixp_graph.specs.Slots.{tag_of, place_of, IsTaken, IsReached, IsNumbered, IsNew, IsNoOther, Keeps};
ghost use Rattle.gixp_graph.specs.Table.{id_at};
ghost use Rattle.gixp_graph.specs.Visited.{IsOneToOne};
ghost use Rattle.gixp_hash.specs.declared.object_id.ObjectId.{ObjectId};

use crate::commits::Node;
use gixp_hash::ObjectId;
use std::alloc::{AllocError, Global};
use std::collections::BTreeMap;

// How many slots an id's number may be in. This bounds each look-up, whoever chooses the ids.
const WINDOW: usize = 16;

// The mask of the smallest table.
const FEWEST: usize = 63;

// Numbers from here on aren't stored in slots.
const LIMIT: usize = u32::MAX as usize;

/// A slot for the number of an id.
#[derive(Clone, Copy)]
pub(crate) struct Slot {
    // The id's first bytes.
    tag: u32,
    // One past the number, or 0 where the slot is free.
    end: u32,
}

/// Numbers by id. The ids themselves are in the nodes.
///
/// The first bytes of an id choose its first slot. The id's number is in the first slot from there on that is free
/// or has those bytes. Where that slot has another id's number, or the whole window is taken, it is in an ordered map.
#[derive(Drop)]
pub(crate) struct Numbers {
    alloc: Global,
    slots: Vec<Slot>,
    // The first bytes of an id under this mask are its first slot.
    mask: usize,
    others: BTreeMap<ObjectId, usize>,
}

// The first bytes of an id.
fn tag_of(id: &ObjectId) -> u32
    ensures { result ≡ tag_of id.now }
{
    u32::from_le_bytes([id.bytes[0], id.bytes[1], id.bytes[2], id.bytes[3]])
}

// The first slot of a tag's window that is free or has the tag.
fn place(slots: &[Slot], mask: usize, tag: u32) -> Option<usize>
    ensures { result ≡ place_of slots.now mask tag }
{
    let start = tag as usize & mask;
    for offset in 0..WINDOW {
        let index = start + offset;
        let Some(&slot) = slots.get(index) else {
            return None;
        };
        if slot.end == 0 || slot.tag == tag {
            return Some(index);
        }
    }
    None
}

// Whether the node with this number has this id.
fn is_named(nodes: &[Node], number: usize, id: &ObjectId) -> bool
    ensures { IsTrue result ↔ ((number < length (ids_of nodes.now)) × (id_at (ids_of nodes.now) number ≡ id.now)) }
{
    match nodes.get(number) {
        Some(node) => node.id == *id,
        None => false,
    }
}

impl Numbers {
    /// Creates an empty map from ids to numbers.
    pub fn new(alloc: Global) -> Self
        ensures slots { result.slots.items ≡ [] }
        ensures others { result.others.entries ≡ [] }
    {
        Numbers {
            alloc,
            slots: Vec::new(alloc),
            mask: 0,
            others: BTreeMap::new(alloc),
        }
    }

    // The number that the ordered map has under an id, if its node has the id.
    fn other(&self, nodes: &[Node], id: &ObjectId) -> Option<usize>
        ensures some { IfSome result (λ n. (n < length (ids_of nodes.now)) × (id_at (ids_of nodes.now) n ≡ id.now)) }
        ensures none { IfNone result (IsNoOther (ids_of nodes.now) self.now.others.entries id.now) }
    {
        let number = *self.others.get(id)?;
        if is_named(nodes, number, id) {
            Some(number)
        } else {
            None
        }
    }

    /// The number of an id, if a node has it.
    pub fn find(&self, nodes: &[Node], id: &ObjectId) -> Option<usize>
        requires { IsNumbered (ids_of nodes.now) self.now }
        ensures some { IfSome result (λ n. (n < length (ids_of nodes.now)) × (id_at (ids_of nodes.now) n ≡ id.now)) }
        ensures none { IfNone result (IsNew (ids_of nodes.now) id.now) }
    {
        let Some(index) = place(self.slots.as_slice(), self.mask, tag_of(id)) else {
            return self.other(nodes, id);
        };
        let end = self.slots[index].end as usize;
        if end == 0 {
            return None;
        }
        if is_named(nodes, end - 1, id) {
            return Some(end - 1);
        }
        self.other(nodes, id)
    }

    // Writes the number of an id into its slot, if that is free. Returns whether the slot then has the number.
    fn write(&mut self, id: &ObjectId, number: usize) -> bool
        ensures kept { (q : ObjectId) (n : ℕ) → IsReached self.old q n → IsReached self.new q n }
        ensures placed { IsTrue result → IsReached self.new id.now number }
        ensures taken { IsFalse result → IsTaken self.new.slots.items self.new.mask (tag_of id.now) }
    {
        let tag = tag_of(id);
        let Some(index) = place(self.slots.as_slice(), self.mask, tag) else {
            return false;
        };
        if self.slots[index].end != 0 {
            return false;
        }
        if number < LIMIT {
            let end = number as u32 + 1;
            self.slots[index] = Slot { tag, end };
            return true;
        }
        // A number this large doesn't fit. The slot is filled with one that isn't the id's, so a look-up goes on to the map.
        self.slots[index] = Slot { tag, end: u32::MAX };
        false
    }

    // Writes the number of an id into its slot, else into the map.
    fn insert_number(&mut self, id: &ObjectId, number: usize) -> Result<(), AllocError>
        ensures kept { Keeps self.old self.new id.now }
        ensures reached { OnOk result (IsReached self.new id.now number) }
    {
        if self.write(id, number) {
            return Ok(());
        }
        match self.others.insert(*id, number) {
            Ok(_) => Ok(()),
            Err(_) => Err(AllocError),
        }
    }

    // Doubles the slots where half of them may be taken, and writes the numbers of all nodes again.
    fn grow(&mut self, nodes: &[Node]) -> Result<(), AllocError>
        requires once { IsOneToOne (ids_of nodes.now) }
        requires numbered { IsNumbered (ids_of nodes.now) self.old }
        ensures { IsNumbered (ids_of nodes.now) self.new }
    {
        if nodes.len() < self.mask / 2 {
            return Ok(());
        }
        let mask = self.mask.saturating_mul(2).saturating_add(1).max(FEWEST);
        let mut more = Numbers {
            alloc: self.alloc,
            slots: vec![in self.alloc; Slot { tag: 0, end: 0 }; mask.saturating_add(WINDOW)]?,
            mask,
            others: BTreeMap::new(self.alloc),
        };
        for number in 0..nodes.len() {
            more.insert_number(&nodes[number].id, number)?;
        }
        *self = more;
        Ok(())
    }

    /// Writes the number of this id, whose node is the next one.
    pub fn insert(&mut self, nodes: &[Node], id: &ObjectId) -> Result<(), AllocError>
        requires once { IsOneToOne (ids_of nodes.now) }
        requires numbered { IsNumbered (ids_of nodes.now) self.old }
        requires new { IsNew (ids_of nodes.now) id.now }
        ensures numbered { IsNumbered (ids_of nodes.now) self.new }
        ensures reached { OnOk result (IsReached self.new id.now (length nodes.now)) }
    {
        self.grow(nodes)?;
        self.insert_number(id, nodes.len())
    }
}
