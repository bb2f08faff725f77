//! Lists of items, one for each slot, linked both ways: adding or removing an item is one step, however many there are.
ghost use Rattle.std.specs.Prelude.{◌≡◌, ℕ, ◌<◌, ◌+◌, Some, [], ◌∷◌, IfOk, length, map, set, get_or, replicate, slice_get};
ghost use Rattle.std.specs.List.{range_with_len};
ghost use Rattle.tick_wheel.specs.Sizes.{ITEMS, SLOTS, NODES};
ghost use Rattle.tick_wheel.specs.Lists.{without};
ghost use Rattle.tick_wheel.specs.Linked.{at, item_of, out_of, in_front, in_front_back};

use std::alloc::{AllocError, Global};
use std::marker::Model;

/// The number of items.
pub const ITEMS: u16 = 1024;

/// The number of slots.
pub const SLOTS: u16 = 256;

/// The number of nodes: one for each item, then one for each slot.
const NODES: u16 = ITEMS + SLOTS;

/// Two tables by node: its next node and its previous node.
#[derive(Debug, Drop)]
struct Links {
    next: Vec<u16>,
    previous: Vec<u16>,
}

/// A list for each of 256 slots. The items are the numbers below 1,024; each is in at most one list, and there once.
///
/// After `new` only `copy` can fail because memory runs out.
#[derive(Debug, Drop)]
pub struct SlotLists {
    links: Links,
}

impl Model for SlotLists {
    ghost use Rattle.std.specs.Prelude.{ℕ, List};
    ghost use Rattle.tick_wheel.specs.Linked.{at, lists_of, IsLinked};

    ghost Value = { List (List ℕ) };

    ghost view = { λ l. lists_of (at l.links.next.items) };

    ghost invariant = { λ l. IsLinked l.links.next.items l.links.previous.items };
}

impl SlotLists {
    /// Lists that are all empty.
    pub fn new(alloc: Global) -> Result<Self, AllocError>
        ensures { IfOk result (λ lists. lists ≡ replicate SLOTS []) }
    {
        let next = each_itself(alloc)?;
        let previous = each_itself(alloc)?;
        let links = Links { next, previous };
        Ok(SlotLists { links })
    }

    /// A copy of the lists.
    pub fn copy(&self) -> Result<Self, AllocError>
        ensures { IfOk result (λ lists. lists ≡ self.now) }
    {
        let next = self.links.next.clone()?;
        let previous = self.links.previous.clone()?;
        let links = Links { next, previous };
        Ok(SlotLists { links })
    }

    /// Moves an item to the front of a slot's list.
    pub fn put(&mut self, slot: u16, item: u16)
        requires slot { slot < SLOTS }
        requires item { item < ITEMS }
        ensures { self.new ≡ set (map (without item) self.old) slot (item ∷ without item (get_or self.old slot [])) }
    {
        self.links.unlink(item);
        self.links.link(ITEMS + slot, item);
    }

    /// Removes an item from its list, if it is in one.
    pub fn take_out(&mut self, item: u16)
        requires { item < ITEMS }
        ensures { self.new ≡ map (without item) self.old }
    {
        self.links.unlink(item);
    }

    /// The first item of a slot's list.
    pub fn first(&self, slot: u16) -> Option<u16>
        requires { slot < SLOTS }
        ensures { result ≡ slice_get (get_or self.now slot []) 0 }
    {
        self.links.item_behind(ITEMS + slot)
    }

    /// The next item after another in its list.
    pub fn after(&self, item: u16) -> Option<u16>
        requires { item < ITEMS }
        ensures { (slot place : ℕ) → slice_get (get_or self.now slot []) place ≡ Some item → result ≡ slice_get (get_or self.now slot []) (place + 1) }
    {
        self.links.item_behind(item)
    }
}

/// A table in which each node links to itself.
fn each_itself(alloc: Global) -> Result<Vec<u16>, AllocError>
    ensures { IfOk result (λ links. links.items ≡ range_with_len 0 NODES) }
{
    let mut links = Vec::with_capacity(alloc, usize::from(NODES))?;
    for node in 0..NODES {
        links.push(node)?;
    }
    Ok(links)
}

impl Links {
    /// Links the neighbours of an item to each other, and the item to itself.
    fn unlink(&mut self, item: u16)
        requires lengths { (length self.old.next.items ≡ NODES) × (length self.old.previous.items ≡ NODES) }
        requires item { item < NODES }
        requires before { at self.old.previous.items item < NODES }
        requires behind { at self.old.next.items item < NODES }
        ensures next { self.new.next.items ≡ out_of self.old.next.items self.old.previous.items item }
        ensures previous { self.new.previous.items ≡ out_of self.old.previous.items self.old.next.items item }
    {
        let behind = self.next[usize::from(item)];
        let before = self.previous[usize::from(item)];
        self.next[usize::from(before)] = behind;
        self.next[usize::from(item)] = item;
        self.previous[usize::from(behind)] = before;
        self.previous[usize::from(item)] = item;
    }

    /// Inserts an item, which links only to itself, after a node.
    fn link(&mut self, node: u16, item: u16)
        requires lengths { (length self.old.next.items ≡ NODES) × (length self.old.previous.items ≡ NODES) }
        requires node { node < NODES }
        requires item { item < NODES }
        requires behind { at self.old.next.items node < NODES }
        ensures next { self.new.next.items ≡ in_front self.old.next.items node item }
        ensures previous { self.new.previous.items ≡ in_front_back self.old.next.items self.old.previous.items node item }
    {
        let behind = self.next[usize::from(node)];
        self.next[usize::from(item)] = behind;
        self.next[usize::from(node)] = item;
        self.previous[usize::from(item)] = node;
        self.previous[usize::from(behind)] = item;
    }

    /// The next node after a node, if it is an item.
    fn item_behind(&self, node: u16) -> Option<u16>
        requires { node < length self.now.next.items }
        ensures { result ≡ item_of (at self.now.next.items node) }
    {
        let behind = self.next[usize::from(node)];
        if behind < ITEMS { Some(behind) } else { None }
    }
}
