//! The slots of keys. The last bits of a key lead to a head in a table, and the bits before these on from there through
//! a tree, in which each node has a key of its own and leads on by one bit. So a key that has its last bits for itself
//! is found at its head, and one of many that share them, however they were chosen, in no more steps than a key has bits.
ghost use Rattle.std.specs.Prelude.{◌≡◌, ◌≤◌, ◌<◌, ◌+◌, ℕ, min, false, IsTrue, Some, None, IfSome, IfOk, option_copied, OnOk, length, slice_get, is_some, set};
ghost use Rattle.std.specs.FinMap as map;
ghost use Rattle.pool_arena.specs.declared.node.Node.{Node};
ghost use Rattle.pool_arena.specs.Nodes.{IsOf, home as home_of, rest_of, vacated, nowhere};
ghost use Rattle.pool_arena.specs.Places.{IsSound, GetsTo, IsHeldAt, IsOnWay, CanReach, CanAdd, IsAdded, IsSame, head_of, link_of, holds, with_slot, slots_of, spare};

use crate::node::{NOWHERE, Node};
use std::alloc::{AllocError, Global};

/// A slot for each key that is held.
#[derive(Drop)]
pub struct Places {
    /// A link for the keys with the same last bits. So many are a power of two, or none.
    heads: Vec<u32>,
    /// A node leads to later ones only, so that each way ends.
    nodes: Vec<Node>,
}

impl Places {
    /// No keys.
    pub(crate) fn new(alloc: Global) -> Self
        ensures sound { IsSound result }
        ensures empty { slots_of result ≡ map.empty }
        ensures spare { spare result ≡ 0 }
    {
        Places {
            heads: Vec::new(alloc),
            nodes: Vec::new(alloc),
        }
    }

    /// Where the head of a key stands.
    #[inline]
    fn home(&self, key: u64) -> usize
        ensures { result ≡ home_of (length self.now.heads.items) key }
    {
        key as usize & self.heads.len().saturating_sub(1)
    }

    /// The bits of a key by which it goes on from its head: those that didn't lead there.
    #[tactic(auto, unfolding(crate::specs::Nodes::rest_of))]
    fn rest(&self, key: u64) -> u64
        ensures { result ≡ rest_of (length self.now.heads.items) key }
    {
        key.wrapping_shr(self.heads.len().trailing_zeros())
    }

    /// The link at the head of a key.
    #[inline]
    fn head(&self, key: u64) -> usize
        ensures { result ≡ head_of self.now key }
    {
        match self.heads.get(self.home(key)) {
            Some(link) => *link as usize,
            None => NOWHERE as usize,
        }
    }

    /// The node at an index.
    #[inline]
    fn node(&self, index: usize) -> Option<&Node>
        ensures { option_copied result ≡ slice_get self.now.nodes.items index }
    {
        self.nodes.get(index)
    }

    /// Whether the node at an index holds a key.
    #[inline]
    fn is_held(&self, index: usize) -> bool
        ensures { result ≡ is_some (holds self.now index) }
    {
        match self.node(index) {
            Some(node) => node.slot.is_some(),
            None => false,
        }
    }

    /// The node of a key, which may hold it or have held it. Where a key is held, it is at this one.
    #[inline]
    fn find(&self, key: u64) -> Option<usize>
        requires { IsSound self.now }
        ensures own { IfSome result (λ index. IsOf self.now.nodes.items key index) }
        ensures found { (index : ℕ) → GetsTo self.now key index → result ≡ Some index }
    {
        let first = self.head(key);
        match self.node(first) {
            None => None,
            Some(node) if node.key == key => Some(first),
            Some(node) if node.is_leaf() => None,
            Some(_) => self.search(key, first),
        }
    }

    /// The same, for a key that isn't at its head.
    #[cold]
    #[inline(never)]
    fn search(&self, key: u64, first: usize) -> Option<usize>
        requires head { first ≡ head_of self.now key }
        requires sound { IsSound self.now }
        ensures own { IfSome result (λ index. IsOf self.now.nodes.items key index) }
        ensures found { (index : ℕ) → GetsTo self.now key index → result ≡ Some index }
    {
        let mut link = first;
        let mut rest = self.rest(key);
        while let Some(node) = self.node(link) {
            if node.key == key {
                return Some(link);
            }
            link = node.next(rest) as usize;
            rest /= 2;
        }
        None
    }

    /// The slot of a key. None exactly where it isn't held.
    #[inline]
    pub(crate) fn get(&self, key: u64) -> Option<usize>
        requires { IsSound self.now }
        ensures { result ≡ map.get (slots_of self.now) key }
    {
        match self.find(key) {
            Some(index) => self.slot_at(index),
            None => None,
        }
    }

    /// What the node at an index holds.
    #[inline]
    fn slot_at(&self, index: usize) -> Option<usize>
        requires { index < length self.now.nodes.items }
        ensures { (node : Node) → slice_get self.now.nodes.items index ≡ Some node → result ≡ node.slot }
    {
        self.nodes[index].slot
    }

    /// Adds a key that isn't held, in room that is there.
    #[inline]
    pub(crate) fn insert(&mut self, key: u64, slot: usize)
        requires { CanAdd self.old key }
        ensures { IsAdded self.old self.new key slot }
    {
        let first = self.head(key);
        if self.is_held(first) {
            self.insert_below(key, slot);
        } else if first < self.nodes.len() {
            self.fill(first, key, slot);
        } else {
            self.plant(key, slot);
        }
    }

    /// Adds a key at whose head another is held.
    #[cold]
    #[inline(never)]
    fn insert_below(&mut self, key: u64, slot: usize)
        requires can_add { CanAdd self.old key }
        requires taken { IsHeldAt self.old (head_of self.old key) }
        ensures { IsAdded self.old self.new key slot }
    {
        let (last, rest) = self.last_held(key);
        let link = self.link(last, rest);
        if link < self.nodes.len() {
            self.fill(link, key, slot);
        } else {
            self.hang(last, rest, key, slot);
        }
    }

    /// The last node that holds a key on the way of this one, and the bits by which it goes on from there.
    fn last_held(&self, key: u64) -> (usize, u64)
        requires can_add { CanAdd self.now key }
        requires taken { IsHeldAt self.now (head_of self.now key) }
        ensures held { IsHeldAt self.now result.0 }
        ensures way { IsOnWay self.now key result.0 result.1 }
        ensures last { holds self.now (link_of self.now result.0 result.1) ≡ None }
    {
        let mut index = self.head(key);
        let mut rest = self.rest(key);
        while self.is_held(self.link(index, rest)) {
            index = self.link(index, rest);
            rest /= 2;
        }
        (index, rest)
    }

    /// The link that a key with these bits follows from a node.
    fn link(&self, index: usize, rest: u64) -> usize
        requires { IsHeldAt self.now index }
        ensures { result ≡ link_of self.now index rest }
    {
        self.nodes[index].next(rest) as usize
    }

    /// Adds a key at a node that holds nothing, and to which it gets.
    #[inline]
    fn fill(&mut self, index: usize, key: u64, slot: usize)
        requires can_add { CanAdd self.old key }
        requires within { index < length self.old.nodes.items }
        requires vacant { holds self.old index ≡ None }
        requires reachable { CanReach self.old key index }
        ensures { IsAdded self.old self.new key slot }
    {
        self.nodes[index].fill(key, slot);
    }

    /// Adds a key at its head, which leads nowhere.
    fn plant(&mut self, key: u64, slot: usize)
        requires can_add { CanAdd self.old key }
        requires gap { length self.old.nodes.items ≤ head_of self.old key }
        ensures { IsAdded self.old self.new key slot }
    {
        let home = self.home(key);
        self.heads[home] = self.nodes.len() as u32;
        self.nodes.push_reserved(Node::new(key, slot));
    }

    /// Adds a key behind the last node on its way, which leads nowhere by these bits.
    fn hang(&mut self, last: usize, rest: u64, key: u64, slot: usize)
        requires can_add { CanAdd self.old key }
        requires held { IsHeldAt self.old last }
        requires way { IsOnWay self.old key last rest }
        requires gap { length self.old.nodes.items ≤ link_of self.old last rest }
        ensures { IsAdded self.old self.new key slot }
    {
        let link = self.nodes.len() as u32;
        self.nodes[last].lead(rest, link);
        self.nodes.push_reserved(Node::new(key, slot));
    }

    /// Takes a key out, which isn't held from then on. None exactly where it wasn't held.
    pub(crate) fn remove(&mut self, key: u64) -> Option<usize>
        requires { IsSound self.old }
        ensures sound { IsSound self.new }
        ensures value { result ≡ map.get (slots_of self.old) key }
        ensures slots { slots_of self.new ≡ map.remove (slots_of self.old) key }
        ensures spare { spare self.new ≡ spare self.old }
    {
        match self.find(key) {
            Some(index) => self.vacate(index),
            None => None,
        }
    }

    /// Takes out what a node holds.
    fn vacate(&mut self, index: usize) -> Option<usize>
        requires { index < length self.old.nodes.items }
        ensures value { (node : Node) → slice_get self.old.nodes.items index ≡ Some node → result ≡ node.slot }
        ensures nodes { (node : Node) → slice_get self.old.nodes.items index ≡ Some node → self.new.nodes.items ≡ set self.old.nodes.items index (vacated node) }
        ensures heads { self.new.heads.items ≡ self.old.heads.items }
        ensures spare { spare self.new ≡ spare self.old }
    {
        self.nodes[index].slot.take()
    }

    /// Takes memory for n more keys, where so many are held. If memory runs out, the slots are as they were.
    #[inline]
    pub(crate) fn reserve(&mut self, n: usize, held: usize) -> Result<(), AllocError>
        requires { IsSound self.old }
        ensures same { IsSame self.old self.new }
        ensures room { OnOk result (n ≤ spare self.new) }
    {
        // Memory is there almost always.
        if self.has_heads(held) && self.has_room(n) {
            return Ok(());
        }
        self.find_room(n, held)
    }

    /// Whether there are as many heads as there should be for so many keys, so that few of these share one.
    #[inline]
    fn has_heads(&self, held: usize) -> bool
        ensures { IsTrue result → 0 < length self.now.heads.items }
    {
        held < self.heads.len() / 4
    }

    /// Whether there is memory for n more nodes.
    #[inline]
    fn has_room(&self, n: usize) -> bool
        ensures { IsTrue result → n ≤ spare self.now }
    {
        let most = self.nodes.capacity().min(NOWHERE as usize);
        n <= most.saturating_sub(self.nodes.len())
    }

    /// Takes memory for n more keys where it isn't there, or where many would share a head.
    #[cold]
    #[inline(never)]
    fn find_room(&mut self, n: usize, held: usize) -> Result<(), AllocError>
        requires { IsSound self.old }
        ensures same { IsSame self.old self.new }
        ensures room { OnOk result (n ≤ spare self.new) }
    {
        if self.is_crowded(held) {
            self.make_over(held)?;
        }
        self.grow(n)
    }

    /// Whether there are too few heads for the keys that are held, or more nodes that hold nothing than keys, so that
    /// memory is lost. A few of these, or few beside the heads, do no harm.
    fn is_crowded(&self, held: usize) -> bool
        ensures { result ≡ false → 0 < length self.now.heads.items }
    {
        let vacant = self.nodes.len().saturating_sub(held);
        !self.has_heads(held) || vacant > held.max(self.heads.len() / 8).max(64)
    }

    /// Takes memory for so many more nodes.
    #[inline]
    fn grow(&mut self, n: usize) -> Result<(), AllocError>
        requires sound { IsSound self.old }
        requires some { 0 < length self.old.heads.items }
        ensures same { IsSame self.old self.new }
        ensures room { OnOk result (n ≤ spare self.new) }
    {
        if n > (NOWHERE as usize).saturating_sub(self.nodes.len()) {
            return Err(AllocError);
        }
        self.nodes.reserve(n)
    }

    /// Goes over to new nodes for the keys that are held, and to more heads where there are too few for them.
    #[cold]
    #[inline(never)]
    fn make_over(&mut self, held: usize) -> Result<(), AllocError>
        requires { IsSound self.old }
        ensures same { IsSame self.old self.new }
        ensures some { OnOk result (0 < length self.new.heads.items) }
    {
        let heads = self.heads_for(held)?;
        *self = self.made_over(heads)?;
        Ok(())
    }

    /// How many heads there are to be for so many keys.
    fn heads_for(&self, held: usize) -> Result<usize, AllocError>
        ensures { IfOk result (λ heads. 0 < heads) }
    {
        let heads = self.heads.len();
        if held < heads / 4 {
            return Ok(heads);
        }
        heads.max(4).checked_mul(2).ok_or(AllocError)
    }

    /// The same slots, with so many heads, and with no nodes that hold nothing.
    fn made_over(&self, heads: usize) -> Result<Places, AllocError>
        requires sound { IsSound self.now }
        requires some { 0 < heads }
        ensures same { IfOk result (λ made. IsSame self.now made) }
        ensures some { IfOk result (λ made. 0 < length made.heads.items) }
    {
        let mut made = Places::with_room(heads, self.nodes.capacity(), *self.nodes.allocator())?;
        for node in &self.nodes {
            made.copy(*node);
        }
        Ok(made)
    }

    /// No keys, with so many heads, and with room for so many nodes.
    fn with_room(heads: usize, nodes: usize, alloc: Global) -> Result<Places, AllocError>
        requires { 0 < heads }
        ensures sound { IfOk result (λ made. IsSound made) }
        ensures empty { IfOk result (λ made. slots_of made ≡ map.empty) }
        ensures spare { IfOk result (λ made. min nodes nowhere ≤ spare made) }
        ensures some { IfOk result (λ made. 0 < length made.heads.items) }
    {
        let mut links = Vec::new(alloc);
        links.resize(heads, NOWHERE)?;
        Ok(Places {
            heads: links,
            nodes: Vec::with_capacity(alloc, nodes)?,
        })
    }

    /// Adds the key that a node holds, if it holds one.
    fn copy(&mut self, node: Node)
        requires sound { IsSound self.old }
        requires can_add { (slot : ℕ) → node.slot ≡ Some slot → CanAdd self.old node.key }
        ensures sound { IsSound self.new }
        ensures slots { slots_of self.new ≡ with_slot (slots_of self.old) node.key node.slot }
        ensures spare { spare self.old ≤ spare self.new + 1 }
        ensures heads { length self.new.heads.items ≡ length self.old.heads.items }
    {
        if let Some(slot) = node.slot {
            self.insert(node.key, slot);
        }
    }
}
