//! What is kept of an event on a descriptor: how it watches, its neighbours in the order, and its stamp.
ghost use Rattle.std.specs.Prelude.{◌≡◌, ℕ, cond, nat_eq};
ghost use Rattle.std.specs.Option.{option_map};
ghost use Rattle.std.specs.FinMap as map;
ghost use Rattle.linked_lanes.specs.Lane.{is_at};
ghost use Rattle.linked_lanes.specs.Chain.{noted};
ghost use Rattle.linked_lanes.specs.declared.Sides.{Sides as SidesData};
ghost use Rattle.tree_specs.specs.Words.Objects.{is_same};
ghost use Rattle.fd_events.specs.Linked.{sides_at, stamp_at, watch_at, watching, with_flags, with_closing, with_loss};

use linked_lanes::{Link, Sides};
use pool_arena::Arena;
use tree_specs::{Obj, Watch};

/// How an event watches, and its place in the rotation.
#[derive(Clone, Copy)]
pub(crate) struct Node {
    pub fd: u32,
    pub flags: u32,
    pub closes: bool,
    /// The context in which it is watched; none where this is no more.
    pub context: Option<Obj>,
    /// Its neighbours in the rotation of its context.
    pub sides: Sides,
    /// A greater number than that of each event that stands before it.
    pub stamp: u64,
}

impl Node {
    /// How the event watches that has this under its number.
    pub(crate) fn watch(self, x: Obj) -> Watch
        ensures { result ≡ watching x.0 self }
    {
        Watch {
            object: x,
            fd: self.fd,
            flags: self.flags,
            closes: self.closes,
            context: self.context,
        }
    }

    /// Whether the event is one of this context.
    pub(crate) fn is_in(self, c: Obj) -> bool
        ensures { result ≡ is_same self.context c }
    {
        match self.context {
            None => false,
            Some(d) => d.0 == c.0,
        }
    }
}

/// Notes another neighbour of an event. Nothing changes where none is given, or where that one doesn't watch.
pub(crate) fn set_link(nodes: &mut Arena<Node>, at: Option<u64>, link: Link)
    ensures sides { (q : ℕ) → sides_at nodes.new.pairs q ≡ cond (is_at at q) (option_map (noted link) (sides_at nodes.old.pairs q)) (sides_at nodes.old.pairs q) }
    ensures stamps { (q : ℕ) → stamp_at nodes.new.pairs q ≡ stamp_at nodes.old.pairs q }
    ensures watches { (q : ℕ) → watch_at nodes.new.pairs q ≡ watch_at nodes.old.pairs q }
    ensures len { map.len nodes.new.pairs ≡ map.len nodes.old.pairs }
    ensures spare { nodes.new.spare ≡ nodes.old.spare }
{
    if let Some(x) = at
        && let Some(node) = nodes.get_mut(x)
    {
        node.sides.note(link);
    }
}

/// Notes the neighbours of an event and its stamp. Nothing changes where it doesn't watch.
pub(crate) fn set_place(nodes: &mut Arena<Node>, x: u64, sides: Sides, stamp: u64)
    ensures sides { (q : ℕ) → sides_at nodes.new.pairs q ≡ cond (nat_eq x q) (option_map (λ (_ : SidesData). sides) (sides_at nodes.old.pairs q)) (sides_at nodes.old.pairs q) }
    ensures stamps { (q : ℕ) → stamp_at nodes.new.pairs q ≡ cond (nat_eq x q) (option_map (λ (_ : ℕ). stamp) (stamp_at nodes.old.pairs q)) (stamp_at nodes.old.pairs q) }
    ensures watches { (q : ℕ) → watch_at nodes.new.pairs q ≡ watch_at nodes.old.pairs q }
    ensures len { map.len nodes.new.pairs ≡ map.len nodes.old.pairs }
    ensures spare { nodes.new.spare ≡ nodes.old.spare }
{
    if let Some(node) = nodes.get_mut(x) {
        node.sides = sides;
        node.stamp = stamp;
    }
}

/// Sets what an event is watched for. Nothing changes where it doesn't watch.
pub(crate) fn set_flags(nodes: &mut Arena<Node>, x: u64, flags: u32)
    ensures nodes { (q : ℕ) → map.get nodes.new.pairs q ≡ cond (nat_eq x q) (option_map (with_flags flags) (map.get nodes.old.pairs q)) (map.get nodes.old.pairs q) }
    ensures len { map.len nodes.new.pairs ≡ map.len nodes.old.pairs }
    ensures spare { nodes.new.spare ≡ nodes.old.spare }
{
    if let Some(node) = nodes.get_mut(x) {
        node.flags = flags;
    }
}

/// Marks the descriptor of an event to be closed with it. Nothing changes where it doesn't watch.
pub(crate) fn set_closing(nodes: &mut Arena<Node>, x: u64)
    ensures nodes { (q : ℕ) → map.get nodes.new.pairs q ≡ cond (nat_eq x q) (option_map with_closing (map.get nodes.old.pairs q)) (map.get nodes.old.pairs q) }
    ensures len { map.len nodes.new.pairs ≡ map.len nodes.old.pairs }
    ensures spare { nodes.new.spare ≡ nodes.old.spare }
{
    if let Some(node) = nodes.get_mut(x) {
        node.closes = true;
    }
}

/// An event has no context any more. Nothing changes where it doesn't watch.
pub(crate) fn set_lost(nodes: &mut Arena<Node>, x: u64)
    ensures nodes { (q : ℕ) → map.get nodes.new.pairs q ≡ cond (nat_eq x q) (option_map with_loss (map.get nodes.old.pairs q)) (map.get nodes.old.pairs q) }
    ensures len { map.len nodes.new.pairs ≡ map.len nodes.old.pairs }
    ensures spare { nodes.new.spare ≡ nodes.old.spare }
{
    if let Some(node) = nodes.get_mut(x) {
        node.context = None;
    }
}
