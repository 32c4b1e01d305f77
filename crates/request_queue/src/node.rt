//! What is kept of an entry: its queue, its request and its trigger, and its neighbours in the queue.
ghost use Rattle.std.specs.Prelude.{◌≡◌, ℕ, cond, nat_eq};
ghost use Rattle.std.specs.FinMap as map;
ghost use Rattle.std.specs.Option.{option_map};
ghost use Rattle.pool_arena.specs.Arena.{get};
ghost use Rattle.linked_lanes.specs.Lane.{is_at};
ghost use Rattle.request_queue.specs.Linked.{with_link, begun, turn_in, waiting_first};

use crate::queues::Turn;
use linked_lanes::{Link, Sides};
use pool_arena::Arena;
use tree_specs::QueueEntry;

/// An entry, and its neighbours in its queue.
#[derive(Clone, Copy)]
pub(crate) struct Node {
    pub entry: QueueEntry,
    pub sides: Sides,
}

/// Notes another neighbour of an entry. Nothing changes where none is given, or where that is no entry.
pub(crate) fn set_link(nodes: &mut Arena<Node>, at: Option<u64>, link: Link)
    ensures nodes { (q : ℕ) → get nodes.new q ≡ cond (is_at at q) (option_map (with_link link) (get nodes.old q)) (get nodes.old q) }
    ensures len { map.len nodes.new.pairs ≡ map.len nodes.old.pairs }
    ensures spare { nodes.new.spare ≡ nodes.old.spare }
{
    if let Some(entry) = at
        && let Some(node) = nodes.get_mut(entry)
    {
        node.sides.note(link);
    }
}

/// Begins the trigger of an entry. None exactly where it is none.
pub(crate) fn begin(nodes: &mut Arena<Node>, entry: u64) -> Option<Turn>
    ensures turn { result ≡ option_map turn_in (get nodes.old entry) }
    ensures nodes { (q : ℕ) → get nodes.new q ≡ cond (nat_eq entry q) (option_map begun (get nodes.old q)) (get nodes.old q) }
    ensures spare { nodes.new.spare ≡ nodes.old.spare }
{
    match nodes.get_mut(entry) {
        None => None,
        Some(node) => {
            node.entry.triggered = true;
            Some(Turn {
                request: node.entry.request,
                trigger: node.entry.trigger,
            })
        }
    }
}

/// The first entry of a queue, where its trigger hasn't begun.
pub(crate) fn waiting(nodes: &Arena<Node>, first: Option<u64>) -> Option<u64>
    ensures { result ≡ waiting_first (get nodes.now) first }
{
    let Some(entry) = first else {
        return None;
    };
    match nodes.get(entry) {
        None => None,
        Some(node) => {
            if node.entry.triggered {
                None
            } else {
                Some(entry)
            }
        }
    }
}
