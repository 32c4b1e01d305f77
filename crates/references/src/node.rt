//! What is kept of a reference: its target, and its neighbours among the references to that target.
ghost use Rattle.std.specs.Prelude.{◌≡◌, ℕ, cond};
ghost use Rattle.std.specs.Option.{option_map};
ghost use Rattle.pool_arena.specs.Arena.{get};
ghost use Rattle.linked_lanes.specs.Lane.{is_at};
ghost use Rattle.references.specs.Linked.{with_link};

use linked_lanes::{Link, Sides};
use pool_arena::Arena;

/// A reference: the number of the object that it refers to, and its neighbours among the references to that object.
#[derive(Clone, Copy)]
pub(crate) struct Node {
    pub target: u64,
    pub sides: Sides,
}

/// Notes another neighbour of a reference. Nothing changes where there is no such reference.
pub(crate) fn set_link(nodes: &mut Arena<Node>, at: Option<u64>, link: Link)
    ensures nodes { (q : ℕ) → get nodes.new q ≡ cond (is_at at q) (option_map (with_link link) (get nodes.old q)) (get nodes.old q) }
    ensures spare { nodes.new.spare ≡ nodes.old.spare }
{
    if let Some(reference) = at
        && let Some(node) = nodes.get_mut(reference)
    {
        node.sides.note(link);
    }
}
