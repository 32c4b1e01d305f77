//! What is kept of an object that comes soon: its context, and its neighbours there.
ghost use Rattle.std.specs.Prelude.{◌≡◌, ℕ, cond};
ghost use Rattle.std.specs.Option.{option_map};
ghost use Rattle.std.specs.FinMap as map;
ghost use Rattle.linked_lanes.specs.Lane.{is_at};
ghost use Rattle.linked_lanes.specs.Chain.{noted};
ghost use Rattle.immediates.specs.Linked.{sides_at, context_at};

use linked_lanes::{Link, Sides};
use pool_arena::Arena;

/// The place of one that comes soon.
#[derive(Clone, Copy)]
pub(crate) struct Node {
    /// The number of the context in which it comes.
    pub context: u64,
    /// Its neighbours among those of that context.
    pub sides: Sides,
}

/// Notes another neighbour of one that waits. Nothing changes where none is given, or where that one doesn't wait.
pub(crate) fn set_link(nodes: &mut Arena<Node>, at: Option<u64>, link: Link)
    ensures sides { (q : ℕ) → sides_at nodes.new.pairs q ≡ cond (is_at at q) (option_map (noted link) (sides_at nodes.old.pairs q)) (sides_at nodes.old.pairs q) }
    ensures contexts { (q : ℕ) → context_at nodes.new.pairs q ≡ context_at nodes.old.pairs q }
    ensures len { map.len nodes.new.pairs ≡ map.len nodes.old.pairs }
    ensures spare { nodes.new.spare ≡ nodes.old.spare }
{
    if let Some(x) = at
        && let Some(node) = nodes.get_mut(x)
    {
        node.sides.note(link);
    }
}
