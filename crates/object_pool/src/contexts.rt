//! Which contexts are usable.
ghost use Rattle.std.specs.Prelude.{◌≡◌};
ghost use Rattle.tree_specs.specs.Tree.Pool.{is_usable};

use tree_links::Tree;
use tree_specs::{Kind, Mark, Obj};

/// Whether something may come in a context: it is the first one, or one that neither is being freed nor will be after its
/// turn.
pub fn is_usable(context: Obj, tree: &Tree) -> bool
    ensures { result ≡ is_usable tree.now.rows context }
{
    context == Obj::first_context()
        || tree.row(context).is_some_and(|row| {
            matches!(row.kind, Kind::Context) && matches!(row.mark, Mark::Quiet | Mark::Busy)
        })
}
