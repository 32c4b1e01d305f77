//! What is to be freed later, or is being freed.
ghost use Rattle.std.specs.Prelude.{◌≡◌};
ghost use Rattle.tree_specs.specs.Calls.Refusals.{is_doomed_mark};

use tree_specs::Mark;

/// Whether an object is being freed, or is to be once its handler or its turn is over.
pub fn is_doomed(mark: Mark) -> bool
    ensures { result ≡ is_doomed_mark mark }
{
    matches!(mark, Mark::Doomed | Mark::Dying(_))
}
