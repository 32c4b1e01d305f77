//! Which calls say a context.

ghost use Rattle.std.specs.Prelude.{◌≡◌};
ghost use Rattle.text_forms.specs.Contexts.{is_in_context};

use tree_specs::Call;

/// Whether a call says a context in version 2, behind its other fields. In version 1 no call does, and these calls are in
/// the first context.
pub fn is_in_context(call: &Call) -> bool
    ensures { result ≡ is_in_context call.now }
{
    matches!(
        call,
        Call::Schedule { .. }
            | Call::Timer { .. }
            | Call::Fd { .. }
            | Call::Defer { .. }
            | Call::Post { .. }
            | Call::Endtime { .. }
            | Call::Enqueue { .. }
            | Call::Pending { .. }
            | Call::Turn { .. }
    )
}
