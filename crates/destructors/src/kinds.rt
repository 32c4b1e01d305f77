//! Kinds of objects before whose freeing something else comes.
ghost use Rattle.std.specs.Prelude.{◌≡◌};
ghost use Rattle.tree_specs.specs.Calls.Refusals.{is_request, is_queue};

use tree_specs::Kind;

/// Whether it is the kind of requests.
pub fn is_request(kind: Kind) -> bool
    ensures { result ≡ is_request kind }
{
    matches!(kind, Kind::Request)
}

/// Whether it is the kind of queues.
pub fn is_queue(kind: Kind) -> bool
    ensures { result ≡ is_queue kind }
{
    matches!(kind, Kind::Queue)
}
