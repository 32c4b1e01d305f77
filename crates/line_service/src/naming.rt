//! What the numbers of a line may name: plain objects inside the session of its connection.
ghost use Rattle.std.specs.Prelude.{◌≡◌, Some, None, true};
ghost use Rattle.service_rules.specs.Lines.{is_served, IsServed};
ghost use Rattle.service_rules.specs.Naming as rules;
ghost use Rattle.line_service.specs.Steps.{strange_in};

use host_core::Host;
use service_rules::Order;
use tree_specs::{Call, Kind, Obj, Owner};

/// Whether an object is a plain one.
fn is_plain(host: &Host, x: Obj) -> bool
    ensures { result ≡ rules.is_plain_at host.now.pool x }
{
    matches!(host.kind(x), Some(Kind::Plain))
}

/// Whether a line of this session may name an object: a plain one inside the session, and not the session itself.
fn may_name(host: &Host, session: Obj, x: Obj) -> bool
    ensures { result ≡ rules.may_name host.now.pool session x }
{
    x != session && is_plain(host, x) && host.is_inside(x, session)
}

/// The object, where a line may not name it.
fn stranger(host: &Host, session: Obj, x: Obj) -> Option<Obj>
    ensures { result ≡ rules.unless_named host.now.pool session (Some x) None }
{
    if may_name(host, session, x) {
        None
    } else {
        Some(x)
    }
}

/// The owner, where a line may not name it. The owner 0 is the session.
fn strange_owner(host: &Host, session: Obj, owner: Owner) -> Option<Obj>
    ensures { result ≡ rules.unless_named host.now.pool session (rules.named_owner owner) None }
{
    match owner {
        Owner::Root => None,
        Owner::Of(x) => stranger(host, session, x),
    }
}

/// The owner, where a line may not name it, or else the object, where it may not name that.
fn strange_pair(host: &Host, session: Obj, owner: Owner, x: Obj) -> Option<Obj>
    ensures { result ≡ rules.unless_named host.now.pool session (rules.named_owner owner) (rules.unless_named host.now.pool session (Some x) None) }
{
    match strange_owner(host, session, owner) {
        Some(found) => Some(found),
        None => stranger(host, session, x),
    }
}

/// The first object that the call of a line names and the line may not name. The numbers are tried in the order in which
/// they stand in the line.
fn stranger_in(host: &Host, session: Obj, call: &Call) -> Option<Obj>
    requires { is_served call.now ≡ true }
    ensures { result ≡ rules.stranger_in host.now.pool session call.now }
{
    match call {
        Call::New { owner, .. } | Call::Total { owner } => strange_owner(host, session, *owner),
        Call::Steal { owner, x } | Call::Reference { owner, x } | Call::Unlink { owner, x } => {
            strange_pair(host, session, *owner, *x)
        }
        Call::Free { x } | Call::Hook { x, .. } | Call::Unhook { x } | Call::Parent { x } => {
            stranger(host, session, *x)
        }
        _ => None,
    }
}

/// The first object that a line names and may not name.
pub fn strange_name(host: &Host, session: Obj, order: &Order) -> Option<Obj>
    requires { IsServed order.now }
    ensures { result ≡ strange_in host.now.pool session order.now }
{
    match order {
        Order::Call(call) => stranger_in(host, session, call),
        Order::Sleep(_) | Order::Job(_) => None,
    }
}
