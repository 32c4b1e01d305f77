//! The kinds of objects.
ghost use Rattle.std.specs.Prelude.{◌≡◌};
ghost use Rattle.tree_specs.specs.Tree.Targets.{target_of};

use crate::object::Obj;

/// What an object is.
#[derive(Clone, Copy, PartialEq, Eq)]
pub enum Kind {
    /// A plain object, as `talloc_new` makes it. Only such have destructors.
    Plain,
    /// A reference to an object, as `talloc_reference` makes it.
    Reference { target: Obj },
    /// An event at a time.
    Timer,
    /// An event that comes as soon as it can.
    Immediate,
    /// An event on a descriptor.
    Descriptor,
    /// A request, as `tevent_req_create` makes it.
    Request,
    /// A queue of requests.
    Queue,
    /// The place of a request in a queue.
    Entry,
    /// A context (`struct tevent_context`): events, requests and queues come in a turn of theirs.
    Context,
}

impl Kind {
    /// What a reference refers to. None exactly where it is no reference.
    pub fn target(&self) -> Option<Obj>
        ensures { result ≡ target_of self.now }
    {
        match self {
            Kind::Reference { target } => Some(*target),
            _ => None,
        }
    }
}
