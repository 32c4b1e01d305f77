//! The events that a host tells.
use crate::moment::What;
use crate::object::{Obj, Owner};
use crate::reply::Reply;

/// What the host tells.
#[derive(PartialEq, Eq, Drop)]
pub enum Event {
    /// A call is over.
    Replied(Reply),
    /// A routine begins to run. Of a destructor's run this isn't told.
    Fired {
        what: What,
        object: Obj,
        routine: u32,
    },
    /// The object's destructor returned 0.
    Accepted(Obj),
    /// The object's destructor returned this number, which isn't 0.
    Refused {
        object: Obj,
        answer: u32,
    },
    /// An object goes to another owner, as it wasn't freed with its owner, or as its owner gave it up and another one
    /// had a reference to it.
    Moved {
        object: Obj,
        owner: Owner,
    },
    /// An object that has references was given to another owner.
    Warned(Obj),
    /// An object is no more. `hook` is the destructor that it had, and 0 means none.
    Freed {
        object: Obj,
        hook: u32,
    },
    /// A reference is no more.
    Unreferenced {
        reference: Obj,
        target: Obj,
    },
    /// A descriptor was closed.
    Closed(u32),
    /// A request is in another state.
    State {
        request: Obj,
        state: u32,
    },
}
