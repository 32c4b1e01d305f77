//! Replies to calls, and why a call is refused.
use crate::object::{Obj, Owner};
use crate::octets::Octets;
use crate::report::ReportRows;
use thiserror::Error;

/// Why a call was refused. Nothing has changed but what the freeing of an object did before it.
#[derive(Clone, Copy, Debug, PartialEq, Eq, Error)]
pub enum Refusal {
    /// The number names no object, or no open descriptor.
    #[error("there is no object, and no open descriptor, with the number {0}")]
    NoSuch(u64),
    /// The call takes no object of this kind.
    #[error("the call takes no object of the kind of {0}")]
    WrongKind(Obj),
    /// The object's destructor or handler runs, or the work that comes before its freeing.
    #[error("a destructor or handler of {0} runs")]
    Running(Obj),
    /// There are references to the object.
    #[error("there are references to {0}")]
    Held(Obj),
    /// The object's destructor returned this number, which isn't 0.
    #[error("the destructor of {object} returned {answer}")]
    Refused {
        object: Obj,
        answer: u32,
    },
    /// The owner doesn't own the object, nor a reference to it.
    #[error("{owner} owns neither {object} nor a reference to it")]
    NotParent {
        object: Obj,
        owner: Owner,
    },
    /// The new owner is inside the object, or is it.
    #[error("{owner} is {object}, or inside it")]
    Loop {
        object: Obj,
        owner: Owner,
    },
    /// The object is being freed.
    #[error("{0} is being freed")]
    Dying(Obj),
    /// So many more bytes are needed, and this object's limit has no room for them beside its sum.
    #[error("{wanted} bytes more are wanted inside {row}, which counts {sum} of at most {limit}")]
    OverLimit {
        row: Obj,
        sum: u64,
        wanted: u64,
        limit: u64,
    },
    /// So many objects are live, and the new ones would exceed 1,048,576.
    #[error("{0} objects are live, and no more are possible")]
    Full(u64),
    /// The number 18,446,744,073,709,551,615 would be used.
    #[error("no serial number is left")]
    Spent,
    /// An event has this descriptor.
    #[error("descriptor {0} has an event already")]
    InUse(u32),
    /// The request is in this state.
    #[error("the request {object} is in state {state}")]
    BadState {
        object: Obj,
        state: u32,
    },
    /// The size isn't below 268,435,456 bytes (talloc's bound on one block).
    #[error("{0} bytes are too many for one object")]
    TooBig(u64),
    /// A turn within a routine.
    #[error("a turn within a routine")]
    Nested,
}

/// The reply to a call.
#[derive(PartialEq, Eq, Drop)]
pub enum Reply {
    /// It is done, and there is nothing to say.
    Ok,
    /// A number: of `new` that of the new object.
    Number(u64),
    /// Two numbers: the state of a request and its error.
    Pair(u64, u64),
    /// A report.
    Rows(ReportRows),
    /// The bytes that were read.
    Bytes(Octets),
    /// The descriptor isn't ready.
    Again,
    /// The descriptor has failed.
    Fault,
    /// No more bytes come.
    End,
    /// It was refused.
    No(Refusal),
}
