//! What routines run for, and the moments at which they are asked what they do.
use crate::object::Obj;
use crate::reply::Reply;

/// What a routine runs for.
#[derive(Clone, Copy, PartialEq, Eq)]
pub enum What {
    /// A destructor.
    Hook,
    /// The handler of a timer.
    Timer,
    /// The handler of an immediate.
    Immediate,
    /// The handler of a descriptor's event.
    Descriptor,
    /// A request is over.
    Callback,
    /// A request has gone to a later state.
    Cleanup,
    /// A request is to be cancelled.
    Cancel,
    /// The turn of a queue's entry has come.
    Trigger,
}

/// A moment in the run of a routine, which is asked what it does.
#[derive(PartialEq, Eq, Drop)]
pub struct Moment {
    pub what: What,
    pub object: Obj,
    pub routine: u32,
    /// The number that was given with the routine; of a cleanup the state, of a destructor 0.
    pub user: u64,
    /// The clock's value at a timer, in microseconds, and 0 elsewhere.
    pub now: u64,
    /// The descriptor's flags, and 0 elsewhere.
    pub flags: u32,
    /// How many calls it has done. It stays at 4,294,967,295.
    pub step: u32,
    /// The reply to its last call.
    pub last: Option<Reply>,
}
