//! The service's own routines, task by task: what each does next, or waits for.
use crate::answer::Answer;
use tree_specs::{Obj, Refusal};

/// A sleep or job whose line is answered when its request is over.
#[derive(Clone, Copy)]
pub struct Kept {
    /// The session of the connection that its line came on.
    pub session: Obj,
    /// The tag of its line.
    pub tag: u32,
}

/// What accepting a connection does next, or waits for.
#[derive(Clone, Copy)]
pub enum Accepting {
    /// Whoever connects is accepted.
    Accept,
    /// The session of this descriptor is made.
    Session { fd: u32 },
    /// Its event is made.
    Event { fd: u32, session: Obj },
    /// The descriptor is closed with the event.
    Autoclose { fd: u32, session: Obj, event: Obj },
    /// Its queue is made.
    Queue { fd: u32, session: Obj, event: Obj },
    /// There is no event: the session is freed, and then the descriptor is closed.
    Abandon { fd: u32, session: Obj },
    /// There is no session: the descriptor is closed.
    Close { fd: u32 },
    /// There is no queue: the session is freed.
    Free { session: Obj },
}

/// What doing a line does next, or waits for.
#[derive(Clone, Copy)]
pub enum Fulfilling {
    /// Its call is done.
    Call,
    /// The owner of an object is asked for.
    Parent,
    /// A request is made that ends after a delay.
    Sleep { delay: u64 },
    /// The time is asked for, from which on the delay counts.
    Now { request: Obj, delay: u64 },
    /// The request gets its end time.
    EndTime { request: Obj, now: u64, delay: u64 },
    /// A request is made that waits for its turn, and then for a delay.
    Job { delay: u64 },
    /// The request gets its place in the queue.
    Enqueue { request: Obj, delay: u64 },
    /// The request gets its callback.
    Callback { request: Obj },
    /// It was refused for this reason, and the request is freed.
    Undo { request: Obj, why: Refusal },
}

/// What comes of a reply to a line's call.
#[derive(Clone, Copy)]
pub enum Fulfilled {
    /// This comes next.
    Next(Fulfilling),
    /// The line has this answer.
    Answered(Answer),
    /// The line is answered when this request is over.
    Kept(Obj),
}

/// What serving a connection does next, or waits for.
#[derive(Clone, Copy)]
pub enum Serving {
    /// It is read from.
    Read,
    /// The lines that came are done.
    Lines,
    /// A line with this tag is being done.
    Order { tag: u32, at: Fulfilling },
    /// It is written to.
    Write,
    /// Its event waits for what is wanted from now on.
    Flags,
    /// No more comes: the session is freed.
    Leave,
}

/// A request that is over, and the line that is to be answered.
#[derive(Clone, Copy)]
pub struct Notice {
    /// The request.
    pub request: Obj,
    /// The session of the connection that its line came on.
    pub session: Obj,
    /// The tag of its line.
    pub tag: u32,
}

/// What answering the line of a request does next, or waits for.
#[derive(Clone, Copy)]
pub enum Notifying {
    /// How the request has ended is asked for.
    Look,
    /// It is received.
    Receive(Answer),
    /// It is freed.
    Free(Answer),
    /// The event of the connection waits for what is wanted from now on.
    Flags,
}

/// What the turn of a job does next, or waits for.
#[derive(Clone, Copy)]
pub enum Triggering {
    /// The time is asked for, from which on the delay counts.
    Now { request: Obj, delay: u64 },
    /// The request gets its end time.
    EndTime { request: Obj, now: u64, delay: u64 },
    /// It got none: it ends without memory.
    Oom { request: Obj },
}

/// What a run of one of the service's own routines does next, or waits for.
#[derive(Clone, Copy)]
pub enum Task {
    /// A connection is accepted.
    Accept(Accepting),
    /// The connection of this session is read from and written to.
    Serve { session: Obj, at: Serving },
    /// A request is over, and its line is answered.
    Notify { notice: Notice, at: Notifying },
    /// The turn of a job of this session has come.
    Trigger { session: Obj, at: Triggering },
    /// It returns.
    Return,
}

/// A run of a routine that has done a call.
#[derive(Clone, Copy)]
pub enum Run {
    /// One of the service's own. The replies to its calls are not told.
    Own(Task),
    /// One that the outside answers.
    Outside,
}
