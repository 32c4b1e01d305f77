//! The works that may be open, by what is still to do of each. The table of the rules (`specs/Machine`) goes by them.
use crate::call::Call;
use crate::free_step::FreeReply;
use crate::handler::Handler;
use crate::moment::What;
use crate::notice::Notice;
use crate::object::{Obj, Owner};
use crate::occasion::Occasion;
use crate::question::Ask;
use crate::reply::Reply;
use crate::request::State;

/// What is still to do of one open work. Works stand on one another, the innermost in front.
#[derive(Drop)]
pub enum Frame {
    Call(CallFrame),
    Free(FreeFrame),
    Turn(TurnFrame),
    Outside(OutsideFrame),
    Request(RequestFrame),
}

/// What is still to do for a caller, which does one call after another. A caller is known by the question that it is
/// asked: Quiet is the host's own caller, Routine a routine that runs.
#[derive(Drop)]
pub enum CallFrame {
    /// The question is to be asked.
    Asking {
        ask: Ask,
    },
    /// The question was answered with this call, which is to be done.
    Doing {
        ask: Ask,
        call: Call,
    },
    /// The call waits for the freeing of `x`, or of its children.
    Awaiting {
        ask: Ask,
        x: Obj,
    },
    /// The call waits for a turn of the event loop, or for what the outside answers.
    Turning {
        ask: Ask,
    },
    /// The call waits for the work of a request.
    Requesting {
        ask: Ask,
    },
    /// The reply is to be told, and the next question comes after it.
    Telling {
        ask: Ask,
        reply: Reply,
    },
    /// The notice is to be told, then the reply, and the next question comes after it.
    Announcing {
        ask: Ask,
        notice: Notice,
        reply: Reply,
    },
    /// The routine has returned this number.
    Returning {
        value: u32,
    },
}

/// What the children of an object are freed for.
#[derive(Clone, Copy)]
pub enum Purpose {
    /// The object itself is removed after them. `hook` is the destructor that accepted this; 0 is none.
    Removal { hook: u32 },
    /// It stays.
    Emptying,
}

/// What is still to do of one free.
#[derive(Clone, Copy)]
pub enum FreeFrame {
    /// The interest of an owner in `x` is to be taken away: its newest reference goes, or it gives `x` up.
    Unlinking {
        owner: Owner,
        x: Obj,
    },
    /// The owner of `x` gives it up: to the owner of the newest reference that isn't inside it, or `x` is freed.
    Releasing {
        x: Obj,
    },
    /// `x` goes to the owner of a reference that was dropped.
    Giving {
        x: Obj,
        owner: Owner,
    },
    /// The freeing of `x` begins.
    Beginning {
        x: Obj,
    },
    /// `x` is to be asked: its destructor is to run. Then it waits for what this returns.
    Hooked {
        x: Obj,
        hook: u32,
    },
    /// The destructor of `x` has returned this number.
    Judged {
        x: Obj,
        hook: u32,
        value: u32,
    },
    /// `x` is a request. Before it leaves its owner it is to be received, where it wasn't yet; it waits until this is
    /// over.
    Preparing {
        x: Obj,
    },
    /// `x` is a queue. Before it leaves its owner its entries are to be freed; it waits until this is over.
    Draining {
        x: Obj,
    },
    /// This is over, and it is to be as before for its freeing to go on.
    Prepared {
        x: Obj,
    },
    /// The handler of `x` runs, and `x` was marked to be freed after it.
    Dooming {
        x: Obj,
    },
    /// `x` is to leave its owner. `hook` is the destructor that accepted this; 0 is none.
    Leaving {
        x: Obj,
        hook: u32,
    },
    /// The children of `x` are to be freed.
    Looping {
        x: Obj,
        purpose: Purpose,
    },
    /// `x` waits for the freeing of its child. `noted` is the owner of the newest reference that the child had before.
    FreeingChild {
        x: Obj,
        child: Obj,
        noted: Option<Owner>,
        purpose: Purpose,
    },
    /// The freeing of the child is over. One that wasn't freed is to go to its heir.
    AfterChild {
        x: Obj,
        child: Obj,
        noted: Option<Owner>,
        purpose: Purpose,
        answer: FreeReply,
    },
    /// It is over.
    Ending {
        answer: FreeReply,
    },
}

/// What is still to do of one turn of the event loop.
#[derive(Clone, Copy)]
pub enum TurnFrame {
    /// What comes first is to be looked for.
    Taking,
    /// The clock is to be asked, to know whether the first time has come. `again` where readiness was asked before.
    Timing {
        again: bool,
    },
    /// The clock has told this time.
    Timed {
        again: bool,
        now: u64,
    },
    /// It is to be asked which descriptors are ready, within so many microseconds.
    Polling {
        limit: u64,
    },
    /// `x` has come, and waits no more. Its handler is to run.
    Starting {
        what: What,
        x: Obj,
        occasion: Occasion,
    },
    /// It is to be told that the handler of `x` runs.
    Firing {
        what: What,
        x: Obj,
        handler: Handler,
        occasion: Occasion,
    },
    /// The handler of `x` is to be asked. Then it waits until this has returned.
    Handling {
        what: What,
        x: Obj,
        handler: Handler,
        occasion: Occasion,
    },
    /// The handler of `x` has returned.
    Handled {
        what: What,
        x: Obj,
    },
    /// It waits for the freeing of `x`: a timer, or what was to be freed while its handler ran.
    Clearing {
        x: Obj,
    },
    /// It waits for the work of the request or of the queue `x`, which has come.
    Serving {
        x: Obj,
    },
    /// It waits for the freeing of its context, which was to be freed during the turn. This will be the reply.
    Parting {
        x: Obj,
        value: u64,
    },
    /// It is over, and this is the reply.
    Closing {
        value: u64,
    },
}

/// What is still to do of one question to the outside, which a call asks: the answer is its reply.
#[derive(Drop)]
pub enum OutsideFrame {
    /// The question is to be asked.
    Reaching { ask: Ask },
    /// This descriptor was accepted, and is to be open from now on.
    Opening { fd: u32 },
    /// It is over with this reply.
    Hearing { reply: Reply },
}

/// What is done with a request, step by step.
#[derive(Clone, Copy, PartialEq, Eq)]
pub enum Errand {
    /// It goes to this state, and whoever waits for it is notified (`tevent_req_done` and the like).
    Finish(State),
    /// Whoever waits for it is notified, as its turn has come.
    Notify,
    /// What came of it is taken (`tevent_req_received`).
    Receive,
    /// Its routine for this cancels it (`tevent_req_cancel`).
    Cancel,
}

/// What is still to do of the work of one request, or of one queue.
#[derive(Drop)]
pub enum RequestFrame {
    /// `x` is to go to this state.
    Finishing {
        x: Obj,
        state: State,
    },
    /// `x` is to be received, where it wasn't yet.
    Receiving {
        x: Obj,
    },
    /// `x` is to be cancelled.
    Cancelling {
        x: Obj,
    },
    /// The cleanup of `x` is to run, where it hasn't for this state.
    Cleaning {
        x: Obj,
        errand: Errand,
    },
    /// The cleanup of `x` is over.
    Cleaned {
        x: Obj,
        errand: Errand,
    },
    /// Whoever waits for `x` is to be notified.
    Notifying {
        x: Obj,
        errand: Errand,
    },
    /// It is to be told that this routine of `x` runs.
    Calling {
        what: What,
        x: Obj,
        handler: Handler,
        errand: Errand,
    },
    /// The routine is to be asked. Then it waits until this has returned.
    Called {
        what: What,
        x: Obj,
        handler: Handler,
        errand: Errand,
    },
    /// The queue is to be freed: it doesn't run any more, and its entries are to be freed before it, the first one
    /// first.
    Vacating {
        queue: Obj,
    },
    /// It waits for the freeing of an entry of the queue.
    Dropping {
        queue: Obj,
        entry: Obj,
    },
    /// The turn of the queue has come: the trigger of its first entry is to run, where this waits for it.
    Triggering {
        queue: Obj,
    },
    /// It waits for the freeing of the object that a request was made with.
    Releasing {
        child: Obj,
    },
    /// It is over with this reply.
    Over {
        reply: Reply,
    },
}

/// What a work that is over answers to the work below it.
#[derive(PartialEq, Eq, Drop)]
pub enum Answer {
    /// A free is over.
    Freed(FreeReply),
    /// A routine has returned this number.
    Returned(u32),
    /// A turn is over with this reply.
    Turned(u64),
    /// The outside has answered, or the work of a request is over, and this is the reply.
    Heard(Reply),
}
