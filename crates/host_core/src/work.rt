//! The work of a request, or of a queue, by what is still to do of it.
ghost use Rattle.std.specs.Prelude.{◌≡◌};
ghost use Rattle.tree_specs.specs.Machine.Table.{work_of, request_resume};
ghost use Rattle.tree_specs.specs.Rules.Errands.{reply_to, cancelled_reply};
ghost use Rattle.tree_specs.specs.declared.frame.Frame.TheVariants.{Request};
ghost use Rattle.host_core.specs.Stacks.{answer_of, work_frame};
ghost use Rattle.host_core.specs.Moves.{reply_of};

use crate::answer::Answer;
use crate::short_reply::ShortReply;
use tree_specs::{Errand, Handler, Obj, State, What};

/// What is still to do of the work of one request, or of one queue.
#[derive(Clone, Copy)]
pub enum Work {
    /// `x` is to go to this state, which is told.
    Finishing {
        x: Obj,
        state: State,
    },
    /// `x` is to be received, which is told where it hasn't been.
    Receiving {
        x: Obj,
    },
    /// `x` is to be cancelled.
    Cancelling {
        x: Obj,
    },
    /// The cleanup of `x` is to run, where it hasn't for this state.
    Cleaning {
        x: Obj,
        errand: Errand,
    },
    /// The cleanup of `x` is over.
    Cleaned {
        x: Obj,
        errand: Errand,
    },
    /// Whoever waits for `x` is to be notified.
    Notifying {
        x: Obj,
        errand: Errand,
    },
    /// It is to be told that this routine of `x` runs.
    Calling {
        what: What,
        x: Obj,
        handler: Handler,
        errand: Errand,
    },
    /// The routine is to be asked. Then it waits until this has returned.
    Called {
        what: What,
        x: Obj,
        handler: Handler,
        errand: Errand,
    },
    /// It waits for the freeing of the object that a request was made with.
    Releasing {
        child: Obj,
    },
    /// The queue runs no more, and its entries are to be freed, the first one first.
    Vacating {
        queue: Obj,
    },
    /// It waits for the freeing of an entry of the queue.
    Dropping {
        queue: Obj,
        entry: Obj,
    },
    /// The trigger of the queue's first entry is to run, where this waits for it.
    Triggering {
        queue: Obj,
    },
    /// It is over with this reply.
    Over {
        reply: ShortReply,
    },
}

/// The reply at the end of an errand: only a failure with a number tells one.
pub fn reply_to(errand: Errand) -> ShortReply
    ensures { reply_of result ≡ reply_to errand }
{
    match errand {
        Errand::Finish(State::UserError) => ShortReply::Number(1),
        _ => ShortReply::Ok,
    }
}

/// A routine that cancels has done so where it returns another number than 0.
pub fn cancelled(value: u32) -> ShortReply
    ensures { reply_of result ≡ cancelled_reply value }
{
    ShortReply::Number(u64::from(value != 0))
}

impl Work {
    /// The first that is to do of an errand.
    pub fn of(errand: Errand, x: Obj) -> Work
        ensures { Request (work_frame result) ≡ work_of errand x }
    {
        match errand {
            Errand::Finish(state) => Work::Finishing { x, state },
            Errand::Notify => Work::Notifying { x, errand },
            Errand::Receive => Work::Receiving { x },
            Errand::Cancel => Work::Cancelling { x },
        }
    }

    /// What is still to do once the work above has answered: after a cleanup the errand goes on, and after any other
    /// routine it is over.
    pub fn resumed(self, answer: Answer) -> Work
        ensures { work_frame result ≡ request_resume (work_frame self) (answer_of answer) }
    {
        match self {
            Work::Called {
                what: What::Cleanup,
                x,
                errand,
                ..
            } => Work::Cleaned { x, errand },
            Work::Called {
                what: What::Cancel,
                ..
            } => Work::Over {
                reply: cancelled(answer.value()),
            },
            Work::Called { errand, .. } => Work::Over {
                reply: reply_to(errand),
            },
            Work::Releasing { .. } => Work::Over {
                reply: ShortReply::Ok,
            },
            Work::Dropping { queue, .. } => Work::Vacating { queue },
            _ => self,
        }
    }
}
