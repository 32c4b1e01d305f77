//! What is at work in a host, above all that waits.
ghost use Rattle.std.specs.Prelude.{◌≡◌, ◌↔◌, IsSome, IsTrue, List, Some, is_none};
ghost use Rattle.tree_specs.specs.declared.question.Ask.TheVariants.{Quiet};
ghost use Rattle.std.specs.Option.{option_copied};
ghost use Rattle.tree_specs.specs.Texts.Schedule.{misfit};
ghost use Rattle.host_core.specs.Hosts.{asked_now, caller_asked, view_of, speaking_view, IsSettled};
ghost use Rattle.host_core.specs.Requests.{work_speaks};
ghost use Rattle.host_core.specs.Turns.{turn_speaks};
ghost use Rattle.host_core.specs.declared.waiting.Waiting.{Waiting as WaitingData};

use crate::caller::{Caller, Stage};
use crate::reach::takes;
use crate::turn::Turn;
use crate::work::Work;
use object_pool::ObjectPool;
use std::mem;
use tree_specs::{Ask, Input, TurnFrame};

/// What is at work, above all that waits.
#[derive(Drop)]
pub enum Active {
    /// A caller: the host's own, or a routine that runs.
    Caller(Caller),
    /// The innermost free.
    Freeing,
    /// A turn of the event loop.
    Turning(Turn),
    /// A question to the outside.
    Reaching(Ask),
    /// The work of a request, or of a queue.
    Requesting(Work),
}

/// Whether a turn tells or asks something next.
fn turn_speaks(frame: TurnFrame) -> bool
    ensures { result ≡ turn_speaks frame }
{
    matches!(
        frame,
        TurnFrame::Timing { .. } | TurnFrame::Polling { .. } | TurnFrame::Firing { .. }
    )
}

/// Whether the work of a request or of a queue tells something next.
fn work_speaks(work: Work, objects: &ObjectPool) -> bool
    ensures { result ≡ work_speaks work objects.now.pool }
{
    match work {
        Work::Finishing { .. } | Work::Calling { .. } => true,
        Work::Receiving { x } => objects.is_unreceived(x),
        Work::Triggering { queue } => objects.queue_waits(queue),
        _ => false,
    }
}

impl Active {
    /// Takes it out of its place, where a free stands then: this is to be written over.
    #[inline(always)]
    pub fn take(&mut self) -> Active
        ensures { result ≡ self.old }
    {
        mem::replace(self, Active::Freeing)
    }

    /// Takes out the question of the caller that was asked. What stays in its place is to be written over.
    #[inline(always)]
    pub fn take_ask(&mut self) -> Ask
        requires { IsSome (caller_asked self.old) }
        ensures { caller_asked self.old ≡ Some result }
    {
        match self.take() {
            Active::Caller(Caller { ask, .. }) => ask,
            _ => unreachable!(),
        }
    }

    /// The question of the caller that was asked.
    #[inline(always)]
    pub fn asked(&self) -> &Ask
        requires { IsSome (caller_asked self.now) }
        ensures { caller_asked self.now ≡ Some result.now }
    {
        match self {
            Active::Caller(caller) => &caller.ask,
            _ => unreachable!(),
        }
    }

    /// The question that is open. None where none is.
    pub fn question(&self) -> Option<&Ask>
        ensures { option_copied result ≡ asked_now self.now }
    {
        match self {
            Active::Caller(
                Caller {
                    ask,
                    stage: Stage::Asking,
                },
            ) => Some(ask),
            Active::Turning(turn) => turn.question.as_ref(),
            Active::Reaching(question) => Some(question),
            _ => None,
        }
    }

    /// Whether the host's own caller is asked for a call.
    pub fn is_quiet(&self) -> bool
        ensures { IsTrue result ↔ (asked_now self.now ≡ Some Quiet) }
    {
        matches!(self.question(), Some(Ask::Quiet))
    }

    /// Whether a question is open that takes such an answer.
    pub fn takes(&self, input: &Input) -> bool
        ensures { result ≡ is_none (misfit (asked_now self.now) input.now) }
    {
        match self.question() {
            Some(ask) => takes(ask, input),
            None => false,
        }
    }

    /// Whether an event or a question comes with the next step.
    pub fn speaks(&self, objects: &ObjectPool) -> bool
        requires { IsSettled self.now objects.now }
        ensures { (waiting : List WaitingData) → result ≡ speaking_view (view_of self.now waiting objects.now) }
    {
        match self {
            Active::Caller(_) | Active::Reaching(_) => true,
            Active::Freeing => objects.announces(),
            Active::Turning(turn) => turn_speaks(turn.frame),
            Active::Requesting(work) => work_speaks(*work, objects),
        }
    }
}
