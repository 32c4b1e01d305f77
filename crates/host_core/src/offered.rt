//! The answer to what was asked: a caller's call, what a routine does, or what the outside tells.
ghost use Rattle.std.specs.Prelude.{◌≡◌, ◌*◌, ◌≤◌, true, is_none, reverse, List, None, Some, IsSome};
ghost use Rattle.tree_specs.specs.Tree.Pool.{Pool as PoolData};
ghost use Rattle.tree_specs.specs.Invariants.Consistent.{IsConsistent};
ghost use Rattle.tree_specs.specs.Texts.Schedule.{misfit};
ghost use Rattle.host_core.specs.Moves.{move_of, telling, ReadyFor, report_of};
ghost use Rattle.host_core.specs.Stacks.{Fits, active_frame};
ghost use Rattle.host_core.specs.Steps.{step_of, IsBusy};
ghost use Rattle.host_core.specs.Going.{with_objects, step_places, StepReady, StepAnswers, BeginsWith};
ghost use Rattle.object_pool.specs.Objects.{Objects as ObjectsData};
ghost use Rattle.host_core.specs.Turns.{turn_asks, turn_given};
ghost use Rattle.host_core.specs.declared.active.Active.{Active as ActiveData};
ghost use Rattle.host_core.specs.declared.short_reply.ShortReply.{ShortReply as ShortReplyData};
ghost use Rattle.host_core.specs.declared.waiting.Waiting.{Waiting as WaitingData};
ghost use Rattle.tree_specs.specs.declared.frame.Frame.TheVariants as frames;
ghost use Rattle.tree_specs.specs.declared.call.Call.{Call as CallData};
ghost use Rattle.tree_specs.specs.declared.question.Ask.{Ask as AskData};
ghost use Rattle.host_core.specs.Hosts.{ComesTo, caller_asked, host_view, given_view, speaking_view, HasRoom, IsActing, MayTake, called_view, returning_view, IsBetweenSteps, TellsSameStory};

use crate::active::Active;
use crate::answer::Answer;
use crate::caller::Caller;
use crate::calls::act;
use crate::motion::Motion;
use crate::parts::Parts;
use crate::reach::heard;
use crate::short_reply::ShortReply;
use crate::step::Step;
use crate::turn::Turn;
use crate::turns::looked;
use crate::waiting::Waiting;
use crate::work::Work;
use crate::works::{end, go_on, settle_on};
use object_pool::ObjectPool;
use tree_specs::{Act, Ask, Call, Input, TurnFrame};

/// A turn of a context that has begun looks what comes first. The host's own caller waits for it.
fn turn() -> Step
    ensures step { (p : PoolData) → step_of result p ≡ move_of Ask.Quiet Motion.Turns p }
    ensures busy { IsBusy result }
    ensures places { step_places result ≤ 4 }
    ensures ready { (o : ObjectsData) → o.ready ≡ true → StepReady result o }
    ensures answers { (ws : List WaitingData) (o : ObjectsData) → StepAnswers result ws o }
{
    let turn = Active::Turning(Turn::new(TurnFrame::Taking));
    Step::Calls(turn, Waiting::Turning { ask: Ask::Quiet })
}

/// The reply to the call of the caller that was asked comes next.
fn replies(ask: Ask, reply: ShortReply) -> Step
    ensures step { (p : PoolData) → step_of result p ≡ move_of ask (Motion.Replies reply) p }
    ensures busy { IsBusy result }
    ensures places { step_places result ≤ 4 }
    ensures ready { (o : ObjectsData) → StepReady result o }
    ensures answers { (ws : List WaitingData) (o : ObjectsData) → StepAnswers result ws o }
{
    Step::Goes(Active::Caller(Caller::after(ask, reply)))
}

/// A caller that was asked goes on with what its call does first.
fn call_step(ask: Ask, motion: Motion) -> Step
    ensures step { (p : PoolData) → step_of result p ≡ move_of ask motion p }
    ensures busy { IsBusy result }
    ensures places { step_places result ≤ 4 }
    ensures ready { (o : ObjectsData) → ReadyFor motion o.ready → StepReady result o }
    ensures answers { (ws : List WaitingData) (o : ObjectsData) → StepAnswers result ws o }
{
    match motion {
        Motion::Replies(reply) => replies(ask, reply),
        Motion::Announces(notice, reply) => {
            Step::Goes(Active::Caller(Caller::announcing(ask, notice, reply)))
        }
        Motion::Frees(x) => Step::Frees(x, Waiting::Awaiting { ask, x }),
        Motion::Unlinks(owner, x) => Step::Unlinks(owner, x, Waiting::Awaiting { ask, x }),
        Motion::Empties(x) => Step::Empties(x, Waiting::Awaiting { ask, x }),
        Motion::Asks(question) => {
            Step::Calls(Active::Reaching(question), Waiting::Turning { ask })
        }
        Motion::Turns => turn(),
        Motion::Works(errand, x) => {
            let work = Active::Requesting(Work::of(errand, x));
            Step::Calls(work, Waiting::Requesting { ask })
        }
    }
}

/// What is still to do of a turn once it was told the time, in microseconds, or which descriptors are ready.
#[tactic(auto, using(crate::proofs::Turning::looked_given))]
fn turn_given(frame: TurnFrame, input: &Input, objects: &ObjectPool) -> TurnFrame
    requires { is_none (misfit (turn_asks frame) input.now) ≡ true }
    ensures { result ≡ turn_given frame input.now objects.now.pool }
{
    match (frame, input) {
        (TurnFrame::Timing { again }, Input::Clock(now)) => TurnFrame::Timed { again, now: *now },
        (_, Input::Ready(list)) => looked(objects.ready(list)),
        _ => frame,
    }
}

/// Goes on with an answer that no caller gives: in a turn, or in a call that asked the outside.
fn answered(now: Active, input: Input, parts: &mut Parts) -> Active
    requires taken { MayTake now input parts.old }
    requires outside { IsActing input → ⊥ }
    ensures along { TellsSameStory (given_view now input parts.old) (host_view result parts.new) }
    ensures ready { IsBetweenSteps result parts.new }
{
    match now {
        Active::Turning(turn) => {
            Active::Turning(Turn::new(turn_given(turn.frame, &input, &parts.objects)))
        }
        Active::Reaching(_question) => {
            let reply = heard(input, &mut parts.objects);
            end(Answer::Heard(reply), parts)
        }
        _other => unreachable!(),
    }
}

/// Makes the reply come next to the caller that was asked. The caller stays where it is: moving one costs more than
/// most calls do.
fn reply_on(now: &mut Active, reply: ShortReply)
    requires { IsSome (caller_asked now.old) }
    ensures { (q : AskData) → caller_asked now.old ≡ Some q → active_frame now.new ≡ frames.Call (telling q reply) }
{
    match now {
        Active::Caller(caller) => caller.reply(reply),
        _ => unreachable!(),
    }
}

/// Goes on with what a call does first, up to the next event or question.
#[inline(always)]
fn begin_on(now: &mut Active, motion: Motion, parts: &mut Parts)
    requires asked { IsSome (caller_asked now.old) }
    requires begins { (q : AskData) → caller_asked now.old ≡ Some q → (c : CallData) × (o : ObjectsData) × BeginsWith q c o motion parts.old }
    ensures along { (q : AskData) (c : CallData) (o : ObjectsData) → caller_asked now.old ≡ Some q → BeginsWith q c o motion parts.old → TellsSameStory (called_view q (Input.Call c) (with_objects o parts.old)) (host_view now.new parts.new) }
    ensures ready { IsBetweenSteps now.new parts.new }
    ensures settled { speaking_view (host_view now.new parts.new) ≡ true }
{
    let ask = now.take_ask();
    let next = go_on(call_step(ask, motion), parts);
    settle_on(now, next, parts);
}

/// Does a call for the caller that was asked, up to the next event or question. Where this is the reply it is given,
/// and the caller stands where it was asked: to put the reply there, and to take it out again, costs more than many
/// calls do.
#[inline(never)]
pub fn begin_call(now: &mut Active, call: Call, parts: &mut Parts) -> Option<ShortReply>
    requires asked { IsSome (caller_asked now.old) }
    requires no_report { report_of call ≡ None }
    requires fit { Fits parts.old.objects.works (reverse parts.old.waiting.items) }
    requires whole { (q : AskData) → caller_asked now.old ≡ Some q → IsConsistent (called_view q (Input.Call call) parts.old) }
    requires room { HasRoom parts.old }
    ensures asked { IsSome result → now.new ≡ now.old }
    ensures replied { (q : AskData) (reply : ShortReplyData) (next : ActiveData) → caller_asked now.old ≡ Some q → result ≡ Some reply → active_frame next ≡ frames.Call (telling q reply) → ComesTo (called_view q (Input.Call call) parts.old) next parts.new }
    ensures begun { (q : AskData) → caller_asked now.old ≡ Some q → result ≡ None → ComesTo (called_view q (Input.Call call) parts.old) now.new parts.new }
{
    match act(now.asked(), call, &mut parts.objects) {
        Motion::Replies(reply) => Some(reply),
        begins => {
            begin_on(now, begins, parts);
            None
        }
    }
}

/// Does a call for the caller that was asked, up to the next event or question. A reply is one.
fn call_on(now: &mut Active, call: Call, parts: &mut Parts)
    requires asked { IsSome (caller_asked now.old) }
    requires no_report { report_of call ≡ None }
    requires fit { Fits parts.old.objects.works (reverse parts.old.waiting.items) }
    requires whole { (q : AskData) → caller_asked now.old ≡ Some q → IsConsistent (called_view q (Input.Call call) parts.old) }
    requires room { HasRoom parts.old }
    ensures along { (q : AskData) → caller_asked now.old ≡ Some q → TellsSameStory (called_view q (Input.Call call) parts.old) (host_view now.new parts.new) }
    ensures ready { IsBetweenSteps now.new parts.new }
    ensures settled { speaking_view (host_view now.new parts.new) ≡ true }
{
    if let Some(reply) = begin_call(now, call, parts) {
        reply_on(now, reply);
    }
}

/// Goes on with whoever waited for a routine, which has returned, up to the next event or question.
#[inline(never)]
fn return_on(now: &mut Active, value: u32, parts: &mut Parts)
    requires fit { Fits parts.old.objects.works (reverse parts.old.waiting.items) }
    requires whole { IsConsistent (returning_view value parts.old) }
    requires room { HasRoom parts.old }
    ensures along { TellsSameStory (returning_view value parts.old) (host_view now.new parts.new) }
    ensures ready { IsBetweenSteps now.new parts.new }
    ensures settled { speaking_view (host_view now.new parts.new) ≡ true }
{
    let next = end(Answer::Returned(value), parts);
    settle_on(now, next, parts);
}

/// Goes on with an answer that no caller gives, up to the next event or question.
#[inline(never)]
fn hear(now: &mut Active, input: Input, parts: &mut Parts)
    requires taken { MayTake now.old input parts.old }
    requires outside { IsActing input → ⊥ }
    ensures along { TellsSameStory (given_view now.old input parts.old) (host_view now.new parts.new) }
    ensures ready { IsBetweenSteps now.new parts.new }
    ensures settled { speaking_view (host_view now.new parts.new) ≡ true }
{
    let next = answered(now.take(), input, parts);
    settle_on(now, next, parts);
}

/// Lets whoever was asked go on with the answer, up to the next event or question. The answer takes no memory of its
/// own: it is neither a report nor bytes.
pub fn answer_on(now: &mut Active, input: Input, parts: &mut Parts)
    requires { MayTake now.old input parts.old }
    ensures along { TellsSameStory (given_view now.old input parts.old) (host_view now.new parts.new) }
    ensures ready { IsBetweenSteps now.new parts.new }
    ensures settled { speaking_view (host_view now.new parts.new) ≡ true }
{
    match input {
        Input::Call(call) => call_on(now, call, parts),
        Input::Act(Act::Do(call)) => call_on(now, call, parts),
        Input::Act(Act::Ret(value)) => return_on(now, value, parts),
        other => hear(now, other, parts),
    }
}
