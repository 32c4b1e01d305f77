//! The open works, step after step: callers, turns, frees and the works of requests, each on the one that waits for it.
ghost use Rattle.std.specs.Prelude.{◌≡◌, ◌*◌, true, false};
ghost use Rattle.host_core.specs.Going.{stepped_view, ended_view, with_objects, is_news, AnswersTo, CameFrom, LeadsOn, MayEnd, MayGoOn, resumed_works};
ghost use Rattle.destructors.specs.Frees.{speaking, Begins};
ghost use Rattle.destructors.specs.Works.{IsAtWork};
ghost use Rattle.object_pool.specs.Objects.{Objects as ObjectsData, frees_in};
ghost use Rattle.host_core.specs.Hosts.{host_view, speaking_view, IsBetweenSteps, TellsSameStory, StepsSilently};

use crate::active::Active;
use crate::answer::Answer;
use crate::caller::Caller;
use crate::calls::freed;
use crate::parts::Parts;
use crate::step::Step;
use crate::turn::Turn;
use crate::turns::turn_step;
use crate::waiting::{Waiting, turn_resumed};
use crate::work::Work;
use crate::working::work_step;
use object_pool::{ObjectPool, Progress};
use tree_specs::FreeStep;

/// Gives the open frees the answer that they have waited for. The innermost one goes on, and is at work.
#[tactic(auto, using(crate::proofs::Resuming::returned_begins, crate::proofs::Resuming::prepared_begins))]
fn free_again(answer: Answer, objects: &mut ObjectPool)
    requires { AnswersTo answer Waiting.Freeing objects.old }
    ensures at_work { IsAtWork (frees_in objects.new) }
    ensures settled { speaking (frees_in objects.new) ≡ true }
    ensures begins { Begins (resumed_works answer objects.old.works) objects.old.pool (frees_in objects.new) }
    ensures requests { objects.new.pool.requests ≡ objects.old.pool.requests }
{
    match answer {
        Answer::Returned(value) => objects.answer(value),
        Answer::Heard(_) => objects.prepared(),
        Answer::Freed(_) | Answer::Turned(_) => unreachable!(),
    }
}

/// Ends the innermost work. The one below it goes on with its answer, and is given.
#[inline(always)]
pub fn end(answer: Answer, parts: &mut Parts) -> Active
    requires { MayEnd answer parts.old }
    ensures along { TellsSameStory (ended_view answer parts.old) (host_view result parts.new) }
    ensures ready { IsBetweenSteps result parts.new }
{
    match parts.waiting.pop() {
        Some(Waiting::Freeing) => {
            free_again(answer, &mut parts.objects);
            Active::Freeing
        }
        Some(Waiting::Awaiting { ask, x }) => {
            Active::Caller(Caller::after(ask, freed(x, answer.of_free())))
        }
        Some(Waiting::Turning { ask } | Waiting::Requesting { ask }) => {
            Active::Caller(Caller::after(ask, answer.reply()))
        }
        Some(Waiting::Turn(frame)) => Active::Turning(Turn::new(turn_resumed(frame))),
        Some(Waiting::Work(work)) => Active::Requesting(work.resumed(answer)),
        None => unreachable!(),
    }
}

/// Carries out what a step leads to, and gives what is at work from then on.
#[inline(always)]
pub fn go_on(step: Step, parts: &mut Parts) -> Active
    requires { MayGoOn step parts.old }
    ensures along { TellsSameStory (stepped_view step parts.old) (host_view result parts.new) }
    ensures ready { IsBetweenSteps result parts.new }
{
    match step {
        Step::Goes(next) => next,
        Step::Calls(first, second) => {
            parts.waiting.push_reserved(second);
            first
        }
        Step::Frees(x, second) => {
            parts.waiting.push_reserved(second);
            parts.objects.begin_free(x);
            Active::Freeing
        }
        Step::Unlinks(owner, x, second) => {
            parts.waiting.push_reserved(second);
            parts.objects.begin_unlink(owner, x);
            Active::Freeing
        }
        Step::Empties(x, second) => {
            parts.waiting.push_reserved(second);
            parts.objects.begin_kids(x);
            Active::Freeing
        }
        Step::Ends(answer) => end(answer, parts),
    }
}

/// Whether the innermost free stays at work after a step.
fn stays_at_work(step: FreeStep) -> bool
    ensures { result ≡ is_news step }
{
    !matches!(
        step,
        FreeStep::Ask(_) | FreeStep::Prepare(_) | FreeStep::Drain(_) | FreeStep::Done(_)
    )
}

/// Leaves the innermost free after a step by which it is at work no more. Gives what it waits for, or the work below it
/// where it is over.
#[inline(always)]
fn leave_free(step: FreeStep, parts: &mut Parts) -> Active
    requires leaves { is_news step ≡ false }
    requires came { (o : ObjectsData) × CameFrom o step parts.old }
    ensures onward { (o : ObjectsData) → CameFrom o step parts.old → StepsSilently (host_view Active.Freeing (with_objects o parts.old)) (host_view result parts.new) }
    ensures ready { IsBetweenSteps result parts.new }
{
    match step {
        FreeStep::Ask(x) => {
            parts.waiting.push_reserved(Waiting::Freeing);
            Active::Caller(Caller::destructor(x, &parts.objects))
        }
        FreeStep::Prepare(x) => {
            parts.waiting.push_reserved(Waiting::Freeing);
            Active::Requesting(Work::Receiving { x })
        }
        FreeStep::Drain(queue) => {
            parts.waiting.push_reserved(Waiting::Freeing);
            Active::Requesting(Work::Vacating { queue })
        }
        FreeStep::Done(answer) => end(Answer::Freed(answer), parts),
        _ => unreachable!(),
    }
}

/// Makes the next step of the open frees, which tells no event.
#[inline(always)]
fn step_quietly(now: &mut Active, parts: &mut Parts)
    requires freeing { now.old ≡ Active.Freeing }
    requires ready { IsBetweenSteps Active.Freeing parts.old }
    requires quiet { speaking_view (host_view Active.Freeing parts.old) ≡ false }
    ensures onward { StepsSilently (host_view Active.Freeing parts.old) (host_view now.new parts.new) }
    ensures ready { IsBetweenSteps now.new parts.new }
{
    let Progress { step, .. } = parts.objects.step();
    if stays_at_work(step) {
        return;
    }
    *now = leave_free(step, parts);
}

/// Goes on with the open frees where this tells no event. That the innermost one is over is looked at first: it needs
/// no step.
#[inline(always)]
fn quiet_free(now: &mut Active, parts: &mut Parts)
    requires freeing { now.old ≡ Active.Freeing }
    requires ready { IsBetweenSteps Active.Freeing parts.old }
    requires quiet { speaking_view (host_view Active.Freeing parts.old) ≡ false }
    ensures onward { StepsSilently (host_view Active.Freeing parts.old) (host_view now.new parts.new) }
    ensures ready { IsBetweenSteps now.new parts.new }
{
    match parts.objects.end_free() {
        Some(answer) => *now = end(Answer::Freed(answer), parts),
        None => step_quietly(now, parts),
    }
}

/// Makes the step that comes next of a turn, or of the work of a request or of a queue, where this tells and asks
/// nothing.
fn quiet_move(active: &Active, parts: &mut Parts) -> Step
    requires ready { IsBetweenSteps active.now parts.old }
    requires quiet { speaking_view (host_view active.now parts.old) ≡ false }
    requires no_free { active.now ≡ Active.Freeing → ⊥ }
    ensures { LeadsOn (host_view active.now parts.old) result parts.new }
{
    match active {
        Active::Turning(turn) => turn_step(turn.frame, &mut parts.objects),
        Active::Requesting(work) => work_step(*work, &mut parts.objects),
        _ => unreachable!(),
    }
}

/// Goes on with what is no free, where this tells and asks nothing.
#[inline(never)]
fn quiet_work(now: &mut Active, parts: &mut Parts)
    requires ready { IsBetweenSteps now.old parts.old }
    requires quiet { speaking_view (host_view now.old parts.old) ≡ false }
    requires no_free { now.old ≡ Active.Freeing → ⊥ }
    ensures onward { StepsSilently (host_view now.old parts.old) (host_view now.new parts.new) }
    ensures ready { IsBetweenSteps now.new parts.new }
{
    let step = quiet_move(now, parts);
    *now = go_on(step, parts);
}

/// Makes a step that tells and asks nothing.
fn quiet_step(now: &mut Active, parts: &mut Parts)
    requires ready { IsBetweenSteps now.old parts.old }
    requires quiet { speaking_view (host_view now.old parts.old) ≡ false }
    ensures onward { StepsSilently (host_view now.old parts.old) (host_view now.new parts.new) }
    ensures ready { IsBetweenSteps now.new parts.new }
{
    match now {
        Active::Freeing => quiet_free(now, parts),
        _ => quiet_work(now, parts),
    }
}

/// Makes the steps that tell nothing, up to the next event or question, of what isn't a caller.
#[inline(never)]
fn settle_works(now: &mut Active, parts: &mut Parts)
    requires { IsBetweenSteps now.old parts.old }
    ensures along { TellsSameStory (host_view now.old parts.old) (host_view now.new parts.new) }
    ensures ready { IsBetweenSteps now.new parts.new }
    ensures settled { speaking_view (host_view now.new parts.new) ≡ true }
{
    while !now.speaks(&parts.objects) {
        quiet_step(now, parts);
    }
}

/// Makes the steps that tell nothing, up to the next event or question. A caller makes none, and most calls come back
/// to one.
#[inline]
pub fn settle(now: &mut Active, parts: &mut Parts)
    requires { IsBetweenSteps now.old parts.old }
    ensures along { TellsSameStory (host_view now.old parts.old) (host_view now.new parts.new) }
    ensures ready { IsBetweenSteps now.new parts.new }
    ensures settled { speaking_view (host_view now.new parts.new) ≡ true }
{
    match now {
        Active::Caller(_) => (),
        _ => settle_works(now, parts),
    }
}

/// Puts this to work, and makes the steps that tell nothing, up to the next event or question.
#[inline(always)]
pub fn settle_on(now: &mut Active, next: Active, parts: &mut Parts)
    requires { IsBetweenSteps next parts.old }
    ensures along { TellsSameStory (host_view next parts.old) (host_view now.new parts.new) }
    ensures ready { IsBetweenSteps now.new parts.new }
    ensures settled { speaking_view (host_view now.new parts.new) ≡ true }
{
    *now = next;
    settle(now, parts);
}
