//! The steps of a turn of the event loop: one thing comes, its handler runs, and it is quiet again or goes.
ghost use Rattle.std.specs.Prelude.{◌≡◌, true, false};
ghost use Rattle.tree_specs.specs.Machine.Table.{turn_step, come_step, soon_step};
ghost use Rattle.host_core.specs.Turns.{MayTurn, picked_step, looked_frame};
ghost use Rattle.host_core.specs.Steps.{step_of};
ghost use Rattle.host_core.specs.Going.{goes_as, GoesWell, IsTurnStep, IsPlainErrand};
ghost use Rattle.host_core.specs.Hosts.{FrameReady};
ghost use Rattle.host_core.specs.Places.{turn_takes};
ghost use Rattle.tree_specs.specs.declared.frame.TurnFrame.TheVariants.{Starting, Handled, Closing};
ghost use Rattle.tree_specs.specs.Events.Coming.{at_time};
ghost use Rattle.tree_specs.specs.Events.Requests.{is_noted};
ghost use Rattle.tree_specs.specs.Promises.Grounded.{is_asked};
ghost use Rattle.destructors.specs.Moves.{IsLiveRow};

use crate::active::Active;
use crate::answer::Answer;
use crate::caller::Caller;
use crate::step::Step;
use crate::turn::Turn;
use crate::waiting::Waiting;
use crate::work::Work;
use loop_core::Pick;
use object_pool::ObjectPool;
use tree_specs::{Errand, Obj, Occasion, State, TurnFrame, What};

/// A turn goes on with this.
fn goes(frame: TurnFrame) -> Step
    ensures { result ≡ goes_as frame }
{
    Step::Goes(Active::Turning(Turn::new(frame)))
}

/// An event starts, at this time or for these flags, where it has any.
fn starts(what: What, x: Obj, now: u64, flags: u32) -> Step
    ensures { result ≡ goes_as (Starting what x (record { now = now; flags = flags })) }
{
    let occasion = Occasion { now, flags };
    goes(TurnFrame::Starting { what, x, occasion })
}

/// What has come is a request, whose errand is done while the turn waits; or it is an event, which starts.
fn comes(what: What, x: Obj, now: u64, errand: Errand, objects: &ObjectPool) -> Step
    requires plain { IsPlainErrand errand }
    requires ready { objects.now.ready ≡ true }
    ensures step { step_of result objects.now.pool ≡ come_step (is_noted objects.now.pool.requests x) errand what x (at_time now) objects.now.pool }
    ensures goes { GoesWell 3 result objects.now }
    ensures ends { IsTurnStep result }
{
    if objects.note(x).is_none() {
        return starts(what, x, now, 0);
    }
    let work = Active::Requesting(Work::of(errand, x));
    Step::Calls(work, Waiting::Turn(TurnFrame::Serving { x }))
}

/// What has come soon is a queue, which triggers its first entry while the turn waits; or it is a request or an event.
/// No queue is a request.
fn comes_soon(x: Obj, objects: &ObjectPool) -> Step
    requires ready { objects.now.ready ≡ true }
    ensures step { step_of result objects.now.pool ≡ soon_step (is_noted objects.now.pool.requests x) x objects.now.pool }
    ensures goes { GoesWell 3 result objects.now }
    ensures ends { IsTurnStep result }
{
    if objects.note(x).is_some() || objects.queue_running(x).is_none() {
        return comes(What::Immediate, x, 0, Errand::Notify, objects);
    }
    let work = Active::Requesting(Work::Triggering { queue: x });
    Step::Calls(work, Waiting::Turn(TurnFrame::Serving { x }))
}

/// What is done after this was picked, where readiness was asked before, or wasn't.
fn picked(pick: Pick, waited: bool, objects: &ObjectPool) -> Step
    requires ready { objects.now.ready ≡ true }
    ensures step { step_of result objects.now.pool ≡ picked_step waited pick objects.now.pool }
    ensures goes { GoesWell 3 result objects.now }
    ensures ends { IsTurnStep result }
{
    match pick {
        Pick::Soon(x) => comes_soon(x, objects),
        Pick::Time(x, now) => {
            comes(
                What::Timer,
                x,
                now,
                Errand::Finish(State::TimedOut),
                objects,
            )
        }
        Pick::Descriptor(x, flags) => starts(What::Descriptor, x, 0, flags),
        Pick::AskClock => goes(TurnFrame::Timing { again: waited }),
        Pick::AskWait(limit) => goes(TurnFrame::Polling { limit }),
        Pick::Nothing => goes(TurnFrame::Closing { value: 0 }),
    }
}

/// Makes what comes busy, and goes on to tell that its handler runs. Where it has none the turn is over.
fn start(what: What, x: Obj, occasion: Occasion, objects: &mut ObjectPool) -> Step
    requires ready { objects.old.ready ≡ true }
    ensures step { step_of result objects.new.pool ≡ turn_step (Starting what x occasion) objects.old.pool }
    ensures goes { GoesWell 3 result objects.new }
    ensures ends { IsTurnStep result }
    ensures rest { objects.new ≡ record objects.old { pool = objects.new.pool } }
    ensures requests { objects.new.pool.requests ≡ objects.old.pool.requests }
{
    match objects.start(what, x) {
        Some(handler) => goes(TurnFrame::Firing {
            what,
            x,
            handler,
            occasion,
        }),
        None => goes(TurnFrame::Closing { value: 1 }),
    }
}

/// Makes an event quiet again, whose handler has returned. The turn is over, or waits until the event is freed.
fn handled(what: What, x: Obj, objects: &mut ObjectPool) -> Step
    requires live { IsLiveRow objects.old.pool x }
    requires unasked { is_asked objects.old.pool x ≡ false }
    requires ready { objects.old.ready ≡ true }
    ensures step { step_of result objects.new.pool ≡ turn_step (Handled what x) objects.old.pool }
    ensures goes { GoesWell 3 result objects.new }
    ensures ends { IsTurnStep result }
    ensures rest { objects.new ≡ record objects.old { pool = objects.new.pool } }
    ensures requests { objects.new.pool.requests ≡ objects.old.pool.requests }
{
    if objects.finish(what, x) {
        return Step::Frees(x, Waiting::Turn(TurnFrame::Clearing { x }));
    }
    goes(TurnFrame::Closing { value: 1 })
}

/// Ends a turn. Its context is quiet again, or the turn waits until this is freed.
fn close(value: u64, objects: &mut ObjectPool) -> Step
    requires may { MayTurn (Closing value) objects.old.pool }
    requires ready { FrameReady (Closing value) objects.old }
    ensures step { step_of result objects.new.pool ≡ turn_step (Closing value) objects.old.pool }
    ensures goes { GoesWell 2 result objects.new }
    ensures ends { IsTurnStep result }
    ensures rest { objects.new ≡ record objects.old { pool = objects.new.pool } }
    ensures requests { objects.new.pool.requests ≡ objects.old.pool.requests }
{
    match objects.exit() {
        Some(context) => {
            let parting = TurnFrame::Parting { x: context, value };
            Step::Frees(context, Waiting::Turn(parting))
        }
        None => Step::Ends(Answer::Turned(value)),
    }
}

/// Makes the next step of a turn that tells and asks nothing with it.
#[tactic(auto, using(crate::proofs::Turning::taking_picked, crate::proofs::Turning::timed_picked))]
pub fn turn_step(frame: TurnFrame, objects: &mut ObjectPool) -> Step
    requires may { MayTurn frame objects.old.pool }
    requires ready { FrameReady frame objects.old }
    ensures step { step_of result objects.new.pool ≡ turn_step frame objects.old.pool }
    ensures goes { GoesWell (turn_takes frame) result objects.new }
    ensures ends { IsTurnStep result }
    ensures rest { objects.new ≡ record objects.old { pool = objects.new.pool } }
    ensures requests { objects.new.pool.requests ≡ objects.old.pool.requests }
{
    match frame {
        TurnFrame::Taking => {
            let pick = objects.begin_turn();
            picked(pick, false, objects)
        }
        TurnFrame::Timed { again, now } => {
            let pick = objects.clock(now, again);
            picked(pick, again, objects)
        }
        TurnFrame::Starting { what, x, occasion } => start(what, x, occasion, objects),
        TurnFrame::Handling {
            what,
            x,
            handler,
            occasion,
        } => {
            let routine = Active::Caller(Caller::routine(what, x, handler, occasion));
            Step::Calls(routine, Waiting::Turn(frame))
        }
        TurnFrame::Handled { what, x } => handled(what, x, objects),
        TurnFrame::Closing { value } => close(value, objects),
        _ => unreachable!(),
    }
}

/// What is still to do of a turn once it was told which descriptors are ready, and this was picked.
pub fn looked(pick: Pick) -> TurnFrame
    ensures { result ≡ looked_frame pick }
{
    match pick {
        Pick::AskClock => TurnFrame::Timing { again: true },
        Pick::Descriptor(x, flags) => {
            let occasion = Occasion { now: 0, flags };
            let what = What::Descriptor;
            TurnFrame::Starting { what, x, occasion }
        }
        _ => TurnFrame::Closing { value: 0 },
    }
}
