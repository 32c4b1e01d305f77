//! The steps of a request's work: its state is told, its cleanup runs, and whoever waits for it is notified; and those
//! of a queue's: its first entry is triggered, or its entries are freed before it.
ghost use Rattle.std.specs.Prelude.{◌≡◌, ◌≤◌, true, Some};
ghost use Rattle.tree_specs.specs.declared.event.Event.TheVariants.{State as StateOf};
ghost use Rattle.tree_specs.specs.Events.Requests.{state_number};
ghost use Rattle.tree_specs.specs.Tree.Pool.{Pool as PoolData};
ghost use Rattle.tree_specs.specs.declared.call.Call.TheVariants.{Free as FreeOf};
ghost use Rattle.tree_specs.specs.declared.frame.Errand.TheVariants.{Receive};
ghost use Rattle.tree_specs.specs.declared.frame.RequestFrame.TheVariants.{Cancelling, Cleaning, Cleaned, Notifying, Vacating};
ghost use Rattle.host_core.specs.declared.work.Work.TheVariants.{Triggering as TriggeringWork};
ghost use Rattle.tree_specs.specs.Calls.Plans.{Plan as PlanData, planned};
ghost use Rattle.tree_specs.specs.declared.frame.Errand.{Errand as ErrandData};
ghost use Rattle.tree_specs.specs.Machine.Table.{request_step, release_object, over_step};
ghost use Rattle.object_pool.specs.Objects.{Objects as ObjectsData, MayBeginFree};
ghost use Rattle.object_pool.specs.Requests.{count_unreceived};
ghost use Rattle.requests.specs.Register.{AreInOrder};
ghost use Rattle.host_core.specs.Stacks.{work_frame};
ghost use Rattle.host_core.specs.Steps.{step_of};
ghost use Rattle.host_core.specs.Places.{errand_places, work_places};
ghost use Rattle.host_core.specs.Going.{works_as, GoesWell, IsOngoing, IsWorkStep};
ghost use Rattle.host_core.specs.Requests.{MayWork, ErrandReady, WorkReady, IsFreeing, IsReleaseBy, work_tells, work_told, pool_told};

use crate::active::Active;
use crate::answer::Answer;
use crate::caller::Caller;
use crate::calls::release;
use crate::motion::Motion;
use crate::short_reply::ShortReply;
use crate::step::Step;
use crate::waiting::Waiting;
use crate::work::{Work, cancelled, reply_to};
use object_pool::ObjectPool;
use requests::Notify;
use tree_specs::{Errand, Event, Obj, Occasion, State, What};

/// The work of a request goes on with this.
fn goes(work: Work) -> Step
    ensures { result ≡ works_as work }
{
    Step::Goes(Active::Requesting(work))
}

/// An errand is over.
fn over(errand: Errand) -> Step
    ensures step { (p : PoolData) → step_of result p ≡ over_step errand p }
    ensures goes { (o : ObjectsData) → GoesWell 1 result o }
    ensures ongoing { IsOngoing result }
{
    goes(Work::Over {
        reply: reply_to(errand),
    })
}

/// Goes on to the routine that cancels a request, where it has one and wasn't received.
fn cancel(x: Obj, objects: &ObjectPool) -> Step
    ensures step { step_of result objects.now.pool ≡ request_step (Cancelling x) objects.now.pool }
    ensures goes { GoesWell 1 result objects.now }
    ensures ongoing { IsOngoing result }
{
    match objects.cancel_routine(x) {
        Some(handler) => goes(Work::Calling {
            what: What::Cancel,
            x,
            handler,
            errand: Errand::Cancel,
        }),
        None => goes(Work::Over {
            reply: cancelled(0),
        }),
    }
}

/// Goes on to the cleanup of a request, which runs once for each state.
fn clean(x: Obj, errand: Errand, objects: &mut ObjectPool) -> Step
    requires ready { ErrandReady errand objects.old }
    requires order { AreInOrder objects.old.pool.requests }
    ensures step { step_of result objects.new.pool ≡ request_step (Cleaning x errand) objects.old.pool }
    ensures goes { GoesWell (errand_places errand) result objects.new }
    ensures ongoing { IsOngoing result }
    ensures rest { objects.new ≡ record objects.old { pool = objects.new.pool } }
    ensures requests { count_unreceived objects.new.pool.requests ≤ count_unreceived objects.old.pool.requests }
{
    match objects.to_clean(x) {
        Some(handler) => goes(Work::Calling {
            what: What::Cleanup,
            x,
            handler,
            errand,
        }),
        None => goes(Work::Cleaned { x, errand }),
    }
}

/// Begins to free an object, or to take an interest in it away, while the work of a request waits.
fn begins(motion: Motion) -> Step
    requires { IsFreeing motion }
    ensures step { (plan : PlanData) (errand : ErrandData) (p : PoolData) → IsReleaseBy plan (Some motion) → step_of result p ≡ release_object plan errand p }
    ensures goes { (o : ObjectsData) → MayBeginFree o → GoesWell 3 result o }
    ensures ongoing { IsOngoing result }
{
    match motion {
        Motion::Frees(x) => Step::Frees(x, Waiting::Work(Work::Releasing { child: x })),
        Motion::Unlinks(owner, x) => {
            Step::Unlinks(owner, x, Waiting::Work(Work::Releasing { child: x }))
        }
        _ => unreachable!(),
    }
}

/// Frees what a request was made with, as a call does. What comes of this isn't told.
fn let_go(child: Obj, objects: &ObjectPool) -> Step
    requires ready { MayBeginFree objects.now }
    ensures step { step_of result objects.now.pool ≡ release_object (planned objects.now.pool (FreeOf child)) Receive objects.now.pool }
    ensures goes { GoesWell 3 result objects.now }
    ensures ongoing { IsOngoing result }
{
    match release(child, objects) {
        Some(motion) => begins(motion),
        None => over(Errand::Receive),
    }
}

/// Goes on after the cleanup of a request. Nothing more is done for one that is no more.
fn cleaned(x: Obj, errand: Errand, objects: &ObjectPool) -> Step
    requires ready { ErrandReady errand objects.now }
    ensures step { step_of result objects.now.pool ≡ request_step (Cleaned x errand) objects.now.pool }
    ensures goes { GoesWell (errand_places errand) result objects.now }
    ensures ongoing { IsOngoing result }
{
    let Some(note) = objects.note(x) else {
        return over(errand);
    };
    match errand {
        Errand::Receive => let_go(note.child, objects),
        _ => goes(Work::Notifying { x, errand }),
    }
}

/// Notifies whoever waits for a request: its callback runs, where it has one. Where the callback is deferred, the
/// request comes soon.
fn notify(x: Obj, errand: Errand, objects: &mut ObjectPool) -> Step
    requires ready { objects.old.ready ≡ true }
    requires order { AreInOrder objects.old.pool.requests }
    ensures step { step_of result objects.new.pool ≡ request_step (Notifying x errand) objects.old.pool }
    ensures goes { GoesWell 1 result objects.new }
    ensures ongoing { IsOngoing result }
    ensures rest { objects.new ≡ record objects.old { pool = objects.new.pool; ready = objects.new.ready } }
    ensures requests { count_unreceived objects.new.pool.requests ≤ count_unreceived objects.old.pool.requests }
{
    match objects.to_notify(x) {
        Notify::Run(handler) => goes(Work::Calling {
            what: What::Callback,
            x,
            handler,
            errand,
        }),
        Notify::Post(_) | Notify::Nothing => over(errand),
    }
}

/// Frees the first entry of a queue that is to be freed itself. Once there is none this is over.
fn vacate(queue: Obj, objects: &mut ObjectPool) -> Step
    requires ready { MayBeginFree objects.old }
    ensures step { step_of result objects.new.pool ≡ request_step (Vacating queue) objects.old.pool }
    ensures goes { GoesWell 3 result objects.new }
    ensures ongoing { IsOngoing result }
    ensures rest { objects.new ≡ record objects.old { pool = objects.new.pool } }
    ensures requests { objects.new.pool.requests ≡ objects.old.pool.requests }
{
    objects.stop_queue(queue);
    match objects.first_entry(queue) {
        Some(entry) => Step::Frees(entry, Waiting::Work(Work::Dropping { queue, entry })),
        None => goes(Work::Over {
            reply: ShortReply::Ok,
        }),
    }
}

/// Makes the next step of a request's or a queue's work that tells nothing with it.
pub fn work_step(work: Work, objects: &mut ObjectPool) -> Step
    requires may { MayWork work objects.old }
    requires ready { WorkReady work objects.old }
    ensures step { step_of result objects.new.pool ≡ request_step (work_frame work) objects.old.pool }
    ensures goes { GoesWell (work_places work) result objects.new }
    ensures ends { IsWorkStep work result }
    ensures rest { objects.new ≡ record objects.old { pool = objects.new.pool; ready = objects.new.ready } }
    ensures requests { count_unreceived objects.new.pool.requests ≤ count_unreceived objects.old.pool.requests }
{
    // Read for the prover: the contract of `count_requests` says that the notes stand in their order.
    let _requests = objects.count_requests();
    match work {
        Work::Receiving { .. } => over(Errand::Receive),
        Work::Cancelling { x } => cancel(x, objects),
        Work::Cleaning { x, errand } => clean(x, errand, objects),
        Work::Cleaned { x, errand } => cleaned(x, errand, objects),
        Work::Notifying { x, errand } => notify(x, errand, objects),
        Work::Called {
            what,
            x,
            handler,
            ..
        } => {
            let plainly = Occasion { now: 0, flags: 0 };
            let routine = Active::Caller(Caller::routine(what, x, handler, plainly));
            Step::Calls(routine, Waiting::Work(work))
        }
        Work::Vacating { queue } => vacate(queue, objects),
        Work::Triggering { .. } => over(Errand::Notify),
        Work::Over { reply } => Step::Ends(Answer::Heard(reply)),
        _ => unreachable!(),
    }
}

/// The event that a request goes to a state.
fn tell_state(x: Obj, state: State) -> Event
    ensures { result ≡ StateOf x (state_number state) }
{
    Event::State {
        request: x,
        state: state.number(),
    }
}

/// Tells that the trigger of a queue's first entry runs for its request. None where no entry waits for its trigger, and
/// then nothing changes.
fn tell_trigger(queue: Obj, work: &mut Work, objects: &mut ObjectPool) -> Option<Event>
    requires { work.old ≡ TriggeringWork queue }
    ensures event { result ≡ work_tells work.old objects.old.pool }
    ensures work { work.new ≡ work_told work.old objects.old.pool }
    ensures pool { objects.new ≡ record objects.old { pool = pool_told work.old objects.old.pool } }
{
    let turn = objects.trigger(queue)?;
    let what = What::Trigger;
    *work = Work::Called {
        what,
        x: turn.request,
        handler: turn.trigger,
        errand: Errand::Notify,
    };
    Some(Event::Fired {
        what,
        object: turn.request,
        routine: turn.trigger.routine,
    })
}

/// Tells what comes next of a request's or a queue's work, which goes on after it. None where it tells nothing, and
/// then nothing changes.
pub fn tell_work(work: &mut Work, objects: &mut ObjectPool) -> Option<Event>
    ensures event { result ≡ work_tells work.old objects.old.pool }
    ensures work { work.new ≡ work_told work.old objects.old.pool }
    ensures pool { objects.new ≡ record objects.old { pool = pool_told work.old objects.old.pool } }
    ensures order { AreInOrder objects.old.pool.requests }
{
    // Read for the prover: the contract of `count_requests` says that the notes stand in their order.
    let _requests = objects.count_requests();
    match *work {
        Work::Finishing { x, state } => {
            objects.finish_request(x, state);
            let errand = Errand::Finish(state);
            *work = Work::Cleaning { x, errand };
            Some(tell_state(x, state))
        }
        Work::Receiving { x } if objects.is_unreceived(x) => {
            objects.receive_request(x);
            let errand = Errand::Receive;
            *work = Work::Cleaning { x, errand };
            Some(tell_state(x, State::Received))
        }
        Work::Calling {
            what,
            x,
            handler,
            errand,
        } => {
            *work = Work::Called {
                what,
                x,
                handler,
                errand,
            };
            Some(Event::Fired {
                what,
                object: x,
                routine: handler.routine,
            })
        }
        Work::Triggering { queue } => tell_trigger(queue, work, objects),
        _ => None,
    }
}
