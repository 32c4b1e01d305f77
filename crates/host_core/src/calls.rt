//! What each call does, once its tests are passed.
ghost use Rattle.std.specs.Prelude.{◌≡◌, Bool, None, false, if◌then◌else◌, true};
ghost use Rattle.tree_specs.specs.Calls.Refusals.{tests, is_nested, refusals_at};
ghost use Rattle.tree_specs.specs.Calls.Passed.{AllPassed};
ghost use Rattle.tree_specs.specs.Calls.Plans.{plan, places as places_of, warns as worth_a_warning, replies, failure_reply, progress_reply, fails};
ghost use Rattle.tree_specs.specs.declared.call.Call.TheVariants.{Free as FreeOf, Close as CloseOf};
ghost use Rattle.tree_specs.specs.declared.question.Ask.{Ask as AskData};
ghost use Rattle.host_core.specs.declared.motion.Motion.TheVariants.{Replies, Works};
ghost use Rattle.tree_specs.specs.declared.frame.Errand.TheVariants.{Finish as FinishOf};
ghost use Rattle.tree_specs.specs.Events.Queues.{runs};
ghost use Rattle.tree_specs.specs.Tree.Pool.{Pool as PoolData};
ghost use Rattle.host_core.specs.Requests.{IsRelease, IsReleaseBy, QueuesAreKept};
ghost use Rattle.host_core.specs.declared.short_reply.ShortReply.TheVariants.{Number as NumberReply};
ghost use Rattle.tree_specs.specs.Rules.Answers.{freed_reply};
ghost use Rattle.tree_specs.specs.Machine.Table.{call_step, plan_step, turning_step};
ghost use Rattle.tree_specs.specs.Tree.Pool.{is_usable};
ghost use Rattle.tree_links.specs.Links.{MayPlace};
ghost use Rattle.object_pool.specs.Objects.{RefsMayGo};
ghost use Rattle.host_core.specs.Moves.{is_making, is_work, move_of, reply_of, report_of, ReadyFor};

use crate::motion::Motion;
use crate::refusals::{check, check_free};
use crate::short_reply::ShortReply;
use object_pool::ObjectPool;
use tree_specs::{
    Ask, Call, Errand, FreeReply, Handler, Kind, Name, Note, Notice, Obj, Owner, Refusal, State,
};

/// The reply to a call that has waited for a free, by the answer with which this has ended.
pub fn freed(x: Obj, answer: FreeReply) -> ShortReply
    ensures { reply_of result ≡ freed_reply x answer }
{
    match answer {
        FreeReply::Ok => ShortReply::Ok,
        FreeReply::Held => ShortReply::No(Refusal::Held(x)),
        FreeReply::Running => ShortReply::No(Refusal::Running(x)),
        FreeReply::Refused(answer) => ShortReply::No(Refusal::Refused { object: x, answer }),
    }
}

/// Whether to warn that an object goes to an owner: there are references to the object, and this is not its owner yet.
fn warns(owner: Owner, x: Obj, pool: &ObjectPool) -> bool
    ensures { result ≡ worth_a_warning pool.now.pool owner x }
{
    pool.newest(x).is_some() && !pool.owns(owner, x)
}

/// Puts an object below an owner. A warning is told before the reply.
fn give(x: Obj, owner: Owner, reply: ShortReply, pool: &mut ObjectPool) -> Motion
    requires { MayPlace pool.old.pool.rows x owner }
    ensures goes { ReadyFor result pool.new.ready }
    ensures works { pool.new.works ≡ pool.old.works }
    ensures moved { (q : AskData) → move_of q result pool.new.pool ≡ plan_step q (places_of pool.old.pool owner x (reply_of reply)) pool.old.pool }
{
    let warned = warns(owner, x, pool);
    pool.place(x, owner);
    if warned {
        Motion::Announces(Notice::Warned(x), reply)
    } else {
        Motion::Replies(reply)
    }
}

/// Frees an object to which there is no reference. The one reference to an object of the root's is dropped instead.
fn free(x: Obj, pool: &ObjectPool) -> Motion
    ensures goes { ReadyFor result true }
    ensures releases { IsReleaseBy (plan pool.now.pool (FreeOf x)) (Some result) }
    ensures moved { (q : AskData) → move_of q result pool.now.pool ≡ plan_step q (plan pool.now.pool (FreeOf x)) pool.now.pool }
{
    match pool.newest(x) {
        Some(_) => Motion::Unlinks(Owner::Root, x),
        None => Motion::Frees(x),
    }
}

/// Closes a descriptor. This is told before the reply.
fn close(fd: u32, pool: &mut ObjectPool) -> Motion
    ensures goes { ReadyFor result pool.new.ready }
    ensures works { pool.new.works ≡ pool.old.works }
    ensures moved { (q : AskData) → move_of q result pool.new.pool ≡ plan_step q (plan pool.old.pool (CloseOf fd)) pool.old.pool }
{
    pool.close(fd);
    Motion::Announces(Notice::Closed(fd), ShortReply::Ok)
}

/// Replies with a number.
fn number(n: u64) -> Motion
    ensures { result ≡ Replies (NumberReply n) }
{
    Motion::Replies(ShortReply::Number(n))
}

/// Replies 1 where a queue runs, and else 0.
fn running(queue: Obj, pool: &ObjectPool) -> Motion
    ensures { result ≡ Replies (NumberReply (if runs pool.now.pool.queues queue then 1 else 0)) }
{
    number(u64::from(pool.queue_running(queue).unwrap_or(false)))
}

/// Replies how a request has failed: 0 where it is done, and else the number of its state and that of its failure.
fn failure(note: Option<Note>) -> Motion
    ensures moved { (q : AskData) (p : PoolData) → move_of q result p ≡ plan_step q (replies (failure_reply note)) p }
    ensures goes { (ready : Bool) → ReadyFor result ready }
{
    let Some(note) = note else {
        return number(0);
    };
    if note.state == State::Done {
        return number(0);
    }
    Motion::Replies(ShortReply::Pair(u64::from(note.state.number()), note.error))
}

/// Replies 1 where a request is in progress, and else 0.
fn progress(note: Option<Note>) -> Motion
    ensures moved { (q : AskData) (p : PoolData) → move_of q result p ≡ plan_step q (replies (progress_reply note)) p }
    ensures goes { (ready : Bool) → ReadyFor result ready }
{
    let is_in_progress = note.is_some_and(|note| note.state == State::InProgress);
    number(u64::from(is_in_progress))
}

/// Lets a request fail with a number. With 0 it doesn't fail.
fn fail(x: Obj, error: u64, pool: &mut ObjectPool) -> Motion
    requires { pool.old.ready ≡ true }
    ensures goes { ReadyFor result pool.old.ready }
    ensures ready { pool.new.ready ≡ pool.old.ready }
    ensures works { pool.new.works ≡ pool.old.works }
    ensures moved { (q : AskData) → move_of q result pool.new.pool ≡ plan_step q (fails x error) pool.old.pool }
{
    if error == 0 {
        return number(0);
    }
    pool.set_error(x, error);
    Motion::Works(Errand::Finish(State::UserError), x)
}

/// Begins the work that takes a request to this state. The caller waits for it.
fn finish(x: Obj, state: State) -> Motion
    ensures { result ≡ Works (FinishOf state) x }
{
    Motion::Works(Errand::Finish(state), x)
}

/// Frees what a request was made with, as a call does, where this isn't refused. None where it is.
#[tactic(auto, using(crate::proofs::Allowed::allowed_release, crate::proofs::Allowed::refused_release))]
pub fn release(child: Obj, pool: &ObjectPool) -> Option<Motion>
    ensures { IsRelease child pool.now.pool result }
{
    match check_free(child, pool) {
        Ok(()) => Some(free(child, pool)),
        Err(_) => None,
    }
}

/// A routine with its user number, which runs in a context.
fn handler(routine: u32, user: u64, context: Obj) -> Handler
    ensures { result ≡ record { routine = routine; user = user; context = context } }
{
    Handler {
        routine,
        user,
        context,
    }
}

/// Does a call that sets something which is kept of an object, or tells something.
#[inline(always)]
#[tactic(auto, using(crate::proofs::Allowed::may_go, crate::proofs::Allowed::may_go_itself, crate::proofs::Allowed::may_use))]
fn set_or_tell(call: Call, pool: &mut ObjectPool) -> Motion
    requires at_once { is_work call ≡ false }
    requires same_objects { is_making call ≡ false }
    requires ready { pool.old.ready ≡ true }
    requires allowed { AllPassed pool.old.pool (tests call) }
    requires reference { RefsMayGo pool.old.pool.rows }
    ensures goes { ReadyFor result pool.new.ready }
    ensures works { pool.new.works ≡ pool.old.works }
    ensures moved { (q : AskData) → move_of q result pool.new.pool ≡ plan_step q (plan pool.old.pool call) pool.old.pool }
{
    match call {
        Call::Parent { x } => return number(pool.parent(x).unwrap_or(Owner::Root).number()),
        Call::Total { owner } => return number(pool.total(owner)),
        Call::Count { owner } => return number(pool.count(owner)),
        Call::Sum { owner } => return number(pool.sum(owner)),
        Call::Getflags { x } => return number(u64::from(pool.flags(x).unwrap_or(0))),
        Call::Pending { context } => return number(pool.pending(context)),
        Call::Length { queue } => return number(pool.queue_length(queue)),
        Call::Running { queue } => return running(queue, pool),
        Call::Iserror { x } => return failure(pool.note(x)),
        Call::Progress { x } => return progress(pool.note(x)),
        Call::Callback { x, routine, user } => pool.set_callback(x, routine, user),
        Call::Defer { x, context } => pool.defer(x, context),
        Call::Cleanup { x, routine } => pool.set_cleanup(x, routine),
        Call::Setcancel { x, routine } => pool.set_cancel(x, routine),
        Call::Post { x, context } => pool.post(x, context),
        Call::Start { queue } => pool.start_queue(queue),
        Call::Stop { queue } => pool.stop_queue(queue),
        Call::Endtime { x, time, context } => pool.set_end_time(x, time, context),
        Call::Schedule { x, routine: 0, .. } | Call::Unschedule { x } => pool.unschedule(x),
        Call::Schedule {
            x,
            routine,
            user,
            context,
        } => pool.schedule(x, handler(routine, user, context)),
        Call::Flags { x, flags } => pool.set_flags(x, flags),
        Call::Autoclose { x } => pool.set_closing(x),
        Call::Reparent { from, to, x } => pool.reparent(from, to, x),
        Call::Hook { x, routine } => pool.hook(x, routine),
        Call::Unhook { x } => pool.hook(x, 0),
        Call::Rename { x, name } => pool.rename(x, name),
        Call::Resize { x, size } => pool.resize(x, size),
        Call::Limit { x, max } => pool.limit(x, max),
        _ => unreachable!(),
    }
    Motion::Replies(ShortReply::Ok)
}

/// Does a call that is over at once. One that makes an object replies its number.
#[inline(always)]
#[tactic(auto, using(crate::proofs::Allowed::may_go, crate::proofs::Allowed::may_go_itself, crate::proofs::Allowed::may_use))]
fn do_at_once(call: Call, pool: &mut ObjectPool) -> Motion
    requires at_once { is_work call ≡ false }
    requires ready { pool.old.ready ≡ true }
    requires allowed { AllPassed pool.old.pool (tests call) }
    requires reference { RefsMayGo pool.old.pool.rows }
    requires queues { QueuesAreKept pool.old.pool }
    ensures goes { ReadyFor result pool.new.ready }
    ensures works { pool.new.works ≡ pool.old.works }
    ensures moved { (q : AskData) → move_of q result pool.new.pool ≡ plan_step q (plan pool.old.pool call) pool.old.pool }
{
    let made = match call {
        Call::New { owner, size, name } => pool.add(Kind::Plain, name, size, owner),
        Call::Reference { owner, x } => pool.refer(x, owner),
        Call::Context { owner } => pool.add_context(owner),
        Call::Immediate { owner } => {
            pool.add(Kind::Immediate, Name::fixed(b"immediate"), 0, owner)
        }
        Call::Timer {
            owner,
            time,
            routine,
            user,
            context,
        } => pool.add_timer(owner, time, handler(routine, user, context)),
        Call::Fd {
            owner,
            fd,
            flags,
            routine,
            user,
            context,
        } => pool.add_descriptor(owner, fd, flags, handler(routine, user, context)),
        Call::Req { owner, size, name } => pool.add_request(owner, size, name),
        Call::Queue { owner, name } => pool.add_queue(owner, name),
        Call::Enqueue {
            queue,
            x,
            routine,
            user,
            context,
        } => pool.add_entry(queue, x, handler(routine, user, context)),
        other => return set_or_tell(other, pool),
    };
    number(made.0)
}

/// Begins a turn of a context for the host's own caller. Nobody else is given one.
fn begin_turn(ask: &Ask, context: Obj, pool: &mut ObjectPool) -> Motion
    requires ready { pool.old.ready ≡ true }
    requires allowed { is_usable pool.old.pool.rows context ≡ true }
    ensures goes { ReadyFor result pool.new.ready }
    ensures works { pool.new.works ≡ pool.old.works }
    ensures moved { move_of ask.now result pool.new.pool ≡ turning_step ask.now context pool.old.pool }
{
    match ask {
        Ask::Quiet => {
            pool.enter(context);
            Motion::Turns
        }
        _ => Motion::Replies(ShortReply::No(Refusal::Nested)),
    }
}

/// Does a call that isn't refused and whose reply takes no memory: any call but a report.
#[tactic(auto, using(crate::proofs::Allowed::may_go, crate::proofs::Allowed::may_go_itself, crate::proofs::Allowed::may_use))]
fn effect(ask: &Ask, call: Call, pool: &mut ObjectPool) -> Motion
    requires queues { QueuesAreKept pool.old.pool }
    requires reference { RefsMayGo pool.old.pool.rows }
    requires ready { pool.old.ready ≡ true }
    requires allowed { AllPassed pool.old.pool (tests call) }
    requires no_report { report_of call ≡ None }
    ensures goes { ReadyFor result pool.new.ready }
    ensures works { pool.new.works ≡ pool.old.works }
    ensures moved { move_of ask.now result pool.new.pool ≡ plan_step ask.now (plan pool.old.pool call) pool.old.pool }
{
    match call {
        Call::Free { x } => free(x, pool),
        Call::Freekids { x } => Motion::Empties(x),
        Call::Unlink { owner, x } => Motion::Unlinks(owner, x),
        Call::Steal { owner, x } => give(x, owner, ShortReply::Ok, pool),
        Call::Move { owner, x } => give(x, owner, ShortReply::Number(x.0), pool),
        Call::Report { .. } => unreachable!(),
        Call::Close { fd } => close(fd, pool),
        Call::Accept { fd } => Motion::Asks(Ask::Accept(fd)),
        Call::Read { fd, len } => Motion::Asks(Ask::Read(fd, len)),
        Call::Write { fd, bytes } => Motion::Asks(Ask::Write(fd, bytes)),
        Call::Now => Motion::Asks(Ask::Clock),
        Call::Turn { context } => begin_turn(ask, context, pool),
        Call::Cancel { x } => Motion::Works(Errand::Cancel, x),
        Call::Done { x } => finish(x, State::Done),
        Call::Oom { x } => finish(x, State::NoMemory),
        Call::Error { x, error } => fail(x, error, pool),
        Call::Received { x } => Motion::Works(Errand::Receive, x),
        other => do_at_once(other, pool),
    }
}

/// Whether a call is a turn that is asked for in the run of a routine, which may be in a turn itself.
fn is_nested(ask: &Ask, call: &Call) -> bool
    ensures { result ≡ is_nested ask.now call.now }
{
    matches!((ask, call), (Ask::Routine(_), Call::Turn { .. }))
}

/// Does a call of a caller that was asked this. Where a test isn't passed, the first refusal that applies is the reply, and
/// nothing changes.
#[inline(always)]
#[tactic(auto, using(crate::proofs::Allowed::refused_step, crate::proofs::Allowed::allowed_step, crate::proofs::Allowed::all_passed))]
pub fn act(ask: &Ask, call: Call, pool: &mut ObjectPool) -> Motion
    requires ready { pool.old.ready ≡ true }
    requires no_report { report_of call ≡ None }
    requires reference { RefsMayGo pool.old.pool.rows }
    requires queues { QueuesAreKept pool.old.pool }
    ensures goes { ReadyFor result pool.new.ready }
    ensures works { pool.new.works ≡ pool.old.works }
    ensures moved { move_of ask.now result pool.new.pool ≡ call_step (refusals_at ask.now pool.old.pool call) ask.now call pool.old.pool }
{
    if is_nested(ask, &call) {
        return Motion::Replies(ShortReply::No(Refusal::Nested));
    }
    match check(&call, pool) {
        Ok(()) => effect(ask, call, pool),
        Err(why) => Motion::Replies(ShortReply::No(why)),
    }
}
