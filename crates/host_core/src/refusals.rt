//! The refusals of each call: its tests, in the order in which they are tried.
ghost use Rattle.std.specs.Prelude.{◌≡◌, ◌+◌, [], ◌∷◌};
ghost use Rattle.tree_specs.specs.declared.call.Call.TheVariants.{Free as FreeOf, Reparent as ReparentOf, Reference as ReferenceOf, Resize as ResizeOf};
ghost use Rattle.tree_specs.specs.Calls.Refusals.{checked, refused, refusals};
ghost use Rattle.tree_specs.specs.declared.object.Owner.TheVariants.{Of as At};
ghost use Rattle.tree_specs.specs.Tree.Sums.{overhead};

use crate::checks::{
    check_context, check_open, check_owner, check_row, check_size, check_three, check_two,
};
use crate::subject::Subject;
use object_pool::ObjectPool;
use tree_specs::Call::{
    Accept, Autoclose, Callback, Cancel, Cleanup, Close, Context, Count, Defer, Done, Endtime,
    Enqueue, Error, Fd, Flags, Free, Freekids, Getflags, Hook, Immediate, Iserror, Length, Limit,
    Move, New, Now, Oom, Parent, Pending, Post, Progress, Queue, Read, Received, Reference, Rename,
    Reparent, Report, Req, Resize, Running, Schedule, Setcancel, Start, Steal, Stop, Sum, Timer,
    Total, Turn, Unhook, Unlink, Unschedule, Write,
};
use tree_specs::Test::{
    Fits, HasNumber, HasRoom, IsContext, IsDescriptor, IsFinished, IsImmediate, IsInProgress,
    IsInterested, IsMovable, IsNotDoomed, IsNotDying, IsNotGoing, IsNotInside, IsNotRunning,
    IsObject, IsOpen, IsOwner, IsPlain, IsQueue, IsReferable, IsRequest, IsSmall, IsUnheld,
    IsUnreferenced, IsUnwatched, MayFail, MayGive, MayGrow,
};
use tree_specs::{Call, OVERHEAD, Obj, Owner, Refusal, Test};

/// The tests of a new object. The size is tested first, so that adding `OVERHEAD` to it can't overflow.
#[inline(always)]
#[tactic(auto, using(crate::proofs::Allowed::refused_first, crate::proofs::Allowed::allowed_first))]
fn check_new(owner: Owner, size: u64, pool: &ObjectPool) -> Result<(), Refusal>
    ensures { result ≡ checked (refused pool.now.pool (Test.IsSmall size ∷ Test.IsOwner owner ∷ Test.HasRoom 1 ∷ Test.Fits owner (size + overhead) ∷ [])) }
{
    check_size(size)?;
    let wanted = size + OVERHEAD;
    check_three(
        IsOwner(owner),
        HasRoom(1),
        Fits(owner, wanted),
        &Subject::none(pool),
    )
}

/// The tests of a new request, which has an object of its own. The size of this is tested first, so that adding
/// `OVERHEAD` to it twice can't overflow.
#[inline(always)]
#[tactic(auto, using(crate::proofs::Allowed::refused_first, crate::proofs::Allowed::allowed_first))]
fn check_new_request(owner: Owner, size: u64, pool: &ObjectPool) -> Result<(), Refusal>
    ensures { result ≡ checked (refused pool.now.pool (Test.IsSmall size ∷ Test.IsOwner owner ∷ Test.HasRoom 2 ∷ Test.Fits owner (size + overhead + overhead) ∷ [])) }
{
    check_size(size)?;
    let wanted = size + OVERHEAD + OVERHEAD;
    check_three(
        IsOwner(owner),
        HasRoom(2),
        Fits(owner, wanted),
        &Subject::none(pool),
    )
}

/// The tests of setting the end time of a request.
#[inline(always)]
#[tactic(auto, using(crate::proofs::Allowed::refused_three, crate::proofs::Allowed::allowed_three))]
fn check_endtime(x: Obj, context: Obj, pool: &ObjectPool) -> Result<(), Refusal>
    ensures { result ≡ checked (refused pool.now.pool (Test.IsObject x ∷ Test.IsRequest x ∷ Test.IsInProgress x ∷ Test.IsContext context ∷ Test.HasNumber ∷ [])) }
{
    let objects = Subject::object(x, pool);
    check_three(IsObject(x), IsRequest(x), IsInProgress(x), &objects)?;
    check_two(IsContext(context), HasNumber, &objects)
}

/// Tests that an object is there, and two more tests of it.
#[inline(always)]
fn check_object(x: Obj, second: Test, third: Test, pool: &ObjectPool) -> Result<(), Refusal>
    ensures { result ≡ checked (refused pool.now.pool (Test.IsObject x ∷ second ∷ third ∷ [])) }
{
    check_three(IsObject(x), second, third, &Subject::object(x, pool))
}

/// Tests that an object is there, two more tests of it, and that something may come in a context.
#[inline(always)]
#[tactic(auto, using(crate::proofs::Allowed::refused_two, crate::proofs::Allowed::allowed_two))]
fn check_object_in(
    x: Obj,
    second: Test,
    third: Test,
    context: Obj,
    pool: &ObjectPool,
) -> Result<(), Refusal>
    ensures { result ≡ checked (refused pool.now.pool (Test.IsObject x ∷ second ∷ third ∷ Test.IsContext context ∷ [])) }
{
    let objects = Subject::object(x, pool);
    check_two(IsObject(x), second, &objects)?;
    check_two(third, IsContext(context), &objects)
}

/// The tests of putting an object below an owner.
#[inline(always)]
#[tactic(auto, using(crate::proofs::Allowed::refused_three, crate::proofs::Allowed::allowed_three))]
fn check_placing(owner: Owner, x: Obj, pool: &ObjectPool) -> Result<(), Refusal>
    ensures { result ≡ checked (refused pool.now.pool (Test.IsObject x ∷ Test.IsMovable x ∷ Test.IsOwner owner ∷ Test.IsNotDying x ∷ Test.IsNotInside x owner ∷ [])) }
{
    let objects = Subject::object(x, pool);
    check_three(IsObject(x), IsMovable(x), IsOwner(owner), &objects)?;
    check_two(IsNotDying(x), IsNotInside(x, owner), &objects)
}

/// The tests of giving an object, or a reference to it, from one owner to another.
#[inline(always)]
#[tactic(auto, using(crate::proofs::Allowed::refused_three, crate::proofs::Allowed::allowed_three))]
fn check_reparent(from: Owner, to: Owner, x: Obj, pool: &ObjectPool) -> Result<(), Refusal>
    ensures { result ≡ checked (refusals pool.now.pool (ReparentOf from to x)) }
{
    let objects = Subject::object(x, pool);
    check_three(IsObject(x), IsMovable(x), IsOwner(from), &objects)?;
    check_three(IsOwner(to), IsNotDying(x), MayGive(from, to, x), &objects)
}

/// The tests of a new reference to an object.
#[inline(always)]
#[tactic(auto, using(crate::proofs::Allowed::refused_three, crate::proofs::Allowed::allowed_three))]
fn check_reference(owner: Owner, x: Obj, pool: &ObjectPool) -> Result<(), Refusal>
    ensures { result ≡ checked (refusals pool.now.pool (ReferenceOf owner x)) }
{
    let objects = Subject::object(x, pool);
    check_three(IsObject(x), IsReferable(x), IsOwner(owner), &objects)?;
    check_three(IsNotRunning(x), IsNotDying(x), HasRoom(1), &objects)
}

/// The tests of giving an object another size.
#[inline(always)]
#[tactic(auto, using(crate::proofs::Allowed::refused_three, crate::proofs::Allowed::allowed_three))]
fn check_resize(x: Obj, size: u64, pool: &ObjectPool) -> Result<(), Refusal>
    ensures { result ≡ checked (refusals pool.now.pool (ResizeOf x size)) }
{
    let objects = Subject::object(x, pool);
    check_three(IsSmall(size), IsObject(x), IsPlain(x), &objects)?;
    check_three(IsUnreferenced(x), IsNotDying(x), MayGrow(x, size), &objects)
}

/// The tests of a new event on a descriptor below an owner.
#[inline(always)]
#[tactic(auto, using(crate::proofs::Allowed::refused_three, crate::proofs::Allowed::allowed_three))]
fn check_watching(owner: Owner, fd: u32, context: Obj, pool: &ObjectPool) -> Result<(), Refusal>
    ensures { result ≡ checked (refused pool.now.pool (Test.IsOwner owner ∷ Test.IsOpen fd ∷ Test.IsUnwatched fd ∷ Test.IsContext context ∷ Test.HasRoom 1 ∷ Test.Fits owner overhead ∷ [])) }
{
    let objects = Subject::none(pool);
    check_three(IsOwner(owner), IsOpen(fd), IsUnwatched(fd), &objects)?;
    let fits = Fits(owner, OVERHEAD);
    check_three(IsContext(context), HasRoom(1), fits, &objects)
}

/// The tests of a new timer below an owner.
#[inline(always)]
#[tactic(auto, using(crate::proofs::Allowed::refused_two, crate::proofs::Allowed::allowed_two))]
fn check_timer(owner: Owner, context: Obj, pool: &ObjectPool) -> Result<(), Refusal>
    ensures { result ≡ checked (refused pool.now.pool (Test.IsOwner owner ∷ Test.IsContext context ∷ Test.HasRoom 1 ∷ Test.Fits owner overhead ∷ [])) }
{
    let objects = Subject::none(pool);
    check_two(IsOwner(owner), IsContext(context), &objects)?;
    check_two(HasRoom(1), Fits(owner, OVERHEAD), &objects)
}

/// The tests of starting or stopping a queue, which isn't being freed.
#[inline(always)]
fn check_lasting_queue(queue: Obj, pool: &ObjectPool) -> Result<(), Refusal>
    ensures { result ≡ checked (refused pool.now.pool (Test.IsObject queue ∷ Test.IsQueue queue ∷ Test.IsNotGoing queue ∷ [])) }
{
    check_object(queue, IsQueue(queue), IsNotGoing(queue), pool)
}

/// The tests of putting a request into a queue. Those of the queue come first.
#[inline(always)]
#[tactic(auto, using(crate::proofs::Allowed::refused_three, crate::proofs::Allowed::allowed_three))]
fn check_enqueue(queue: Obj, x: Obj, context: Obj, pool: &ObjectPool) -> Result<(), Refusal>
    ensures { result ≡ checked (refused pool.now.pool (Test.IsObject queue ∷ Test.IsQueue queue ∷ Test.IsNotGoing queue ∷ Test.IsObject x ∷ Test.IsRequest x ∷ Test.IsNotDying x ∷ Test.IsContext context ∷ Test.HasRoom 1 ∷ Test.Fits (At x) overhead ∷ [])) }
{
    check_lasting_queue(queue, pool)?;
    let objects = Subject::object(x, pool);
    check_three(IsObject(x), IsRequest(x), IsNotDying(x), &objects)?;
    let fits = Fits(Owner::Of(x), OVERHEAD);
    check_three(IsContext(context), HasRoom(1), fits, &objects)
}

/// The tests of freeing an object.
#[inline(always)]
pub fn check_free(x: Obj, pool: &ObjectPool) -> Result<(), Refusal>
    ensures { result ≡ checked (refusals pool.now.pool (FreeOf x)) }
{
    check_known(x, IsUnheld(x), pool)
}

/// The tests of making a context, an event that waits for nothing yet, or a queue: it counts as an object of no size.
#[inline(always)]
fn check_small(owner: Owner, pool: &ObjectPool) -> Result<(), Refusal>
    ensures { result ≡ checked (refused pool.now.pool (Test.IsOwner owner ∷ Test.HasRoom 1 ∷ Test.Fits owner overhead ∷ [])) }
{
    check_three(
        IsOwner(owner),
        HasRoom(1),
        Fits(owner, OVERHEAD),
        &Subject::none(pool),
    )
}

/// The test that an object is there, and one more.
#[inline(always)]
fn check_known(x: Obj, second: Test, pool: &ObjectPool) -> Result<(), Refusal>
    ensures { result ≡ checked (refused pool.now.pool (Test.IsObject x ∷ second ∷ [])) }
{
    check_two(IsObject(x), second, &Subject::object(x, pool))
}

/// The tests of having an immediate come no more.
#[inline(always)]
fn check_immediate(x: Obj, pool: &ObjectPool) -> Result<(), Refusal>
    ensures { result ≡ checked (refused pool.now.pool (Test.IsObject x ∷ Test.IsImmediate x ∷ Test.IsNotDoomed x ∷ [])) }
{
    check_object(x, IsImmediate(x), IsNotDoomed(x), pool)
}

/// The tests of setting or telling something of an event on a descriptor.
#[inline(always)]
fn check_watcher(x: Obj, pool: &ObjectPool) -> Result<(), Refusal>
    ensures { result ≡ checked (refused pool.now.pool (Test.IsObject x ∷ Test.IsDescriptor x ∷ Test.IsNotDoomed x ∷ [])) }
{
    check_object(x, IsDescriptor(x), IsNotDoomed(x), pool)
}

/// The tests of a call on a request in any state.
#[inline(always)]
fn check_request(x: Obj, pool: &ObjectPool) -> Result<(), Refusal>
    ensures { result ≡ checked (refused pool.now.pool (Test.IsObject x ∷ Test.IsRequest x ∷ [])) }
{
    check_known(x, IsRequest(x), pool)
}

/// Refuses a call by its tests: the first one that isn't passed says why.
pub fn check(call: &Call, pool: &ObjectPool) -> Result<(), Refusal>
    ensures { result ≡ checked (refusals pool.now.pool call.now) }
{
    match *call {
        New { owner, size, .. } => check_new(owner, size, pool),
        Free { x } => check_free(x, pool),
        Steal { owner, x } | Move { owner, x } => check_placing(owner, x, pool),
        Reparent { from, to, x } => check_reparent(from, to, x, pool),
        Reference { owner, x } => check_reference(owner, x, pool),
        Unlink { owner, x } => check_object(x, IsOwner(owner), IsInterested(owner, x), pool),
        Hook { x, .. } | Unhook { x } => check_object(x, IsPlain(x), IsNotDying(x), pool),
        Resize { x, size } => check_resize(x, size, pool),
        Context { owner } | Immediate { owner } | Queue { owner, .. } => check_small(owner, pool),
        Schedule { x, context, .. } => {
            check_object_in(x, IsImmediate(x), IsNotDoomed(x), context, pool)
        }
        Unschedule { x } => check_immediate(x, pool),
        Timer { owner, context, .. } => check_timer(owner, context, pool),
        Fd {
            owner,
            fd,
            context,
            ..
        } => check_watching(owner, fd, context, pool),
        Flags { x, .. } | Getflags { x } | Autoclose { x } => check_watcher(x, pool),
        Close { fd } => check_two(IsOpen(fd), IsUnwatched(fd), &Subject::none(pool)),
        Accept { fd } | Read { fd, .. } | Write { fd, .. } => check_open(fd, pool),
        Req { owner, size, .. } => check_new_request(owner, size, pool),
        Callback { x, .. } | Cleanup { x, .. } | Setcancel { x, .. } => {
            check_object(x, IsRequest(x), IsNotDying(x), pool)
        }
        Defer { x, context } => check_object_in(x, IsRequest(x), IsNotDying(x), context, pool),
        Post { x, context } => check_object_in(x, IsRequest(x), IsFinished(x), context, pool),
        Done { x } | Oom { x } => check_object(x, IsRequest(x), IsInProgress(x), pool),
        Error { x, error } => check_object(x, IsRequest(x), MayFail(x, error), pool),
        Endtime { x, context, .. } => check_endtime(x, context, pool),
        Cancel { x } | Iserror { x } | Progress { x } | Received { x } => check_request(x, pool),
        Enqueue {
            queue,
            x,
            context,
            ..
        } => check_enqueue(queue, x, context, pool),
        Start { queue } | Stop { queue } => check_lasting_queue(queue, pool),
        Length { queue } | Running { queue } => check_known(queue, IsQueue(queue), pool),
        Now => Ok(()),
        Pending { context } | Turn { context } => check_context(context, &Subject::none(pool)),
        Parent { x } => check_known(x, IsNotDying(x), pool),
        Freekids { x } | Rename { x, .. } | Limit { x, .. } => check_row(x, pool.row(x)),
        Total { owner } | Count { owner } | Sum { owner } | Report { owner } => {
            check_owner(owner, pool)
        }
    }
}
