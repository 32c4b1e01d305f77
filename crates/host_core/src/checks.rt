//! What a call is refused for: each test, and tests one after another.
ghost use Rattle.std.specs.Prelude.{◌≡◌, ◌<◌, [], ◌∷◌, not, IsOk};
ghost use Rattle.std.specs.Option.{option_copied, option_map};
ghost use Rattle.tree_specs.specs.Tree.Pool.{row_of, is_dying, is_usable_row};
ghost use Rattle.tree_specs.specs.declared.reply.Refusal.TheVariants.{WrongKind};
ghost use Rattle.tree_specs.specs.Calls.Refusals.{checked, refuse_if, is_going, is_doomed, is_running, small, owner, context as unusable, object_row, open_one, unused, room, apart, held, interested, given_by, unreferenced, growing, size_limit, refusal_of, refused};

use crate::request_checks::{check_failing, check_finished, check_in_progress, check_number};
use crate::subject::Subject;
use object_pool::ObjectPool;
use tree_specs::Test::{
    Fits, HasNumber, HasRoom, IsContext, IsDescriptor, IsFinished, IsImmediate, IsInProgress,
    IsInterested, IsMovable, IsNotDoomed, IsNotDying, IsNotGoing, IsNotInside, IsNotRunning,
    IsObject, IsOpen, IsOwner, IsPlain, IsQueue, IsReferable, IsRequest, IsSmall, IsUnheld,
    IsUnreferenced, IsUnwatched, MayFail, MayGive, MayGrow,
};
use tree_specs::{Kind, Mark, Obj, Owner, ROW_LIMIT, Refusal, Row, SIZE_LIMIT, Test};

/// Refuses a size that isn't below the greatest one.
pub fn check_size(size: u64) -> Result<(), Refusal>
    ensures first { result ≡ checked (small size) }
    ensures small { IsOk result → size < size_limit }
{
    if size >= SIZE_LIMIT {
        return Err(Refusal::TooBig(size));
    }
    Ok(())
}

/// Refuses an object by its row: where it has none, and where it is a reference, since no call names a reference.
#[inline]
pub fn check_row(x: Obj, row: Option<&Row>) -> Result<(), Refusal>
    ensures { result ≡ checked (object_row x (option_copied row.entry)) }
{
    let Some(row) = row else {
        return Err(Refusal::NoSuch(x.0));
    };
    match row.kind {
        Kind::Reference { .. } => Err(Refusal::WrongKind(x)),
        _ => Ok(()),
    }
}

/// Refuses an owner that is neither the root nor an object that a call may name.
#[inline(always)]
pub fn check_owner(o: Owner, pool: &ObjectPool) -> Result<(), Refusal>
    ensures { result ≡ checked (owner pool.now.pool o) }
{
    match o {
        Owner::Root => Ok(()),
        Owner::Of(x) => check_row(x, pool.row(x)),
    }
}

/// The kind of an object. None exactly where there is none.
#[inline]
fn kind_of(x: Obj, objects: &Subject) -> Option<Kind>
    ensures { result ≡ option_map (λ r. r.kind) (row_of objects.now.rows x) }
{
    Some(objects.row(x)?.kind)
}

/// The mark of an object. None exactly where there is none.
#[inline]
fn mark_of(x: Obj, objects: &Subject) -> Option<Mark>
    ensures { result ≡ option_map (λ r. r.mark) (row_of objects.now.rows x) }
{
    Some(objects.row(x)?.mark)
}

/// Whether an object is being freed. It stays where it is then.
#[inline]
fn is_dying(x: Obj, objects: &Subject) -> bool
    ensures { result ≡ is_dying objects.now.rows x }
{
    matches!(mark_of(x, objects), Some(Mark::Dying(_)))
}

/// Whether a queue is to be freed. It takes no entry then, and neither starts nor stops.
#[inline]
fn is_going(x: Obj, objects: &Subject) -> bool
    ensures { result ≡ is_going objects.now x }
{
    !matches!(mark_of(x, objects), Some(Mark::Quiet) | None)
}

/// Whether an event is being freed, or is to be once its handler is over. It waits for nothing then.
#[inline]
fn is_doomed(x: Obj, objects: &Subject) -> bool
    ensures { result ≡ is_doomed objects.now x }
{
    matches!(mark_of(x, objects), Some(Mark::Doomed | Mark::Dying(_)))
}

/// Whether the destructor or the handler of an object runs. No reference is made to it then.
#[inline]
fn is_running(x: Obj, objects: &Subject) -> bool
    ensures { result ≡ is_running objects.now x }
{
    matches!(
        mark_of(x, objects),
        Some(Mark::Asked | Mark::Busy | Mark::Doomed)
    )
}

/// Whether nothing goes on with an object, or its handler or its turn is under way, after which it stays.
#[inline]
fn is_lasting(x: Obj, objects: &Subject) -> bool
    ensures { result ≡ is_usable_row (row_of objects.now.rows x) }
{
    matches!(mark_of(x, objects), Some(Mark::Quiet | Mark::Busy))
}

/// Refuses for this reason where `is` holds.
#[inline]
fn refuse_if(is: bool, why: Refusal) -> Result<(), Refusal>
    ensures { result ≡ checked (refuse_if is why) }
{
    if is {
        return Err(why);
    }
    Ok(())
}

/// Refuses an object whose kind isn't one that the call takes.
#[inline]
fn check_kind(x: Obj, is: bool) -> Result<(), Refusal>
    ensures { result ≡ checked (refuse_if (not is) (WrongKind x)) }
{
    refuse_if(!is, Refusal::WrongKind(x))
}

/// Refuses a context that is none, that is being freed, or that is to be after its turn. The first one always is there.
#[inline(always)]
#[tactic(auto, using(crate::proofs::Allowed::refused_three, crate::proofs::Allowed::allowed_three))]
pub fn check_context(context: Obj, objects: &Subject) -> Result<(), Refusal>
    ensures { result ≡ checked (unusable objects.now context) }
{
    if context == Obj::first_context() {
        return Ok(());
    }
    check_row(context, objects.row(context))?;
    let kind = kind_of(context, objects);
    check_kind(context, matches!(kind, Some(Kind::Context)))?;
    refuse_if(!is_lasting(context, objects), Refusal::Dying(context))
}

/// Refuses a descriptor that isn't open.
#[inline(always)]
pub fn check_open(fd: u32, pool: &ObjectPool) -> Result<(), Refusal>
    ensures { result ≡ checked (open_one pool.now.pool fd) }
{
    if pool.is_open(fd) {
        return Ok(());
    }
    Err(Refusal::NoSuch(u64::from(fd)))
}

/// Refuses a descriptor on which there is an event: a second event and closing are refused alike.
fn check_unwatched(fd: u32, pool: &ObjectPool) -> Result<(), Refusal>
    ensures { result ≡ checked (unused pool.now.pool fd) }
{
    if pool.is_watched(fd) {
        return Err(Refusal::InUse(fd));
    }
    Ok(())
}

/// Refuses where there is no room for so many more rows, or where there aren't so many numbers left.
fn check_room(rows: u8, pool: &ObjectPool) -> Result<(), Refusal>
    ensures { result ≡ checked (room pool.now.pool rows) }
{
    if pool.len() > ROW_LIMIT - rows as usize {
        return Err(Refusal::Full(pool.len() as u64));
    }
    if pool.next_number() > u64::MAX - rows as u64 {
        return Err(Refusal::Spent);
    }
    Ok(())
}

/// Refuses an owner that is the object or inside it, so that no object comes to be inside itself.
fn check_not_inside(x: Obj, owner: Owner, pool: &ObjectPool) -> Result<(), Refusal>
    ensures { result ≡ checked (apart pool.now.pool x owner) }
{
    if pool.is_inside(owner, Owner::Of(x)) {
        return Err(Refusal::Loop { object: x, owner });
    }
    Ok(())
}

/// Refuses to free an object that has references, but for one that the root owns and that has exactly one.
fn check_held(x: Obj, pool: &ObjectPool) -> Result<(), Refusal>
    ensures { result ≡ checked (held pool.now.pool x) }
{
    let count = pool.count_refs(x);
    if count != 0 && !(pool.owns(Owner::Root, x) && count == 1) {
        return Err(Refusal::Held(x));
    }
    Ok(())
}

/// Refuses an owner that neither owns the object nor has a reference to it.
fn check_interested(o: Owner, x: Obj, pool: &ObjectPool) -> Result<(), Refusal>
    ensures { result ≡ checked (interested pool.now.pool o x) }
{
    if pool.owns(o, x) || pool.newest_of(o, x).is_some() {
        return Ok(());
    }
    Err(Refusal::NotParent {
        object: x,
        owner: o,
    })
}

/// Refuses that an owner gives an object, or its reference to it, to another owner: where it owns the object and the
/// other owner is inside this, and where it has neither the object nor a reference to it.
fn check_given(from: Owner, to: Owner, x: Obj, pool: &ObjectPool) -> Result<(), Refusal>
    ensures { result ≡ checked (given_by pool.now.pool from to x) }
{
    if pool.owns(from, x) {
        return check_not_inside(x, to, pool);
    }
    check_interested(from, x, pool)
}

/// Refuses another size for an object to which there are references.
fn check_unreferenced(x: Obj, pool: &ObjectPool) -> Result<(), Refusal>
    ensures { result ≡ checked (unreferenced pool.now.pool x) }
{
    if pool.count_refs(x) != 0 {
        return Err(Refusal::Held(x));
    }
    Ok(())
}

/// Refuses a size by which the object would grow more than the limits leave room for.
fn check_growing(x: Obj, size: u64, objects: &Subject) -> Result<(), Refusal>
    ensures { result ≡ checked (growing objects.now x size) }
{
    let before = objects.row(x).map_or(0, |row| row.size);
    if before < size {
        return objects.pool().fits(Owner::Of(x), size - before);
    }
    Ok(())
}

/// What is refused where the test isn't passed.
#[inline(always)]
fn check_test(test: Test, objects: &Subject) -> Result<(), Refusal>
    ensures { result ≡ checked (refusal_of objects.now test) }
{
    match test {
        IsSmall(size) => check_size(size),
        IsObject(x) => check_row(x, objects.row(x)),
        IsOwner(owner) => check_owner(owner, objects.pool()),
        IsPlain(x) => check_kind(x, matches!(kind_of(x, objects), Some(Kind::Plain))),
        IsImmediate(x) => check_kind(x, matches!(kind_of(x, objects), Some(Kind::Immediate))),
        IsDescriptor(x) => check_kind(x, matches!(kind_of(x, objects), Some(Kind::Descriptor))),
        IsRequest(x) => check_kind(x, matches!(kind_of(x, objects), Some(Kind::Request))),
        IsQueue(x) => check_kind(x, matches!(kind_of(x, objects), Some(Kind::Queue))),
        IsContext(context) => check_context(context, objects),
        IsMovable(x) => check_kind(x, !matches!(kind_of(x, objects), Some(Kind::Entry))),
        IsReferable(x) => {
            let kind = kind_of(x, objects);
            check_kind(x, matches!(kind, Some(Kind::Plain | Kind::Request)))
        }
        HasNumber => check_number(objects.pool()),
        IsInProgress(x) => check_in_progress(x, objects.pool()),
        IsFinished(x) => check_finished(x, objects.pool()),
        MayFail(x, error) => check_failing(x, error, objects.pool()),
        IsOpen(fd) => check_open(fd, objects.pool()),
        IsUnwatched(fd) => check_unwatched(fd, objects.pool()),
        HasRoom(rows) => check_room(rows, objects.pool()),
        Fits(owner, wanted) => objects.pool().fits(owner, wanted),
        MayGrow(x, size) => check_growing(x, size, objects),
        IsNotDying(x) => refuse_if(is_dying(x, objects), Refusal::Dying(x)),
        IsNotGoing(x) => refuse_if(is_going(x, objects), Refusal::Dying(x)),
        IsNotDoomed(x) => refuse_if(is_doomed(x, objects), Refusal::Dying(x)),
        IsNotRunning(x) => refuse_if(is_running(x, objects), Refusal::Running(x)),
        IsNotInside(x, owner) => check_not_inside(x, owner, objects.pool()),
        IsUnheld(x) => check_held(x, objects.pool()),
        IsUnreferenced(x) => check_unreferenced(x, objects.pool()),
        IsInterested(owner, x) => check_interested(owner, x, objects.pool()),
        MayGive(from, to, x) => check_given(from, to, x, objects.pool()),
    }
}

/// What is refused for the first of two tests that isn't passed.
#[inline(always)]
#[tactic(auto, using(crate::proofs::Allowed::refused_first, crate::proofs::Allowed::allowed_first))]
pub fn check_two(first: Test, second: Test, objects: &Subject) -> Result<(), Refusal>
    ensures { result ≡ checked (refused objects.now (first ∷ second ∷ [])) }
{
    check_test(first, objects)?;
    check_test(second, objects)
}

/// What is refused for the first of three tests that isn't passed.
#[inline(always)]
#[tactic(auto, using(crate::proofs::Allowed::refused_first, crate::proofs::Allowed::allowed_first))]
pub fn check_three(first: Test, second: Test, third: Test, objects: &Subject) -> Result<(), Refusal>
    ensures { result ≡ checked (refused objects.now (first ∷ second ∷ third ∷ [])) }
{
    check_test(first, objects)?;
    check_two(second, third, objects)
}
