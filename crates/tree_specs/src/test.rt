//! The tests that calls have to pass.
use crate::object::{Obj, Owner};

/// What is looked at before a call is done. Where it isn't so, the call is refused.
#[derive(Clone, Copy)]
pub enum Test {
    /// A size in bytes is below the greatest one.
    IsSmall(u64),
    /// There is such an object, and it is no reference.
    IsObject(Obj),
    /// It is the root or such an object.
    IsOwner(Owner),
    /// The object is a plain one.
    IsPlain(Obj),
    /// The object is an immediate.
    IsImmediate(Obj),
    /// The object is an event on a descriptor.
    IsDescriptor(Obj),
    /// The object is a request.
    IsRequest(Obj),
    /// The object is a queue.
    IsQueue(Obj),
    /// It is the context that is no object, or a context that isn't being freed, and won't be after its turn.
    IsContext(Obj),
    /// The object may go to another owner: it is no entry of a queue.
    IsMovable(Obj),
    /// The object is one to which there may be references: a plain one, or a request.
    IsReferable(Obj),
    /// The descriptor is open.
    IsOpen(u32),
    /// No event watches the descriptor.
    IsUnwatched(u32),
    /// There is room for so many rows, and there are so many numbers.
    HasRoom(u8),
    /// There is a number that no object gets.
    HasNumber,
    /// The request is in progress.
    IsInProgress(Obj),
    /// The request is over, and wasn't received.
    IsFinished(Obj),
    /// The request is in progress, where it is to fail with this number; with 0 it doesn't fail.
    MayFail(Obj, u64),
    /// The limits leave room for so many more bytes below the owner.
    Fits(Owner, u64),
    /// The object gets this size: where it grows, the limits leave room for it.
    MayGrow(Obj, u64),
    /// The object isn't being freed.
    IsNotDying(Obj),
    /// The queue isn't being freed, nor are its entries before it.
    IsNotGoing(Obj),
    /// The object isn't being freed, and won't be once its handler is over.
    IsNotDoomed(Obj),
    /// Neither its destructor nor its handler runs, nor is it a request that is received to be freed.
    IsNotRunning(Obj),
    /// The owner isn't inside the object.
    IsNotInside(Obj, Owner),
    /// No reference keeps the object from being freed.
    IsUnheld(Obj),
    /// There is no reference to the object.
    IsUnreferenced(Obj),
    /// The owner owns the object, or a reference to it.
    IsInterested(Owner, Obj),
    /// The first owner gives the object, or its reference to it, to the second one.
    MayGive(Owner, Owner, Obj),
}
