//! What becomes of the events, as it is noted for proofs alone.
use tree_specs::{Obj, Watch};

/// A change of the events, or of the contexts that there are.
#[derive(Clone, Copy)]
pub(crate) enum Change {
    /// One that watched nothing watches behind all others.
    Joins(Watch),
    /// An event leaves, which watched.
    Leaves(Obj),
    /// An event is watched for something else.
    SetsFlags(Obj, u32),
    /// The descriptor of an event is to be closed with it.
    SetsClosing(Obj),
    /// An event that has come goes behind all others.
    Turns(Obj),
    /// An event is lost, behind all that is there.
    Loses(Obj),
    /// A context is added.
    Opens(Obj),
    /// A context is dropped, in which nothing is watched.
    Closes(Obj),
}
