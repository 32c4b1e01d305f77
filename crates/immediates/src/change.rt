//! What becomes of those that come soon, as it is noted for proofs alone.
use tree_specs::{Coming, Obj};

/// A change of those that come soon, or of the contexts that there are.
#[derive(Clone, Copy)]
pub(crate) enum Change {
    /// One that didn't wait joins behind all others.
    Joins(Coming),
    /// An object leaves, which waited.
    Leaves(Obj),
    /// A context is added.
    Opens(Obj),
    /// A context is dropped, in which none waits.
    Closes(Obj),
}
