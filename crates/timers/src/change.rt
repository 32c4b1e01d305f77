//! What becomes of the times, as it is noted for proofs alone.
use tree_specs::{Due, Obj};

/// A change of the times, or of the contexts that there are.
#[derive(Clone, Copy)]
pub(crate) enum Change {
    /// An object that had no time gets this one.
    Enters(Due),
    /// An object loses its time.
    Leaves(Obj),
    /// A context is added.
    Opens(Obj),
    /// A context is dropped, which has no times.
    Closes(Obj),
}
