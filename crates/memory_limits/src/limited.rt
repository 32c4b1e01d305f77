//! An object with a limit, as contracts see it.
use tree_specs::Obj;

/// An object with a limit, as contracts see it.
#[derive(Clone, Copy, PartialEq, Eq)]
pub struct Limited {
    pub object: Obj,
    /// In bytes.
    pub limit: u64,
    /// What the objects inside it count together, in bytes, itself included.
    pub sum: u64,
}
