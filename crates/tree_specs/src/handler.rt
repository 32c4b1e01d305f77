//! The routine that runs when an event comes.
use crate::object::Obj;

/// What runs when an event comes: a routine, and a number that it is told.
#[derive(Clone, Copy, Debug, PartialEq, Eq)]
pub struct Handler {
    /// From 1 upwards.
    pub routine: u32,
    /// The user number that was given with the routine.
    pub user: u64,
    /// The context in which it comes; 0 is the one that is no object.
    pub context: Obj,
}
