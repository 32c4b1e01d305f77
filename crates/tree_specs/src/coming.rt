//! What comes soon.
use crate::object::Obj;

/// An object that comes soon: an immediate (`tevent_schedule_immediate`), a request, or a queue.
#[derive(Clone, Copy, Debug, PartialEq, Eq)]
pub struct Coming {
    pub object: Obj,
    /// The context in which it comes.
    pub context: Obj,
}
