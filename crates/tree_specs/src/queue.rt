//! What is kept of an entry of a queue.
use crate::handler::Handler;
use crate::object::Obj;

/// A request that waits in a queue for its turn (`struct tevent_queue_entry`).
#[derive(Clone, Copy, PartialEq, Eq)]
pub struct QueueEntry {
    pub queue: Obj,
    pub request: Obj,
    /// What runs for the request when its turn comes (`tevent_queue_trigger_fn_t`).
    pub trigger: Handler,
    /// Whether this has begun.
    pub triggered: bool,
}
