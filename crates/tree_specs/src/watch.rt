//! How an event watches a descriptor.
use crate::object::Obj;

/// An event on a descriptor (`tevent_add_fd`), as the loop watches it.
#[derive(Clone, Copy, PartialEq, Eq)]
pub struct Watch {
    /// The event.
    pub object: Obj,
    /// The descriptor. One event at most watches it.
    pub fd: u32,
    /// What it is watched for: 1 for reading (`TEVENT_FD_READ`), 2 for writing (`TEVENT_FD_WRITE`), 3 for both, and 0
    /// for neither.
    pub flags: u32,
    /// Whether the descriptor is closed when the event goes (`tevent_fd_set_auto_close`).
    pub closes: bool,
    /// The context in which it is watched; none where this is no more.
    pub context: Option<Obj>,
}
