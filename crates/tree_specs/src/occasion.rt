//! What goes with an event when it comes.

/// What a handler is told of what has come.
#[derive(Clone, Copy, PartialEq, Eq)]
pub struct Occasion {
    /// The clock's value at a timer, in microseconds, and 0 elsewhere.
    pub now: u64,
    /// What a descriptor is ready for and its event waits for, and 0 elsewhere.
    pub flags: u32,
}
