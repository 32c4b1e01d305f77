//! What an event loop picks in a turn.
use tree_specs::Obj;

/// What a turn of an event loop does next.
#[derive(Clone, Copy, Debug, PartialEq, Eq)]
pub enum Pick {
    /// This object comes, which was to come soon.
    Soon(Obj),
    /// This object comes, whose time has come; and the time that it is, in microseconds.
    Time(Obj, u64),
    /// This event on a descriptor comes; and what it waits for and the descriptor is ready for.
    Descriptor(Obj, u32),
    /// The clock is to be asked.
    AskClock,
    /// It is to be asked which descriptors are ready, within so many microseconds.
    AskWait(u64),
    /// Nothing comes in this turn.
    Nothing,
}
