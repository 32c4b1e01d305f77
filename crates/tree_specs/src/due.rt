//! The time of an object.
use crate::object::Obj;

/// An object whose time comes: a timer (`tevent_add_timer`), or a request with an end time.
#[derive(Clone, Copy, Debug, PartialEq, Eq)]
pub struct Due {
    /// In microseconds, from 0 to 4,611,686,018,427,387,904.
    pub time: u64,
    /// At equal times the smaller number comes first. No number is taken twice.
    pub number: u64,
    pub object: Obj,
    /// The context in which it comes.
    pub context: Obj,
}
