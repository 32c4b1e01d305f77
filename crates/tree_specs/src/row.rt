//! What the tree keeps of an object.
use crate::kind::Kind;
use crate::name::Name;
use crate::object::{Obj, Owner};

/// What is going on with an object.
#[derive(Clone, Copy, PartialEq, Eq)]
pub enum Mark {
    /// Nothing.
    Quiet,
    /// Its destructor runs, or the work that comes before its freeing.
    Asked,
    /// It is an event whose own handler runs.
    Busy,
    /// It is a busy event that somebody tried to free.
    Doomed,
    /// It has left this owner, and its children are being freed.
    Dying(Owner),
}

/// All that the tree keeps of one object.
#[derive(Drop)]
pub struct Row {
    pub serial: Obj,
    /// None exactly while it is dying.
    pub owner: Option<Owner>,
    pub name: Name,
    /// In bytes, below 268,435,456.
    pub size: u64,
    pub kind: Kind,
    pub mark: Mark,
    /// The routine of its destructor; 0 is none.
    pub hook: u32,
    /// What is inside it may count so many bytes together, itself included; 0 is no limit.
    pub limit: u64,
}
