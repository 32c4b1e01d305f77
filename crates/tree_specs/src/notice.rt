//! What a call tells before its reply.
use crate::object::Obj;

/// What a call tells before its reply.
#[derive(Clone, Copy, PartialEq, Eq)]
pub enum Notice {
    /// This object, which has references, was given to another owner.
    Warned(Obj),
    /// This descriptor was closed.
    Closed(u32),
}
