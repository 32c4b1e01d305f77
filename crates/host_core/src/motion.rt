//! How a call begins: it is done, or what its caller waits for begins.
use crate::short_reply::ShortReply;
use tree_specs::{Ask, Errand, Notice, Obj, Owner};

/// What a call does first.
#[derive(Drop)]
pub enum Motion {
    /// It is done, and this is its reply.
    Replies(ShortReply),
    /// It is done. The notice is told before the reply.
    Announces(Notice, ShortReply),
    /// The object is freed, and the caller waits.
    Frees(Obj),
    /// The interest of an owner in the object is taken away, and the caller waits.
    Unlinks(Owner, Obj),
    /// Its children are freed, and the caller waits.
    Empties(Obj),
    /// The outside is asked this, and the caller waits for the answer.
    Asks(Ask),
    /// A turn of a context has begun for the host's own caller, who waits.
    Turns,
    /// This is done for a request, and the caller waits.
    Works(Errand, Obj),
}
