//! Replies that take no memory: all but reports and bytes that were read.
ghost use Rattle.std.specs.Prelude.{◌≡◌};
ghost use Rattle.host_core.specs.Moves.{reply_of};

use tree_specs::{Refusal, Reply};

/// A reply that takes no memory, so that it can be told and remembered.
#[derive(Clone, Copy)]
pub enum ShortReply {
    Ok,
    Number(u64),
    Pair(u64, u64),
    Again,
    Fault,
    End,
    No(Refusal),
}

impl ShortReply {
    /// The reply as it is told.
    pub fn reply(self) -> Reply
        ensures { result ≡ reply_of self }
    {
        match self {
            ShortReply::Ok => Reply::Ok,
            ShortReply::Number(n) => Reply::Number(n),
            ShortReply::Pair(first, second) => Reply::Pair(first, second),
            ShortReply::Again => Reply::Again,
            ShortReply::Fault => Reply::Fault,
            ShortReply::End => Reply::End,
            ShortReply::No(why) => Reply::No(why),
        }
    }
}
