//! Answers from one open work to the one below it.
ghost use Rattle.std.specs.Prelude.{◌≡◌};
ghost use Rattle.tree_specs.specs.Machine.Table.{reply_in, value_in, heard_in};
ghost use Rattle.host_core.specs.Stacks.{answer_of};
ghost use Rattle.host_core.specs.Moves.{reply_of};

use crate::short_reply::ShortReply;
use tree_specs::FreeReply;

/// What a work that is over answers to the work below it.
#[derive(Clone, Copy)]
pub enum Answer {
    /// A free is over.
    Freed(FreeReply),
    /// A routine has returned this number.
    Returned(u32),
    /// A turn is over with this reply.
    Turned(u64),
    /// The outside has answered, or the work of a request is over, and this is the reply.
    Heard(ShortReply),
}

impl Answer {
    /// What a caller is told whose call waits for a free.
    pub fn of_free(self) -> FreeReply
        ensures { result ≡ reply_in (answer_of self) }
    {
        match self {
            Answer::Freed(reply) => reply,
            _ => FreeReply::Ok,
        }
    }

    /// What a work that waits for a routine is told.
    pub fn value(self) -> u32
        ensures { result ≡ value_in (answer_of self) }
    {
        match self {
            Answer::Returned(value) => value,
            _ => 0,
        }
    }

    /// What a caller is told whose call waits for a turn, for the outside or for a request.
    pub fn reply(self) -> ShortReply
        ensures { reply_of result ≡ heard_in (answer_of self) }
    {
        match self {
            Answer::Turned(value) => ShortReply::Number(value),
            Answer::Heard(reply) => reply,
            _ => ShortReply::Number(0),
        }
    }
}
