//! What a move of a free does, and what is known of it before it is made.
use tree_specs::{FreeFrame, FreeReply, FreeStep};

/// What one move of the innermost work does.
#[derive(Clone, Copy)]
pub enum Motion {
    /// It ends, and answers the work below it.
    Ends(FreeReply),
    /// It goes on.
    Goes(FreeFrame),
    /// It tells something and goes on.
    Tells(FreeStep, FreeFrame),
    /// It asks for the run of a destructor, for a request to be received, or for the entries of a queue to be freed,
    /// and waits.
    Waits(FreeStep, FreeFrame),
    /// It puts the first work before itself, and waits as the second.
    Pushes(FreeFrame, FreeFrame),
}

/// What comes next of a work, as far as it tells nothing.
#[derive(Clone, Copy)]
pub enum Outlook {
    /// It tells or asks something.
    Telling,
    /// It ends, and answers the work below it.
    Ending(FreeReply),
    /// It goes on.
    Going(FreeFrame),
    /// It puts the first work before itself, and waits as the second.
    Pushing(FreeFrame, FreeFrame),
}
