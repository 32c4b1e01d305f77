//! Answers to lines.
use tree_specs::Refusal;

/// What a line is answered behind its tag.
#[derive(Clone, Copy)]
pub enum Answer {
    /// It is done, and has no number to tell.
    Ok,
    /// It is done, with this number.
    Number(u64),
    /// It was refused for this reason.
    No(Refusal),
    /// The request that it made has ended in this state.
    Failed(u64),
}
