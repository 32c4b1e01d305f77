//! Replies that own memory, which is taken before anything changes.
use tree_specs::Reply;

/// A reply that owns memory, as a report and bytes do, with a copy where a routine is to remember it.
#[derive(Drop)]
pub struct OwnedReply {
    pub reply: Reply,
    pub copy: Option<Reply>,
}
