//! Reports of the tree: a row for each object that is inside an owner, and sums over them.
#![tactic(auto)]

mod listing;

pub use listing::rows;
pub use tree_links::{count, total};
