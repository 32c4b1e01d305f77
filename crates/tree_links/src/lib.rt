//! The rows of the tree: who owns whom, the order in which children stand, a walk over what is below an owner, and sums
//! over it.
#![tactic(auto)]

mod edits;
mod new_row;
mod node;
mod owner;
mod sums;
mod tree;
mod walk;
mod works;

pub use new_row::NewRow;
pub use sums::{count, sum, total};
pub use tree::Tree;
pub use walk::{Place, Walk};
