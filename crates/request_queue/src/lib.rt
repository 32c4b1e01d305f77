//! Queues of requests (`tevent_queue`): which there are, whether each runs, and the entries in them, first in first
//! out.
#![tactic(auto)]

mod line;
mod node;
mod queues;
#[cfg(test)]
mod tests;

pub use queues::{Queues, Turn};
