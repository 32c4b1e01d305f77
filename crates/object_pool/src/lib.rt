//! The objects of a host: rows, references, limits and open frees as one thing, which keeps them in agreement.
#![tactic(auto)]

mod contexts;
mod counting;
mod doomed;
mod events;
mod places;
mod pool;

pub use pool::{ObjectPool, Progress};
