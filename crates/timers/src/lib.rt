//! What comes at a time (`tevent_add_timer`): objects in the order of their times, each in one of several event contexts.
#![tactic(auto)]

mod change;
mod heap;
mod heaps;
#[cfg(test)]
mod tests;
mod times;

pub use times::Times;
