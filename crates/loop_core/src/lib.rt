//! The order of an event loop (`tevent_loop_once`): what comes soon goes before what has its time, and one thing comes
//! in a turn.
#![tactic(auto)]

mod event_loop;
mod pick;

pub use event_loop::Loop;
pub use pick::Pick;

#[cfg(test)]
mod tests;
