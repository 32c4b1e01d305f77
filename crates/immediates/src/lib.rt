//! What comes as soon as it can (`tevent_schedule_immediate`): objects whose turn it is, one after another, each in one of
//! several event contexts.
#![tactic(auto)]

mod change;
mod node;
mod soon;
#[cfg(test)]
mod tests;

pub use soon::Soon;
