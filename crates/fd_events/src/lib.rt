//! The events on descriptors (`tevent_add_fd`), in the rotation in which a loop looks at them.
#![tactic(auto)]

mod change;
mod coming;
mod lane;
mod node;
mod ready;
mod ring;
#[cfg(test)]
mod tests;

pub use ready::ReadyEvent;
pub use ring::Ring;
