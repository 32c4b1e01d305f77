//! Limits: what is inside an object may count so many bytes together (`talloc_set_memlimit`).
#![tactic(auto)]

mod allowance;
mod change;
mod limited;
mod limits;
#[cfg(test)]
mod tests;

pub use limited::Limited;
pub use limits::Sums;
