//! The line service: connections whose lines are calls on objects of their own, over a host. It answers its own routines
//! and the question for a call itself, and passes on all others.
#![tactic(auto)]

mod answerer;
mod giving;
mod naming;
mod runs;
mod station;
mod tasks;
mod telling;

pub use station::Station;
