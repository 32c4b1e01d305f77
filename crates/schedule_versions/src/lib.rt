//! Schedules of either version: turned into the second, and judged as before.
#![tactic(auto)]

pub mod laws;
