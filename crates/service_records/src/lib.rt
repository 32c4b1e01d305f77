//! The records of services: what a service was given is written down as a schedule, and this schedule replays.
#![tactic(auto)]

pub mod laws;
