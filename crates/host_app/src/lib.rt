//! The top call: what the program does for its words, over any source and any sinks.
#![tactic(auto)]

mod auditing;
mod main_call;
mod numbered;
mod saying;
mod status;

pub use main_call::host_main;
pub use status::Status;

#[cfg(test)]
mod serving_tests;
#[cfg(test)]
mod tests;
