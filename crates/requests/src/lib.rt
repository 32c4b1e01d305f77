//! What is kept of requests (`tevent_req`) beside their rows: how far each is, what runs when it is over, and what it
//! was made with.
#![tactic(auto)]

mod requests;
#[cfg(test)]
mod tests;

pub use requests::{Notify, Requests};
