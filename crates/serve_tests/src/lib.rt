//! The test of `serve` over a real socket: the server and its client are in one thread. It stands in a crate of its own,
//! which uses the program's top call as it is proved.
#![tactic(auto)]

mod client;
#[cfg(test)]
mod tests;

pub use client::WithClient;
