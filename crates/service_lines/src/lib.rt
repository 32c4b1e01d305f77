//! The lines of a connection: how its bytes are cut, what a line asks for, what it is answered, and what the routines of
//! the service do call by call.
#![tactic(auto)]

mod accepting;
mod answer;
mod calls;
mod connection;
mod fulfilling;
mod incoming;
mod notifying;
mod order;
mod serving;
#[cfg(test)]
mod tests;
mod triggering;

pub use accepting::{accepting_call, after_accepting};
pub use answer::{replied, replied_owner, write_answer};
pub use connection::Connection;
pub use fulfilling::{after_fulfilling, fulfilling_call};
pub use incoming::{Cut, Incoming};
pub use notifying::{ended, notifying_call};
pub use order::{read_order, within};
pub use serving::serving_call;
pub use triggering::{after_triggering, triggering_call};
