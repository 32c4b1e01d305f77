//! A link over Unix sockets: a listener at a path, and the connections that it accepts. Of its calls only `wait` waits.
#![tactic(auto)]

mod accepting;
mod link;
mod listening;
mod polling;
mod socket_file;
mod standing;
#[cfg(test)]
mod tests;
mod transfers;

pub use link::MioLink;
