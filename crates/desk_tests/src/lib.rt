//! The tests of what the line service keeps beside the host. They stand in a crate of their own, so that the library isn't
//! proved again with them.
#![tactic(auto)]

#[cfg(test)]
mod tests;
