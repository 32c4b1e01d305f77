//! The tests of the host, as a caller of the library would write them: what no clause says. They stand in a crate of
//! their own, which uses the host as it is proved, so that the host isn't proved again with them.
#![tactic(auto)]

mod inputs;
#[cfg(test)]
mod tests;
