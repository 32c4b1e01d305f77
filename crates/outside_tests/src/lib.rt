//! The tests of what the host has to do with the outside: its ends in memory, and those over the runtime. They stand in a
//! crate of their own, so that the library isn't proved again with them.
#![tactic(auto)]

#[cfg(test)]
mod tests;
