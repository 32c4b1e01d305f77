//! What an audit of a transcript finds: the first line that has a flaw, as a transcript of an orderly story. The definitions
//! stand in `specs/`, what holds of them is the clause of a function in `laws`, and `examples` has texts with what is said of
//! them.
#![tactic(auto)]

pub mod examples;
pub mod laws;
