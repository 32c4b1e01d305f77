//! Large schedules that are made from a number: a source that makes one while it is read, a sink that counts lines, and
//! the replay of one into a summary of its transcript.
#![tactic(auto)]

mod line;
mod loading;
mod place;
mod source;
mod tally;
mod told;

pub use loading::load;
pub use source::LoadSource;
pub use tally::Tally;

#[cfg(test)]
mod tests;
