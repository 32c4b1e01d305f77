//! The words of the command line, which `clap` reads.
#![tactic(auto)]

mod command;
mod examples;
mod laws;
mod reading;

pub use command::{ANSWERS_LIMIT, COUNT_LIMIT, Command};
pub use examples::{words_are_refused, words_name_commands};
pub use laws::{each_load_is_taken, each_serve_is_taken, taken_words_name_a_command};
pub use reading::{WordsError, read_words};

#[cfg(test)]
mod tests;
