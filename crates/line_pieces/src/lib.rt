//! Pieces of bytes cut into lines, for whatever takes the lines of a text.
#![tactic(auto)]

mod cutting;
mod reader;
mod taker;

pub use cutting::line_end;
pub use reader::LineReader;
pub use taker::TakesLines;

#[cfg(test)]
mod tests;
