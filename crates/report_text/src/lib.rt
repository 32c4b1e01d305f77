//! A report of the tree as text, put into a sink. The rows are those of `tree_report`, and the lines those of a transcript.
#![tactic(auto)]

#[cfg(test)]
mod tests;
mod writing;

pub use writing::report;
