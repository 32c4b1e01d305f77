//! The tests of what reads and writes text, as its callers would write them: calls, the lines of schedules and of
//! transcripts. They stand in a crate of their own, so that no library is proved again with them.
#![tactic(auto)]

#[cfg(test)]
mod tests;
