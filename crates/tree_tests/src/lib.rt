//! The tests of the tree's rows and of freeing, step after step. They stand in a crate of their own, so that no library is
//! proved again with them.
#![tactic(auto)]

#[cfg(test)]
mod tests;
