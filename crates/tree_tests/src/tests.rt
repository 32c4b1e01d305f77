//! Tests of the tree, crate by crate.
mod freeing;
mod rows;
