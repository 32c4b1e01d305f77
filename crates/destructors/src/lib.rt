//! Freeing, step after step: an object's destructor is asked, it leaves its owner, its children are freed, newest
//! first, and it is removed (`talloc_free`). Whoever calls runs the destructors, and may do with the tree what it
//! likes between a question and its answer.
#![tactic(auto)]

mod dropping;
mod engine;
mod heir;
mod kinds;
pub mod laws;
mod motion;
mod moves;
mod works;

pub use engine::FreeEngine;
