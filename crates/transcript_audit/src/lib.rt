//! Whether a transcript is that of an orderly story: bytes in, an answer out.
#![tactic(auto)]

mod audited;
mod books;
mod course;
mod judging;
mod seen;
mod session;
mod stage;
mod stop;
mod taking;

pub use audited::Audited;
pub use session::audit;

#[cfg(test)]
mod tests;
