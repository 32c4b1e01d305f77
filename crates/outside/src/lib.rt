//! What the host has to do with the outside, each kind as a trait: where bytes come from and go to, the connections
//! that it serves, what tells the time, and what the routines of objects do. Each trait has ends in memory, which tell
//! what they were asked and fail when told, and there are ends over std's readers and writers and over the runtime's
//! clock.
#![tactic(auto)]

mod clock;
mod link;
mod memory_clock;
mod memory_link;
mod memory_routines;
mod memory_sink;
mod memory_source;
mod notes;
mod open_set;
mod output;
mod pace;
mod prepared;
mod retry;
mod routines;
mod script;
mod sink;
mod source;
mod std_sink;
mod std_source;
mod wall_clock;

pub use clock::Clock;
pub use link::{Accepted, Link, LinkRead, LinkWrote};
pub use memory_clock::MemClock;
pub use memory_link::MemLink;
pub use memory_routines::MemRoutines;
pub use memory_sink::{FineSink, MemSink};
pub use memory_source::{FineSource, MemSource};
pub use output::{PutError, put_all};
pub use routines::Routines;
pub use sink::{Done, Put, Sink};
pub use source::{Got, Source};
pub use std_sink::StdSink;
pub use std_source::StdSource;
pub use wall_clock::WallClock;
