//! What everything means: the plain types of the object tree, and in `specs/` the definitions that
//! every contract above cites. The laws of these definitions are the clauses of functions in `laws`, and `examples` has
//! schedules with their transcripts.
#![tactic(auto)]

mod bounds;
mod call;
mod checked;
mod coming;
mod due;
mod event;
pub mod examples;
pub mod forbidden;
mod frame;
mod free_step;
mod handler;
mod kept;
mod kind;
pub mod laws;
mod listed;
pub mod machine;
mod memory;
mod moment;
mod name;
mod notice;
mod object;
mod occasion;
mod octets;
mod question;
mod queue;
pub mod refusing;
mod reply;
mod report;
mod request;
mod row;
mod schedule;
mod test;
#[cfg(test)]
mod tests;
mod wants;
mod watch;

pub use bounds::{
    LINE_LIMIT, LINES_LIMIT, NAME_LIMIT, OCTETS_LIMIT, OVERHEAD, ROW_LIMIT, SHORT_NAME_LIMIT,
    SIZE_LIMIT, TIME_LIMIT, WAIT_LIMIT,
};
pub use call::Call;
pub use checked::{Checked, Rule};
pub use coming::Coming;
pub use due::Due;
pub use event::Event;
pub use frame::{
    Answer, CallFrame, Errand, Frame, FreeFrame, OutsideFrame, Purpose, RequestFrame, TurnFrame,
};
pub use free_step::{FreeReply, FreeStep};
pub use handler::Handler;
pub use kind::Kind;
pub use memory::Memory;
pub use moment::{Moment, What};
pub use name::Name;
pub use notice::Notice;
pub use object::{Obj, Owner};
pub use occasion::Occasion;
pub use octets::{IsOctets, Octets};
pub use question::{Act, Ask, Input};
pub use queue::QueueEntry;
pub use reply::{Refusal, Reply};
pub use report::{ReportRow, ReportRows, RowKind};
pub use request::{Note, State};
pub use row::{Mark, Row};
pub use schedule::{Header, Mode, Reason, Version};
pub use test::Test;
pub use wants::{AreWants, Want, Wants};
pub use watch::Watch;
