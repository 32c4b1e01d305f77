//! The lines of schedules and of transcripts. An input has one line in each version of the schedules: what is written is
//! read back as the same input, and no other line is read as it.
#![tactic(auto)]

mod event;
mod front;
mod header;
mod line_converter;
mod line_reader;
mod line_writer;
mod moment;
mod question;
mod ready;
mod reply;

pub use event::write_event;
pub use header::{read_header, write_header};
pub use line_converter::convert_line;
pub use line_reader::read_line;
pub use line_writer::write_input;
pub use question::{write_answered, write_ask, write_end};
pub use reply::write_reply;
