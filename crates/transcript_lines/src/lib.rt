//! The lines of transcripts: each is read from its text, and from no other, as what it says.
#![tactic(auto)]

mod bytes;
mod event;
mod heads;
mod laws;
mod line;
mod question;
mod refusal;
mod reply;
mod row;
mod said;
mod what;
mod words;

pub use laws::{
    a_line_is_no_longer_than_the_limit, a_line_is_read_from_its_text,
    a_line_is_read_from_no_other_text,
};
pub use line::read_line;
pub use said::{Fact, Said};
