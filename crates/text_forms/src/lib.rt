//! Numbers, names, bytes, calls and rows of reports as text. Each value has one spelling: what is written is read back as
//! the same value, and no other text is read as it.
#![tactic(auto)]

mod call_reader;
mod call_writer;
mod context;
mod field;
mod form;
mod name;
mod number;
mod numbers;
mod octets;
mod piece;
mod range;
mod refusal;
mod report_row;
mod spelling;
mod split;
mod verb;
mod verb_fields;
mod verb_words;

pub use call_reader::read_call;
pub use call_writer::{the_bytes_of_a_call_are_bytes, write_call};
pub use context::is_in_context;
pub use field::number_field;
pub use form::FormFault;
pub use name::read_name;
pub use number::{read_length, read_number, read_positive, read_time, read_u32, write_number};
pub use numbers::write_numbers;
pub use octets::{lend_bytes, read_octets, write_octets};
pub use piece::write_pieces;
pub use refusal::write_refusal;
pub use report_row::write_report_rows;
pub use split::{split_part, split_word};
