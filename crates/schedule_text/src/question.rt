//! Questions written as text, and their lines in a transcript.
ghost use Rattle.std.specs.Prelude.{◌++◌};
ghost use Rattle.tree_specs.specs.Texts.Text.{ask_text, answered_text, end_text, newline};
ghost use Rattle.tree_specs.specs.Texts.Written.{Writes};

use crate::moment::write_moment;
use text_forms::{write_numbers, write_octets, write_pieces};
use tree_specs::{Ask, Memory};

/// Appends the text of a question, with no LF. When memory runs out, a prefix of it was appended.
#[tactic(auto, unfolding(tree_specs::specs::Texts::Text::ask_text))]
pub fn write_ask(ask: &Ask, out: &mut Vec<u8>) -> Result<(), Memory>
    ensures { Writes out.old.items out.new.items result (ask_text ask.now) }
{
    match ask {
        Ask::Quiet => write_pieces(&[b"quiet".as_slice()], out),
        Ask::Routine(moment) => write_moment(moment, out),
        Ask::Clock => write_pieces(&[b"clock".as_slice()], out),
        Ask::Wait(limit) => write_numbers(b"wait", &[*limit], b"", out),
        Ask::Accept(descriptor) => write_numbers(b"accept", &[u64::from(*descriptor)], b"", out),
        Ask::Read(descriptor, most) => {
            write_numbers(
                b"read",
                &[u64::from(*descriptor), u64::from(*most)],
                b"",
                out,
            )
        }
        Ask::Write(descriptor, bytes) => {
            write_octets(b"write", &[u64::from(*descriptor)], bytes, b"", out)
        }
    }
}

/// Appends the line of a question after this front.
fn write_line(front: &[u8], ask: &Ask, out: &mut Vec<u8>) -> Result<(), Memory>
    ensures { Writes out.old.items out.new.items result (front.now ++ ask_text ask.now ++ newline) }
{
    out.extend_from_slice(front)?;
    write_ask(ask, out)?;
    write_pieces(&[b"\n".as_slice()], out)
}

/// Appends the line of a question that was answered, with its LF; Quiet has none. When memory runs out, a prefix of it
/// was appended.
#[tactic(auto, unfolding(tree_specs::specs::Texts::Text::answered_text))]
pub fn write_answered(ask: &Ask, out: &mut Vec<u8>) -> Result<(), Memory>
    ensures { Writes out.old.items out.new.items result (answered_text ask.now) }
{
    match ask {
        Ask::Quiet => Ok(()),
        Ask::Routine(_)
        | Ask::Clock
        | Ask::Wait(_)
        | Ask::Accept(_)
        | Ask::Read(_, _)
        | Ask::Write(_, _) => write_line(b"ask ", ask, out),
    }
}

/// Appends the line of the question that is open at the end, with its LF. When memory runs out, a prefix of it was
/// appended.
#[tactic(auto, unfolding(tree_specs::specs::Texts::Text::end_text))]
pub fn write_end(ask: &Ask, out: &mut Vec<u8>) -> Result<(), Memory>
    ensures { Writes out.old.items out.new.items result (end_text ask.now) }
{
    write_line(b"end ", ask, out)
}
