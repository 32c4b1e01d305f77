//! The lines that a connection is answered.
ghost use Rattle.std.specs.Prelude.{◌≡◌, ◌++◌, codes};
ghost use Rattle.tree_specs.specs.Texts.Text.{newline, numbers_text, refusal_numbers};
ghost use Rattle.tree_specs.specs.Texts.Written.{Writes};
ghost use Rattle.service_rules.specs.Answers as rules;

use service_rules::Answer;
use text_forms::{write_number, write_numbers, write_pieces, write_refusal};
use tree_specs::{Memory, Obj, Refusal, Reply};

/// Appends the text of a refusal, and an LF. When memory runs out, a prefix of it was appended.
fn write_no(why: Refusal, out: &mut Vec<u8>) -> Result<(), Memory>
    ensures { Writes out.old.items out.new.items result (codes "no" ++ numbers_text (refusal_numbers why) ++ newline) }
{
    out.extend_from_slice(b"no")?;
    write_refusal(why, out)
}

/// Appends the text of an answer, and an LF. When memory runs out, a prefix of it was appended.
fn write_text(answer: Answer, out: &mut Vec<u8>) -> Result<(), Memory>
    ensures { Writes out.old.items out.new.items result (rules.answer_text answer ++ newline) }
{
    match answer {
        Answer::Ok => write_pieces(&[b"ok\n".as_slice()], out),
        Answer::Number(n) => {
            write_number(n, out)?;
            write_pieces(&[b"\n".as_slice()], out)
        }
        Answer::No(why) => write_no(why, out),
        Answer::Failed(state) => write_numbers(b"failed", &[state], b"\n", out),
    }
}

/// Appends what stands behind the tag. When memory runs out, a prefix of it was appended.
fn write_behind(answer: Answer, out: &mut Vec<u8>) -> Result<(), Memory>
    ensures { Writes out.old.items out.new.items result (codes " " ++ rules.answer_text answer ++ newline) }
{
    out.extend_from_slice(b" ")?;
    write_text(answer, out)
}

/// Appends the line of an answer. When memory runs out, a prefix of it was appended.
#[tactic(auto, unfolding(service_rules::specs::Answers::answer_line))]
pub fn write_answer(tag: u32, answer: Answer, out: &mut Vec<u8>) -> Result<(), Memory>
    ensures { Writes out.old.items out.new.items result (rules.answer_line tag answer) }
{
    write_number(u64::from(tag), out)?;
    write_behind(answer, out)
}

/// The answer of a call's reply.
pub fn replied(reply: &Reply) -> Answer
    ensures { result ≡ rules.replied reply.now }
{
    match reply {
        Reply::Number(n) => Answer::Number(*n),
        Reply::No(why) => Answer::No(*why),
        _ => Answer::Ok,
    }
}

/// The answer of an owner's number: to a line its session is the root.
pub fn replied_owner(reply: &Reply, session: Obj) -> Answer
    ensures { result ≡ rules.replied_owner reply.now session }
{
    match reply {
        Reply::Number(n) => Answer::Number(if *n == session.0 { 0 } else { *n }),
        _ => replied(reply),
    }
}
