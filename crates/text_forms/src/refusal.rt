//! Writing a refusal as numbers.
ghost use Rattle.std.specs.Prelude.{◌++◌};
ghost use Rattle.tree_specs.specs.Texts.Text.{newline, numbers_text, refusal_numbers};
ghost use Rattle.tree_specs.specs.Texts.Written.{Writes};

use crate::numbers::write_rest;
use tree_specs::{Memory, Refusal};

/// Appends a refusal as its number and what it carries, each with a space before it, and then an LF. When memory runs
/// out, a prefix of it was appended.
#[tactic(auto, unfolding(tree_specs::specs::Texts::Text::refusal_numbers))]
pub fn write_refusal(why: Refusal, out: &mut Vec<u8>) -> Result<(), Memory>
    ensures { Writes out.old.items out.new.items result (numbers_text (refusal_numbers why) ++ newline) }
{
    match why {
        Refusal::NoSuch(n) => write_rest(&[1, n], b"\n", out),
        Refusal::WrongKind(x) => write_rest(&[2, x.0], b"\n", out),
        Refusal::Running(x) => write_rest(&[3, x.0], b"\n", out),
        Refusal::Held(x) => write_rest(&[4, x.0], b"\n", out),
        Refusal::Refused { object, answer } => write_rest(
            &[5, object.0, u64::from(answer)],
            b"\n",
            out,
        ),
        Refusal::NotParent { object, owner } => write_rest(
            &[6, object.0, owner.number()],
            b"\n",
            out,
        ),
        Refusal::Loop { object, owner } => write_rest(&[7, object.0, owner.number()], b"\n", out),
        Refusal::Dying(x) => write_rest(&[8, x.0], b"\n", out),
        Refusal::OverLimit {
            row,
            sum,
            wanted,
            limit,
        } => write_rest(&[9, row.0, sum, wanted, limit], b"\n", out),
        Refusal::Full(n) => write_rest(&[10, n], b"\n", out),
        Refusal::Spent => write_rest(&[11], b"\n", out),
        Refusal::InUse(descriptor) => write_rest(&[12, u64::from(descriptor)], b"\n", out),
        Refusal::BadState { object, state } => write_rest(
            &[13, object.0, u64::from(state)],
            b"\n",
            out,
        ),
        Refusal::TooBig(n) => write_rest(&[14, n], b"\n", out),
        Refusal::Nested => write_rest(&[15], b"\n", out),
    }
}
