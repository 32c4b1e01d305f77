//! Questions: those that were answered, and the one that is open at the end.
ghost use Rattle.std.specs.Prelude.{◌≡◌, ◌∷◌};
ghost use Rattle.transcript_lines.specs.Heads.{outside_end};
ghost use Rattle.transcript_lines.specs.Lines.{moment_form, outside_form};
ghost use Rattle.transcript_lines.specs.Readings.{says_by, line_by, quiet_form, question_form};
ghost use Rattle.transcript_lines.specs.Sayings.{fact_of_moment, told_by};

use crate::heads::{OutsideWord, outside_word};
use crate::said::{Fact, Said};
use crate::what::what_of;
use crate::words::Words;
use tree_specs::{Obj, What};

/// What the question of a routine at this moment says.
fn asks_of(what: What, x: Obj) -> Fact
    ensures { result ≡ fact_of_moment what x }
{
    match what {
        What::Hook => Fact::Asks(x),
        _ => Fact::Nothing,
    }
}

/// What a question says, which is open at the end or was answered.
fn told(is_open: bool, fact: Fact) -> Said
    ensures { result ≡ told_by is_open fact }
{
    if is_open {
        Said::Ends(fact)
    } else {
        Said::Tells(fact)
    }
}

/// What a routine does that runs for this.
#[tactic(auto, using(crate::proofs::Lasts::said_told))]
fn read_moment(is_open: bool, what: What, mut words: Words) -> Option<Said>
    ensures { result ≡ says_by (moment_form (line_by is_open) what) words.entry }
{
    let x = words.object()?;
    words.small()?;
    words.number()?;
    words.number()?;
    words.small()?;
    words.small()?;
    words.end()?;
    Some(told(is_open, asks_of(what, x)))
}

/// The question Quiet, which has a line only where it is open.
fn read_quiet(is_open: bool, word: &[u8], words: Words) -> Option<Said>
    ensures { result ≡ says_by (quiet_form is_open) (word.now ∷ words.entry) }
{
    if !is_open || word != b"quiet".as_slice() {
        return None;
    }
    words.end()?;
    Some(Said::Ends(Fact::Nothing))
}

/// What follows the word of a question that no routine answers.
#[tactic(auto, using(crate::proofs::Lasts::said_told))]
fn read_outside_end(is_open: bool, head: OutsideWord, mut words: Words) -> Option<Said>
    ensures { result ≡ says_by (outside_end (line_by is_open) head) words.entry }
{
    match head {
        OutsideWord::Clock => {
            words.end()?;
            Some(told(is_open, Fact::Nothing))
        }
        OutsideWord::Wait => {
            words.number()?;
            words.end()?;
            Some(told(is_open, Fact::Nothing))
        }
        OutsideWord::Accept => {
            words.small()?;
            words.end()?;
            Some(told(is_open, Fact::Nothing))
        }
        OutsideWord::Read => {
            words.small()?;
            words.small()?;
            words.end()?;
            Some(told(is_open, Fact::Nothing))
        }
        OutsideWord::Write => {
            words.small()?;
            if words.is_bytes() {
                Some(told(is_open, Fact::Nothing))
            } else {
                None
            }
        }
    }
}

/// A question that no routine answers.
fn read_outside(is_open: bool, word: &[u8], words: Words) -> Option<Said>
    ensures { result ≡ says_by (outside_form (line_by is_open) (quiet_form is_open)) (word.now ∷ words.entry) }
{
    match outside_word(word) {
        Some(head) => read_outside_end(is_open, head, words),
        None => read_quiet(is_open, word, words),
    }
}

/// A question, behind the first word of its line.
#[tactic(auto, using(crate::proofs::Tables::what_read))]
pub(crate) fn read_question(is_open: bool, mut words: Words) -> Option<Said>
    ensures { result ≡ says_by (question_form is_open) words.entry }
{
    let word = words.word()?;
    match what_of(word) {
        Some(what) => read_moment(is_open, what, words),
        None => read_outside(is_open, word, words),
    }
}
