//! The replies of calls.
ghost use Rattle.std.specs.Prelude.{◌≡◌, ◌∷◌, ℕ};
ghost use Rattle.transcript_lines.specs.Heads.{reply_end};
ghost use Rattle.transcript_lines.specs.Lines.{pair_end, number_end, numbers_form, reply_form};
ghost use Rattle.transcript_lines.specs.Readings.{says_by};

use crate::heads::{ReplyWord, reply_word};
use crate::refusal::read_refusal;
use crate::said::{Fact, Said};
use crate::words::Words;
use text_forms::read_number;

/// The second of two numbers.
fn read_second(mut words: Words) -> Option<Said>
    ensures { (n : ℕ) → result ≡ says_by (pair_end n) words.entry }
{
    words.number()?;
    words.end()?;
    Some(Said::Tells(Fact::Nothing))
}

/// What follows a number: nothing, or a second one.
fn read_number_end(words: Words) -> Option<Said>
    ensures { (n : ℕ) → result ≡ says_by (number_end n) words.entry }
{
    if words.is_over() {
        Some(Said::Tells(Fact::Nothing))
    } else {
        read_second(words)
    }
}

/// A reply of one number, which is this word, or two.
fn read_numbers(word: &[u8], words: Words) -> Option<Said>
    ensures { result ≡ says_by numbers_form (word.now ∷ words.entry) }
{
    match read_number(word) {
        Some(_) => read_number_end(words),
        None => None,
    }
}

/// What follows this word.
fn read_reply_end(head: ReplyWord, mut words: Words) -> Option<Said>
    ensures { result ≡ says_by (reply_end head) words.entry }
{
    match head {
        ReplyWord::No => read_refusal(words),
        ReplyWord::Rows => {
            let n = words.number()?;
            words.end()?;
            Some(Said::Rows(n))
        }
        ReplyWord::Got => {
            if words.is_bytes() {
                Some(Said::Tells(Fact::Nothing))
            } else {
                None
            }
        }
        ReplyWord::Ok | ReplyWord::Again | ReplyWord::Fault | ReplyWord::End => {
            words.end()?;
            Some(Said::Tells(Fact::Nothing))
        }
    }
}

/// A reply, behind its first word.
pub(crate) fn read_reply(mut words: Words) -> Option<Said>
    ensures { result ≡ says_by reply_form words.entry }
{
    let word = words.word()?;
    match reply_word(word) {
        Some(head) => read_reply_end(head, words),
        None => read_numbers(word, words),
    }
}
