//! A line of a transcript.
ghost use Rattle.std.specs.Prelude.{◌≡◌};
ghost use Rattle.std.specs.Option.{option_map};
ghost use Rattle.transcript_lines.specs.Heads.{line_end};
ghost use Rattle.transcript_lines.specs.Lines.{line_form, line_of};
ghost use Rattle.transcript_lines.specs.Readings.{says_by};
ghost use Rattle.transcript_lines.specs.Sayings.{said_of};

use crate::event::{read_event, read_freed};
use crate::heads::{LineWord, line_word};
use crate::question::read_question;
use crate::reply::read_reply;
use crate::row::read_row;
use crate::said::Said;
use crate::words::Words;

/// What follows this word.
fn read_line_end(head: LineWord, words: Words) -> Option<Said>
    ensures { result ≡ says_by (line_end head) words.entry }
{
    match head {
        LineWord::Reply => read_reply(words),
        LineWord::Freed => read_freed(words),
        LineWord::Ask => read_question(false, words),
        LineWord::Row => read_row(words),
    }
}

/// What the words of a line say.
fn read_words(mut words: Words) -> Option<Said>
    ensures { result ≡ says_by line_form words.entry }
{
    let word = words.word()?;
    match line_word(word) {
        Some(head) => read_line_end(head, words),
        None => read_event(word, words),
    }
}

/// What a line of a transcript says, the line without its LF, as far as the rules of orderly stories look at it. None
/// exactly where it is no line behind the first.
#[tactic(auto, unfolding(crate::specs::Lines::line_of))]
pub fn read_line(line: &[u8]) -> Option<Said>
    ensures { result ≡ option_map said_of (line_of line.now) }
{
    read_words(Words::of(line))
}
