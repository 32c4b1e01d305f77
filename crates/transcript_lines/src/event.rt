//! Events.
ghost use Rattle.std.specs.Prelude.{◌≡◌, ◌∷◌};
ghost use Rattle.tree_specs.specs.declared.moment.What.{What as WhatData};
ghost use Rattle.transcript_lines.specs.Lines.{freed_form, a_what, fired_end, event_form};
ghost use Rattle.transcript_lines.specs.Lines.Form.{Fails};
ghost use Rattle.transcript_lines.specs.Heads.{event_end};
ghost use Rattle.transcript_lines.specs.Readings.{says_by};

use crate::heads::{EventWord, event_word};
use crate::question::read_question;
use crate::said::{Fact, Said};
use crate::what::what_of;
use crate::words::Words;

/// An object is no more.
pub(crate) fn read_freed(mut words: Words) -> Option<Said>
    ensures { result ≡ says_by freed_form words.entry }
{
    let x = words.object()?;
    let hook = words.small()?;
    words.end()?;
    Some(Said::Tells(Fact::Frees(x, hook)))
}

/// What follows the word for what the routine runs for.
fn read_fired_end(mut words: Words) -> Option<Said>
    ensures { (what : WhatData) → result ≡ says_by (fired_end what) words.entry }
{
    let x = words.object()?;
    words.small()?;
    words.end()?;
    Some(Said::Tells(Fact::Uses(x)))
}

/// A routine runs.
#[tactic(auto, using(crate::proofs::Tables::what_read))]
fn read_fired(mut words: Words) -> Option<Said>
    ensures { result ≡ says_by (a_what fired_end Fails) words.entry }
{
    match what_of(words.word()?) {
        Some(_) => read_fired_end(words),
        None => None,
    }
}

/// A reference is no more.
fn read_unreferenced(mut words: Words) -> Option<Said>
    ensures { result ≡ says_by (event_end EventWord.Unreferenced) words.entry }
{
    let reference = words.object()?;
    let target = words.object()?;
    words.end()?;
    Some(Said::Tells(Fact::Drops(reference, target)))
}

/// A destructor has accepted.
fn read_accepted(mut words: Words) -> Option<Said>
    ensures { result ≡ says_by (event_end EventWord.Accepted) words.entry }
{
    let x = words.object()?;
    words.end()?;
    Some(Said::Tells(Fact::Accepts(x)))
}

/// A destructor has refused.
fn read_refused(mut words: Words) -> Option<Said>
    ensures { result ≡ says_by (event_end EventWord.Refused) words.entry }
{
    let x = words.object()?;
    let answer = words.small()?;
    words.end()?;
    Some(Said::Tells(Fact::Refuses(x, answer)))
}

/// An object has another owner.
fn read_moved(mut words: Words) -> Option<Said>
    ensures { result ≡ says_by (event_end EventWord.Moved) words.entry }
{
    let x = words.object()?;
    let owner = words.owner()?;
    words.end()?;
    Some(Said::Tells(Fact::Moves(x, owner)))
}

/// An object with references was given to another owner.
fn read_warned(mut words: Words) -> Option<Said>
    ensures { result ≡ says_by (event_end EventWord.Warned) words.entry }
{
    let x = words.object()?;
    words.end()?;
    Some(Said::Tells(Fact::Uses(x)))
}

/// A descriptor was closed.
fn read_closed(mut words: Words) -> Option<Said>
    ensures { result ≡ says_by (event_end EventWord.Closed) words.entry }
{
    words.small()?;
    words.end()?;
    Some(Said::Tells(Fact::Nothing))
}

/// A request is in another state.
fn read_state(mut words: Words) -> Option<Said>
    ensures { result ≡ says_by (event_end EventWord.State) words.entry }
{
    let x = words.object()?;
    let state = words.small()?;
    words.end()?;
    Some(Said::Tells(Fact::Sets(x, state)))
}

/// What follows this word.
fn read_event_end(head: EventWord, words: Words) -> Option<Said>
    ensures { result ≡ says_by (event_end head) words.entry }
{
    match head {
        EventWord::Fired => read_fired(words),
        EventWord::Unreferenced => read_unreferenced(words),
        EventWord::Accepted => read_accepted(words),
        EventWord::Refused => read_refused(words),
        EventWord::Moved => read_moved(words),
        EventWord::Warned => read_warned(words),
        EventWord::Closed => read_closed(words),
        EventWord::State => read_state(words),
        EventWord::End => read_question(true, words),
    }
}

/// What a line says that begins with this word.
pub(crate) fn read_event(word: &[u8], words: Words) -> Option<Said>
    ensures { result ≡ says_by event_form (word.now ∷ words.entry) }
{
    match event_word(word) {
        Some(head) => read_event_end(head, words),
        None => None,
    }
}
