//! Why a call was refused.
ghost use Rattle.std.specs.Prelude.{◌≡◌};
ghost use Rattle.tree_specs.specs.declared.reply.Refusal.TheVariants as reasons;
ghost use Rattle.transcript_lines.specs.Lines.{a_number, a_small_number, refused, refusal_form};
ghost use Rattle.transcript_lines.specs.Lines.Form.{TakesObject, TakesOwner};
ghost use Rattle.transcript_lines.specs.Readings.{says_by};

use crate::said::{Fact, Said};
use crate::words::Words;

/// A reason that has nothing with it.
fn read_nothing(words: Words) -> Option<Said>
    ensures spent { result ≡ says_by (refused reasons.Spent) words.entry }
    ensures nested { result ≡ says_by (refused reasons.Nested) words.entry }
{
    words.end()?;
    Some(Said::Tells(Fact::Nothing))
}

/// A reason with a number.
fn read_number(mut words: Words) -> Option<Said>
    ensures no_such { result ≡ says_by (a_number (λ n. refused (reasons.NoSuch n))) words.entry }
    ensures full { result ≡ says_by (a_number (λ n. refused (reasons.Full n))) words.entry }
    ensures too_big { result ≡ says_by (a_number (λ n. refused (reasons.TooBig n))) words.entry }
{
    words.number()?;
    words.end()?;
    Some(Said::Tells(Fact::Nothing))
}

/// A descriptor that is in use.
fn read_descriptor(mut words: Words) -> Option<Said>
    ensures { result ≡ says_by (a_small_number (λ fd. refused (reasons.InUse fd))) words.entry }
{
    words.small()?;
    words.end()?;
    Some(Said::Tells(Fact::Nothing))
}

/// A reason with an object.
fn read_object(mut words: Words) -> Option<Said>
    ensures wrong_kind { result ≡ says_by (TakesObject (λ x. refused (reasons.WrongKind x))) words.entry }
    ensures running { result ≡ says_by (TakesObject (λ x. refused (reasons.Running x))) words.entry }
    ensures held { result ≡ says_by (TakesObject (λ x. refused (reasons.Held x))) words.entry }
    ensures dying { result ≡ says_by (TakesObject (λ x. refused (reasons.Dying x))) words.entry }
{
    words.object()?;
    words.end()?;
    Some(Said::Tells(Fact::Nothing))
}

/// A destructor that refused.
fn read_answer(mut words: Words) -> Option<Said>
    ensures { result ≡ says_by (TakesObject (λ x. a_small_number (λ answer. refused (reasons.Refused x answer)))) words.entry }
{
    let x = words.object()?;
    let answer = words.small()?;
    words.end()?;
    Some(Said::Tells(Fact::RefusesCall(x, answer)))
}

/// A request that is in the wrong state.
fn read_state(mut words: Words) -> Option<Said>
    ensures { result ≡ says_by (TakesObject (λ x. a_small_number (λ state. refused (reasons.BadState x state)))) words.entry }
{
    words.object()?;
    words.small()?;
    words.end()?;
    Some(Said::Tells(Fact::Nothing))
}

/// A reason with an object and an owner.
fn read_owner(mut words: Words) -> Option<Said>
    ensures not_parent { result ≡ says_by (TakesObject (λ x. TakesOwner (λ owner. refused (reasons.NotParent x owner)))) words.entry }
    ensures loops { result ≡ says_by (TakesObject (λ x. TakesOwner (λ owner. refused (reasons.Loop x owner)))) words.entry }
{
    words.object()?;
    words.owner()?;
    words.end()?;
    Some(Said::Tells(Fact::Nothing))
}

/// A limit that the call is over.
fn read_limit(mut words: Words) -> Option<Said>
    ensures { result ≡ says_by (TakesObject (λ x. a_number (λ sum. a_number (λ wanted. a_number (λ limit. refused (reasons.OverLimit x sum wanted limit)))))) words.entry }
{
    words.object()?;
    words.number()?;
    words.number()?;
    words.number()?;
    words.end()?;
    Some(Said::Tells(Fact::Nothing))
}

/// A reply that refuses, behind `reply no`: the number of the reason, and what it is about.
pub(crate) fn read_refusal(mut words: Words) -> Option<Said>
    ensures { result ≡ says_by refusal_form words.entry }
{
    match words.word()? {
        b"1" | b"10" | b"14" => read_number(words),
        b"2" | b"3" | b"4" | b"8" => read_object(words),
        b"5" => read_answer(words),
        b"6" | b"7" => read_owner(words),
        b"9" => read_limit(words),
        b"11" | b"15" => read_nothing(words),
        b"12" => read_descriptor(words),
        b"13" => read_state(words),
        _ => None,
    }
}
