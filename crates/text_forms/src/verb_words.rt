//! The words of verbs. A word is compared with those alone that have as many letters as it, a dozen at most.
// In an arm of a byte string each byte is known: together they are the word.
#![tactic(auto, using(std::proofs::lemmas::Slice::Eq::text_from_reads))]

ghost use Rattle.std.specs.Prelude.{◌≡◌, nat_eq, nat_lt};
ghost use Rattle.tree_specs.specs.declared.schedule.Version.TheVariants.{Two};
ghost use Rattle.tree_specs.specs.Calls.Spelling.{forms};
ghost use Rattle.text_forms.specs.Verbs.{forms_of, has_verb, IsVerb, IsVerbIn};

use crate::verb::{
    ContextVerb, DescriptorVerb, NumberVerb, ObjectContextVerb, ObjectVerb, OwnerObjectVerb,
    OwnerVerb, RoutineVerb, SizeVerb, Verb,
};
use tree_specs::Version;

/// The verb that this word of three letters or fewer is.
fn short_verb(word: &[u8]) -> Option<Verb>
    ensures { IsVerbIn (forms_of (λ n. nat_lt n 4)) result word.now }
{
    match word {
        b"new" => Some(Verb::Size(SizeVerb::New)),
        b"sum" => Some(Verb::Owner(OwnerVerb::Sum)),
        b"fd" => Some(Verb::Fd),
        b"req" => Some(Verb::Size(SizeVerb::Req)),
        b"oom" => Some(Verb::Object(ObjectVerb::Oom)),
        b"now" => Some(Verb::Now),
        _ => None,
    }
}

/// The verb that this word of four letters is.
fn verb_of_4(word: &[u8]) -> Option<Verb>
    ensures { IsVerbIn (forms_of (λ n. nat_eq n 4)) result word.now }
{
    match word {
        b"free" => Some(Verb::Object(ObjectVerb::Free)),
        b"move" => Some(Verb::OwnerObject(OwnerObjectVerb::Move)),
        b"hook" => Some(Verb::Hook),
        b"read" => Some(Verb::Read),
        b"post" => Some(Verb::ObjectContext(ObjectContextVerb::Post)),
        b"done" => Some(Verb::Object(ObjectVerb::Done)),
        b"stop" => Some(Verb::Object(ObjectVerb::Stop)),
        b"turn" => Some(Verb::Context(ContextVerb::Turn)),
        _ => None,
    }
}

/// The verb that this word of five letters is.
fn verb_of_5(word: &[u8]) -> Option<Verb>
    ensures { IsVerbIn (forms_of (λ n. nat_eq n 5)) result word.now }
{
    match word {
        b"steal" => Some(Verb::OwnerObject(OwnerObjectVerb::Steal)),
        b"limit" => Some(Verb::Number(NumberVerb::Limit)),
        b"total" => Some(Verb::Owner(OwnerVerb::Total)),
        b"count" => Some(Verb::Owner(OwnerVerb::Count)),
        b"timer" => Some(Verb::Timer),
        b"flags" => Some(Verb::Flags),
        b"close" => Some(Verb::Descriptor(DescriptorVerb::Close)),
        b"write" => Some(Verb::Write),
        b"defer" => Some(Verb::ObjectContext(ObjectContextVerb::Defer)),
        b"error" => Some(Verb::Number(NumberVerb::Error)),
        b"queue" => Some(Verb::Queue),
        b"start" => Some(Verb::Object(ObjectVerb::Start)),
        _ => None,
    }
}

/// The verb that this word of six letters is.
fn verb_of_6(word: &[u8]) -> Option<Verb>
    ensures { IsVerbIn (forms_of (λ n. nat_eq n 6)) result word.now }
{
    match word {
        b"unlink" => Some(Verb::OwnerObject(OwnerObjectVerb::Unlink)),
        b"unhook" => Some(Verb::Object(ObjectVerb::Unhook)),
        b"rename" => Some(Verb::Rename),
        b"resize" => Some(Verb::Number(NumberVerb::Resize)),
        b"parent" => Some(Verb::Object(ObjectVerb::Parent)),
        b"report" => Some(Verb::Owner(OwnerVerb::Report)),
        b"accept" => Some(Verb::Descriptor(DescriptorVerb::Accept)),
        b"cancel" => Some(Verb::Object(ObjectVerb::Cancel)),
        b"length" => Some(Verb::Object(ObjectVerb::Length)),
        _ => None,
    }
}

/// The verb that this word of seven letters is.
fn verb_of_7(word: &[u8]) -> Option<Verb>
    ensures { IsVerbIn (forms_of (λ n. nat_eq n 7)) result word.now }
{
    match word {
        b"cleanup" => Some(Verb::Routine(RoutineVerb::Cleanup)),
        b"iserror" => Some(Verb::Object(ObjectVerb::Iserror)),
        b"endtime" => Some(Verb::Endtime),
        b"enqueue" => Some(Verb::Enqueue),
        b"running" => Some(Verb::Object(ObjectVerb::Running)),
        b"pending" => Some(Verb::Context(ContextVerb::Pending)),
        b"context" => Some(Verb::Owner(OwnerVerb::Context)),
        _ => None,
    }
}

/// The verb that this word of eight letters is.
fn verb_of_8(word: &[u8]) -> Option<Verb>
    ensures { IsVerbIn (forms_of (λ n. nat_eq n 8)) result word.now }
{
    match word {
        b"freekids" => Some(Verb::Object(ObjectVerb::Freekids)),
        b"reparent" => Some(Verb::Reparent),
        b"schedule" => Some(Verb::Schedule),
        b"getflags" => Some(Verb::Object(ObjectVerb::Getflags)),
        b"callback" => Some(Verb::Callback),
        b"progress" => Some(Verb::Object(ObjectVerb::Progress)),
        b"received" => Some(Verb::Object(ObjectVerb::Received)),
        _ => None,
    }
}

/// The verb that this word of nine letters or more is.
fn long_verb(word: &[u8]) -> Option<Verb>
    ensures { IsVerbIn (forms_of (λ n. nat_lt 8 n)) result word.now }
{
    match word {
        b"reference" => Some(Verb::OwnerObject(OwnerObjectVerb::Reference)),
        b"immediate" => Some(Verb::Owner(OwnerVerb::Immediate)),
        b"unschedule" => Some(Verb::Object(ObjectVerb::Unschedule)),
        b"autoclose" => Some(Verb::Object(ObjectVerb::Autoclose)),
        b"setcancel" => Some(Verb::Routine(RoutineVerb::Setcancel)),
        _ => None,
    }
}

/// The verb that this word is in version 2, which has all verbs.
fn any_verb(word: &[u8]) -> Option<Verb>
    ensures { IsVerbIn (forms Two) result word.now }
{
    match word.len() {
        0..=3 => short_verb(word),
        4 => verb_of_4(word),
        5 => verb_of_5(word),
        6 => verb_of_6(word),
        7 => verb_of_7(word),
        8 => verb_of_8(word),
        _ => long_verb(word),
    }
}

/// Whether a version has this verb.
fn has_verb(version: Version, verb: Verb) -> bool
    ensures { result ≡ has_verb version verb }
{
    match (version, verb) {
        (Version::One, Verb::Owner(OwnerVerb::Context)) => false,
        _ => true,
    }
}

/// The verb that this word is in a version.
pub(crate) fn read_verb(version: Version, word: &[u8]) -> Option<Verb>
    ensures { IsVerb version result word.now }
{
    let verb = any_verb(word)?;
    if has_verb(version, verb) {
        Some(verb)
    } else {
        None
    }
}
