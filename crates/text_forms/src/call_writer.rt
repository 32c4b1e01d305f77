//! Calls are written as their text.

ghost use Rattle.std.specs.Prelude.{◌≡◌, ◌++◌, IsTrue, Some, codes};
ghost use Rattle.tree_specs.specs.declared.schedule.Version.TheVariants.{Two};
ghost use Rattle.tree_specs.specs.Texts.Grammar.{call_of};
ghost use Rattle.tree_specs.specs.Words.Ranges.{is_sound_call};
ghost use Rattle.tree_specs.specs.Texts.Text.{call_text, numbers_text};
ghost use Rattle.tree_specs.specs.Texts.Written.{Writes};
ghost use Rattle.text_forms.specs.Bytes.{has_bytes};
ghost use Rattle.text_forms.specs.Spelled.{fields_text};

use crate::numbers::write_numbers;
use crate::octets::{lend_bytes, write_octets};
use crate::spelling::{CallFields, Spelling, spell};
use tree_specs::{Call, Memory, Name};

/// A verb and its fields, which are all numbers.
fn write_fields(verb: &[u8], numbers: &[u64], out: &mut Vec<u8>) -> Result<(), Memory>
    ensures { Writes out.old.items out.new.items result (verb.now ++ numbers_text numbers.now) }
{
    write_numbers(verb, numbers, b"", out)
}

/// A verb and its fields, which are numbers and then a name.
fn write_named(verb: &[u8], numbers: &[u64], name: &Name, out: &mut Vec<u8>) -> Result<(), Memory>
    ensures { Writes out.old.items out.new.items result (verb.now ++ numbers_text numbers.now ++ codes " " ++ name.now) }
{
    write_numbers(verb, numbers, b" ", out)?;
    out.extend_from_slice(name.as_slice())?;
    Ok(())
}

/// A verb and its fields.
fn write_spelling(spelling: Spelling, out: &mut Vec<u8>) -> Result<(), Memory>
    ensures { Writes out.old.items out.new.items result (spelling.entry.verb.now ++ fields_text spelling.entry.fields) }
{
    let Spelling { verb, fields } = spelling;
    match fields {
        CallFields::Bare => write_fields(verb, &[], out),
        CallFields::One(a) => write_fields(verb, &[a], out),
        CallFields::Two(a, b) => write_fields(verb, &[a, b], out),
        CallFields::Three(a, b, c) => write_fields(verb, &[a, b, c], out),
        CallFields::Four(a, b, c, d) => write_fields(verb, &[a, b, c, d], out),
        CallFields::Five(a, b, c, d, e) => write_fields(verb, &[a, b, c, d, e], out),
        CallFields::Six(a, b, c, d, e, f) => write_fields(verb, &[a, b, c, d, e, f], out),
        CallFields::OneAndName(a, name) => write_named(verb, &[a], name, out),
        CallFields::TwoAndName(a, b, name) => write_named(verb, &[a, b], name, out),
        CallFields::OneAndBytes(a, bytes) => write_octets(verb, &[a], bytes, b"", out),
    }
}

/// The call's verb and its fields, as the text's definition has them.
#[tactic(auto, unfolding(tree_specs::specs::Texts::Text::call_text))]
fn write_text(call: &Call, out: &mut Vec<u8>) -> Result<(), Memory>
    ensures { Writes out.old.items out.new.items result (call_text Two call.now) }
{
    write_spelling(spell(call), out)
}

/// Tells that what a call carries are bytes, as its type says. It does nothing: proofs of what is written need the fact.
pub fn the_bytes_of_a_call_are_bytes(call: &Call)
    ensures { IsTrue (has_bytes call.now) }
{
    if let Call::Write { bytes, .. } = call {
        lend_bytes(bytes);
    }
}

/// Appends the one spelling of a call in version 2. When memory runs out, a prefix of it was appended.
#[tactic(auto, using(crate::proofs::Calls::call_again))]
pub fn write_call(call: &Call, out: &mut Vec<u8>) -> Result<(), Memory>
    // Each number is in the range of its field: an owner that isn't the root has one from 1 upwards.
    requires { IsTrue (is_sound_call call.now) }
    ensures written { Writes out.old.items out.new.items result (call_text Two call.now) }
    ensures read_back { call_of Two (call_text Two call.now) ≡ Some call.now }
{
    the_bytes_of_a_call_are_bytes(call);
    write_text(call, out)
}
