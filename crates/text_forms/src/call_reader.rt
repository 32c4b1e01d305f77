//! Calls are read from their text.

ghost use Rattle.std.specs.Prelude.{◌≡◌, ◌≢◌, IfOk, IsTrue, Err};
ghost use Rattle.tree_specs.specs.declared.call.Call.{Call};
ghost use Rattle.tree_specs.specs.Texts.Grammar.{call_of};
ghost use Rattle.tree_specs.specs.Words.Ranges.{is_sound_call_in, is_sound_call};
ghost use Rattle.tree_specs.specs.Texts.Text.{call_text};
ghost use Rattle.text_forms.specs.Bytes.{has_bytes};
ghost use Rattle.text_forms.specs.Reads.{Reads};

use crate::field::Fields;
use crate::form::FormFault;
use crate::split::split_word;
use crate::verb_fields::read_fields;
use crate::verb_words::read_verb;
use std::alloc::Global;
use tree_specs::{Call, Version};

/// The call that the text spells, as the grammar defines it.
#[tactic(auto, using(crate::proofs::Verbs::no_verb, crate::proofs::Verbs::no_fields))]
fn call_value(alloc: Global, text: &[u8], version: Version) -> Result<Call, FormFault>
    ensures { Reads result (call_of version text.now) }
{
    let (word, rest) = split_word(text);
    let verb = read_verb(version, word).ok_or(FormFault::NoForm)?;
    let mut fields = Fields::make(alloc, rest);
    let call = read_fields(version, verb, &mut fields)?;
    fields.end()?;
    Ok(call)
}

/// The call that the text spells in this version: a verb and its fields, with single spaces between them. NoForm
/// exactly where it spells no call in this version, unless memory ran out.
#[tactic(auto, using(crate::proofs::Calls::read_is_sound, crate::proofs::Calls::read_is_spelled, crate::proofs::Calls::unread_is_none))]
pub fn read_call(alloc: Global, text: &[u8], version: Version) -> Result<Call, FormFault>
    ensures value { Reads result (call_of version text.now) }
    ensures sound { IfOk result (λ c. IsTrue (is_sound_call_in version c)) }
    // What is sound in a version is sound in the newest, and so can be given to a host.
    ensures given { IfOk result (λ c. IsTrue (is_sound_call c)) }
    // A call has one spelling in a version, and what is none is the spelling of no call.
    ensures spelled { IfOk result (λ c. text.now ≡ call_text version c) }
    ensures none { result ≡ Err FormFault.NoForm → (c : Call) → IsTrue (is_sound_call_in version c) → IsTrue (has_bytes c) → text.now ≢ call_text version c }
{
    call_value(alloc, text, version)
}
