//! Reading an input from its line.
ghost use Rattle.std.specs.Prelude.{◌≡◌, ◌≢◌, ◌++◌, IfOk, IsTrue, Err};
ghost use Rattle.tree_specs.specs.declared.question.Input.{Input as InputData};
ghost use Rattle.tree_specs.specs.Texts.Grammar.{alone, input_of};
ghost use Rattle.tree_specs.specs.Words.Ranges.{is_sound_in, is_sound};
ghost use Rattle.tree_specs.specs.Texts.Text.{input_text, newline};
ghost use Rattle.text_forms.specs.Reads.{Reads};
ghost use Rattle.schedule_text.specs.Heard.{heard_input_of, input_has_bytes};

use crate::front::after_front;
use crate::ready::read_ready;
use std::alloc::Global;
use text_forms::{
    FormFault, read_call, read_length, read_octets, read_positive, read_time, read_u32,
};
use tree_specs::{Act, Input, Version};

/// Reads an input that is told by a word alone, which nothing may follow.
fn alone_value(text: &[u8], input: Input) -> Result<Input, FormFault>
    ensures { Reads result (alone input text.now) }
{
    if text.is_empty() {
        Ok(input)
    } else {
        Err(FormFault::NoForm)
    }
}

/// Reads what a descriptor answered, as the line tells it.
fn heard_value(alloc: Global, line: &[u8]) -> Result<Input, FormFault>
    ensures { Reads result (heard_input_of line.now) }
{
    if let Some(text) = after_front(line, b"took ") {
        read_positive(text)
            .map(Input::Took)
            .ok_or(FormFault::NoForm)
    } else if let Some(text) = after_front(line, b"again") {
        alone_value(text, Input::Again)
    } else if let Some(text) = after_front(line, b"fault") {
        alone_value(text, Input::Fault)
    } else if let Some(text) = after_front(line, b"got ") {
        read_octets(alloc, text).map(Input::Got)
    } else if let Some(text) = after_front(line, b"end") {
        alone_value(text, Input::End)
    } else if let Some(text) = after_front(line, b"wrote ") {
        read_length(text).map(Input::Wrote).ok_or(FormFault::NoForm)
    } else {
        Err(FormFault::NoForm)
    }
}

/// Reads the input that the line spells in this version, as the grammar defines it: its front decides how the rest is
/// read.
#[tactic(auto, unfolding(tree_specs::specs::Texts::Grammar::input_of))]
#[inline(always)]
fn input_value(alloc: Global, line: &[u8], version: Version) -> Result<Input, FormFault>
    ensures { Reads result (input_of version line.now) }
{
    if let Some(text) = after_front(line, b"call ") {
        read_call(alloc, text, version).map(Input::Call)
    } else if let Some(text) = after_front(line, b"act ") {
        read_call(alloc, text, version).map(|call| Input::Act(Act::Do(call)))
    } else if let Some(text) = after_front(line, b"ret ") {
        read_u32(text)
            .map(|value| Input::Act(Act::Ret(value)))
            .ok_or(FormFault::NoForm)
    } else if let Some(text) = after_front(line, b"clock ") {
        read_time(text).map(Input::Clock).ok_or(FormFault::NoForm)
    } else if let Some(text) = after_front(line, b"ready") {
        read_ready(alloc, text)
    } else {
        heard_value(alloc, line)
    }
}

/// The input that a line of a schedule of this version spells, the line without its LF. NoForm exactly where it
/// spells no input in this version, unless memory ran out. The length of the line isn't judged here.
#[tactic(auto, using(crate::proofs::Inputs::read_is_sound, crate::proofs::Inputs::read_is_spelled, crate::proofs::Inputs::unread_is_none))]
#[inline(always)]
pub fn read_line(alloc: Global, line: &[u8], version: Version) -> Result<Input, FormFault>
    ensures value { Reads result (input_of version line.now) }
    ensures sound { IfOk result (λ i. IsTrue (is_sound_in version i)) }
    // What is sound in a version is sound in the newest, and so can be given to a host.
    ensures given { IfOk result (λ i. IsTrue (is_sound i)) }
    // An input has one line in a version, and what is none is the line of no input.
    ensures spelled { IfOk result (λ i. line.now ++ newline ≡ input_text version i) }
    ensures none { result ≡ Err FormFault.NoForm → (i : InputData) → IsTrue (is_sound_in version i) → IsTrue (input_has_bytes i) → line.now ++ newline ≢ input_text version i }
{
    input_value(alloc, line, version)
}
