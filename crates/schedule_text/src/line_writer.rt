//! Writing an input as its line.
ghost use Rattle.std.specs.Prelude.{◌≡◌, ◌++◌, ℕ, IsTrue, List, Some};
ghost use Rattle.tree_specs.specs.declared.schedule.Version.TheVariants.{Two};
ghost use Rattle.tree_specs.specs.Texts.Grammar.{input_of};
ghost use Rattle.tree_specs.specs.Words.Ranges.{is_sound, is_sound_call};
ghost use Rattle.tree_specs.specs.Texts.Text.{call_text, input_text, newline};
ghost use Rattle.tree_specs.specs.Texts.Written.{Writes};
ghost use Rattle.schedule_text.specs.Heard.{input_has_bytes};

use crate::ready::write_ready;
use text_forms::{
    lend_bytes, the_bytes_of_a_call_are_bytes, write_call, write_numbers, write_octets,
    write_pieces,
};
use tree_specs::{Act, Call, Input, Memory};

/// Appends the line of a call after this front.
fn write_call_line(front: &[u8], call: &Call, out: &mut Vec<u8>) -> Result<(), Memory>
    requires { IsTrue (is_sound_call call.now) }
    ensures { Writes out.old.items out.new.items result (front.now ++ call_text Two call.now ++ newline) }
{
    out.extend_from_slice(front)?;
    write_call(call, out)?;
    write_pieces(&[b"\n".as_slice()], out)
}

/// Appends the one line of an input in version 2.
#[tactic(auto, unfolding(tree_specs::specs::Texts::Text::input_text))]
fn write_line(input: &Input, out: &mut Vec<u8>) -> Result<(), Memory>
    requires { IsTrue (is_sound input.now) }
    ensures { Writes out.old.items out.new.items result (input_text Two input.now) }
{
    match input {
        Input::Call(call) => write_call_line(b"call ", call, out),
        Input::Act(Act::Do(call)) => write_call_line(b"act ", call, out),
        Input::Act(Act::Ret(value)) => write_numbers(b"ret", &[u64::from(*value)], b"\n", out),
        Input::Clock(now) => write_numbers(b"clock", &[*now], b"\n", out),
        Input::Ready(wants) => write_ready(wants, out),
        Input::Took(descriptor) => write_numbers(b"took", &[u64::from(*descriptor)], b"\n", out),
        Input::Again => write_pieces(&[b"again\n".as_slice()], out),
        Input::Fault => write_pieces(&[b"fault\n".as_slice()], out),
        Input::Got(bytes) => write_octets(b"got", &[], bytes, b"\n", out),
        Input::End => write_pieces(&[b"end\n".as_slice()], out),
        Input::Wrote(n) => write_numbers(b"wrote", &[u64::from(*n)], b"\n", out),
    }
}

/// Tells that what an input carries are bytes, as its type says.
fn the_bytes_of_an_input_are_bytes(input: &Input)
    ensures { IsTrue (input_has_bytes input.now) }
{
    match input {
        Input::Call(call) | Input::Act(Act::Do(call)) => the_bytes_of_a_call_are_bytes(call),
        Input::Got(bytes) => {
            lend_bytes(bytes);
        }
        _ => {}
    }
}

/// Appends the one line of an input in a schedule of version 2, with its LF. When memory runs out, a prefix of it was appended.
pub fn write_input(input: &Input, out: &mut Vec<u8>) -> Result<(), Memory>
    // Each number is in the range of its field.
    requires { IsTrue (is_sound input.now) }
    ensures written { Writes out.old.items out.new.items result (input_text Two input.now) }
    // The line, without its LF, is read back as the same input.
    ensures read_back { (line : List ℕ) → line ++ newline ≡ input_text Two input.now → input_of Two line ≡ Some input.now }
    // What it carries are bytes, as its type says.
    ensures bytes { IsTrue (input_has_bytes input.now) }
{
    the_bytes_of_an_input_are_bytes(input);
    write_line(input, out)
}
