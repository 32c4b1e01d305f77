//! Turning a line into the same line in version 2.
ghost use Rattle.std.specs.Prelude.{◌≡◌, ◌++◌, cond, codes, [], OnOk, OnErr};
ghost use Rattle.tree_specs.specs.Texts.Text.{newline};
ghost use Rattle.tree_specs.specs.Texts.Written.{Writes};
ghost use Rattle.schedule_text.specs.Converted.{gains_context, Converts};

use crate::line_reader::read_line;
use text_forms::{FormFault, is_in_context};
use tree_specs::{Act, Input, Memory, Version};

/// Whether the line of an input says a context in version 2 that it doesn't say in this one.
fn gains_context(version: Version, input: Input) -> bool
    ensures { result ≡ gains_context version input }
{
    match (version, &input) {
        (Version::One, Input::Call(call) | Input::Act(Act::Do(call))) => is_in_context(call),
        _ => false,
    }
}

/// Appends a line with the first context behind it, where it gains one, and an LF.
fn copy_line(line: &[u8], gains: bool, out: &mut Vec<u8>) -> Result<(), Memory>
    ensures { Writes out.old.items out.new.items result (line.now ++ cond gains (codes " 0") [] ++ newline) }
{
    out.extend_from_slice(line)?;
    if gains {
        out.extend_from_slice(b" 0")?;
    }
    out.push(b'\n')?;
    Ok(())
}

/// The same, or nothing when memory runs out.
fn append_line(line: &[u8], gains: bool, out: &mut Vec<u8>) -> Result<(), Memory>
    ensures text { OnOk result (out.new.items ≡ out.old.items ++ (line.now ++ cond gains (codes " 0") [] ++ newline)) }
    ensures kept { OnErr result (out.new.items ≡ out.old.items) }
{
    let began = out.len();
    let copied = copy_line(line, gains, out);
    if copied.is_err() {
        out.truncate(began);
    }
    copied
}

/// Appends the line of version 2 that spells what a line of this version spells, the line without its LF. NoForm exactly
/// where it spells no input in this version, unless memory ran out; nothing is appended then, and without memory.
///
/// Either version has one spelling of an input, so the bytes of the line are copied. What says no context in version 1 is
/// in the first one.
pub fn convert_line(line: &[u8], version: Version, out: &mut Vec<u8>) -> Result<(), FormFault>
    ensures { Converts version line.now out.old.items out.new.items result }
{
    let input = read_line(*out.allocator(), line, version)?;
    append_line(line, gains_context(version, input), out)?;
    Ok(())
}
