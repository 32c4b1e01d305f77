//! Numbers with a space before each, as most lines have them.

ghost use Rattle.std.specs.Prelude.{◌++◌, codes};
ghost use Rattle.std.specs.Fmt.{decimal};
ghost use Rattle.tree_specs.specs.Texts.Text.{numbers_text};
ghost use Rattle.tree_specs.specs.Texts.Written.{Writes};

use itoa::Buffer;
use tree_specs::Memory;

/// Appends a few bytes. A call that copies many costs more than a loop over few.
fn write_few(bytes: &[u8], out: &mut Vec<u8>) -> Result<(), Memory>
    ensures { Writes out.old.items out.new.items result bytes.now }
{
    for byte in bytes {
        out.push(*byte)?;
    }
    Ok(())
}

/// Appends a space and then a number.
fn write_spaced(n: u64, out: &mut Vec<u8>) -> Result<(), Memory>
    ensures { Writes out.old.items out.new.items result (codes " " ++ decimal n) }
{
    let mut buffer = Buffer::new();
    out.push(b' ')?;
    write_few(buffer.format(n).as_bytes(), out)
}

/// Appends each number with a space before it.
fn write_each(numbers: &[u64], out: &mut Vec<u8>) -> Result<(), Memory>
    ensures { Writes out.old.items out.new.items result (numbers_text numbers.now) }
{
    for n in numbers {
        write_spaced(*n, out)?;
    }
    Ok(())
}

/// Appends each number with a space before it, and then an end: one function for whatever stands in front.
#[inline(never)]
pub(crate) fn write_rest(numbers: &[u64], end: &[u8], out: &mut Vec<u8>) -> Result<(), Memory>
    ensures { Writes out.old.items out.new.items result (numbers_text numbers.now ++ end.now) }
{
    write_each(numbers, out)?;
    write_few(end, out)
}

/// Appends a front, then each number with a space before it, and then an end: most lines, refusals
/// and questions are such texts. When memory runs out, a prefix of it was appended. A front that stands in the program is
/// copied by a few instructions where the caller is compiled.
#[inline(always)]
pub fn write_numbers(
    front: &[u8],
    numbers: &[u64],
    end: &[u8],
    out: &mut Vec<u8>,
) -> Result<(), Memory>
    ensures { Writes out.old.items out.new.items result (front.now ++ numbers_text numbers.now ++ end.now) }
{
    out.extend_from_slice(front)?;
    write_rest(numbers, end, out)
}
