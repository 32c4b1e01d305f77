//! Bytes in hexadecimal: lower case, two digits for each.

ghost use Rattle.std.specs.Prelude.{◌≡◌, ◌++◌, IsTrue, codes};
ghost use Rattle.hex.specs.Hex.{encode_lower};
ghost use Rattle.tree_specs.specs.Texts.Grammar.{octets_of};
ghost use Rattle.tree_specs.specs.Texts.Text.{numbers_text};
ghost use Rattle.tree_specs.specs.Texts.Written.{Writes};
ghost use Rattle.text_forms.specs.Bytes.{are_bytes};
ghost use Rattle.text_forms.specs.Reads.{Reads};

use crate::form::FormFault;
use crate::numbers::write_numbers;
use hex::FromHexError;
use std::alloc::Global;
use tree_specs::{Memory, Octets};

/// The bytes that the text spells in hexadecimal, 1 to 65,536 of them: two digits for each, in lower
/// case. NoForm exactly where it spells none, unless memory ran out.
#[tactic(auto, unfolding(tree_specs::specs::Texts::Grammar::octets_of))]
pub fn read_octets(alloc: Global, text: &[u8]) -> Result<Octets, FormFault>
    ensures { Reads result (octets_of text.now) }
{
    let bytes = match hex::decode(alloc, text) {
        Ok(bytes) => bytes,
        Err(FromHexError::OutOfMemory) => return Err(FormFault::Memory),
        Err(_) => return Err(FormFault::NoForm),
    };
    let spelling = hex::encode(alloc, bytes.as_slice())?;
    if spelling.as_bytes() == text {
        Octets::make(bytes).ok_or(FormFault::NoForm)
    } else {
        Err(FormFault::NoForm)
    }
}

/// Tells that bytes are bytes, as their type says.
fn told_bytes(bytes: &[u8]) -> &[u8]
    ensures same { result.now ≡ bytes.now }
    ensures bytes { IsTrue (are_bytes bytes.now) }
{
    bytes
}

/// Lends the bytes of one read or write, and tells that they are bytes.
pub fn lend_bytes(octets: &Octets) -> &[u8]
    ensures value { result.now ≡ octets.now }
    ensures bytes { IsTrue (are_bytes octets.now) }
{
    told_bytes(octets.as_slice())
}

/// Appends a front, then each number with a space before it, then a space and the bytes in hexadecimal,
/// and then an end. When memory runs out, a prefix of it was appended.
pub fn write_octets(
    front: &[u8],
    numbers: &[u64],
    bytes: &Octets,
    end: &[u8],
    out: &mut Vec<u8>,
) -> Result<(), Memory>
    ensures { Writes out.old.items out.new.items result (front.now ++ numbers_text numbers.now ++ codes " " ++ encode_lower bytes.now ++ end.now) }
{
    let text = hex::encode(*out.allocator(), bytes.as_slice())?;
    write_numbers(front, numbers, b" ", out)?;
    out.extend_from_slice(text.as_bytes())?;
    out.extend_from_slice(end)?;
    Ok(())
}
