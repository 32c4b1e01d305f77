//! Numbers in decimal: one as it is read from a text, and as it is written.

ghost use Rattle.std.specs.Prelude.{◌≡◌};
ghost use Rattle.std.specs.Fmt.{decimal};
ghost use Rattle.std.specs.Option.{option_map};
ghost use Rattle.tree_specs.specs.Calls.Spelling.Numeral.{Number, Number32, Positive32, Time, Length};
ghost use Rattle.tree_specs.specs.Texts.Grammar.{number_of, is_short};
ghost use Rattle.tree_specs.specs.Texts.Written.{Writes};
ghost use Rattle.text_forms.specs.Cursor.{leading_digits_of, number_at};
ghost use Rattle.text_forms.specs.Reads.{ReadsNumeral};

use crate::piece::write_pieces;
use crate::range::{as_length, as_positive, as_time, as_u32};
use itoa::Buffer;
use tree_specs::Memory;

/// The value of the digits at the front, where it is below 2 ^ 64, and how many they are.
fn leading_digits(text: &[u8]) -> Option<(u64, usize)>
    ensures { result ≡ leading_digits_of text.now }
{
    let mut n: u64 = 0;
    for (i, b) in text.iter().enumerate() {
        if !b.is_ascii_digit() {
            return Some((n, i));
        }
        n = n.checked_mul(10)?.checked_add(u64::from(*b - b'0'))?;
    }
    Some((n, text.len()))
}

/// Whether there is a digit, and no zero before others.
fn has_short_form(text: &[u8]) -> bool
    ensures { result ≡ is_short text.now }
{
    match text {
        [] => false,
        [b'0', _, ..] => false,
        _ => true,
    }
}

/// The number that the digits at the front spell, and what follows them. None where they spell none.
#[tactic(auto, unfolding(crate::specs::Cursor::number_at, tree_specs::specs::Texts::Grammar::number_of))]
pub(crate) fn leading_number(text: &[u8]) -> Option<(u64, &[u8])>
    ensures { option_map (λ r. (r.0, r.1.now)) result ≡ number_at text.now }
{
    let (n, count) = leading_digits(text)?;
    let (digits, rest) = text.split_at(count);
    if has_short_form(digits) {
        Some((n, rest))
    } else {
        None
    }
}

/// The number that the text spells, as the grammar defines it.
#[tactic(auto, using(crate::proofs::Cursor::number_is))]
fn number_value(text: &[u8]) -> Option<u64>
    ensures { result ≡ number_of text.now }
{
    let (n, rest) = leading_number(text)?;
    if rest.is_empty() { Some(n) } else { None }
}

/// The number below 2 ^ 64 that the text spells: decimal digits with no leading zero. None exactly
/// where it spells no such number.
pub fn read_number(text: &[u8]) -> Option<u64>
    ensures { ReadsNumeral result Number text.now }
{
    number_value(text)
}

/// The number that the text spells, from 0 to 4,294,967,295: a descriptor, or what a routine returns. It is
/// in decimal digits with no leading zero. None exactly where the text spells no such number.
#[tactic(auto, using(crate::proofs::Fields::numeral_is_read), unfolding(tree_specs::specs::Texts::Grammar::numeral_of))]
pub fn read_u32(text: &[u8]) -> Option<u32>
    ensures { ReadsNumeral result Number32 text.now }
{
    as_u32(number_value(text)?)
}

/// The number that the text spells, from 1 to 4,294,967,295: a descriptor that was accepted, say. It is in
/// decimal digits with no leading zero. None exactly where the text spells no such number.
#[tactic(auto, using(crate::proofs::Fields::numeral_is_read), unfolding(tree_specs::specs::Texts::Grammar::numeral_of))]
pub fn read_positive(text: &[u8]) -> Option<u32>
    ensures { ReadsNumeral result Positive32 text.now }
{
    as_positive(number_value(text)?)
}

/// The time in microseconds that the text spells, from 0 to TIME_LIMIT. It is in decimal digits with no
/// leading zero. None exactly where the text spells no such time.
#[tactic(auto, using(crate::proofs::Fields::numeral_is_read), unfolding(tree_specs::specs::Texts::Grammar::numeral_of))]
pub fn read_time(text: &[u8]) -> Option<u64>
    ensures { ReadsNumeral result Time text.now }
{
    as_time(number_value(text)?)
}

/// The number of bytes of one read or write that the text spells, from 1 to OCTETS_LIMIT. It is in decimal
/// digits with no leading zero. None exactly where the text spells no such number.
#[tactic(auto, using(crate::proofs::Fields::numeral_is_read), unfolding(tree_specs::specs::Texts::Grammar::numeral_of))]
pub fn read_length(text: &[u8]) -> Option<u32>
    ensures { ReadsNumeral result Length text.now }
{
    as_length(number_value(text)?)
}

/// Appends the one spelling of a number. When memory runs out, a prefix of it was appended.
pub fn write_number(n: u64, out: &mut Vec<u8>) -> Result<(), Memory>
    ensures { Writes out.old.items out.new.items result (decimal n) }
{
    let mut buffer = Buffer::new();
    write_pieces(&[buffer.format(n).as_bytes()], out)
}
