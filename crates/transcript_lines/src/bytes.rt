//! Whether a text is a name, or bytes in hexadecimal; it takes no memory to find out.
ghost use Rattle.std.specs.Prelude.{◌≡◌};
ghost use Rattle.std.specs.Option.{is_some};
ghost use Rattle.std.specs.List.{list_all};
ghost use Rattle.tree_specs.specs.Texts.Grammar.{octets_of};
ghost use Rattle.tree_specs.specs.Words.Names.{is_name, is_graphic};
ghost use Rattle.transcript_lines.specs.Digits.{is_digit, is_hexadecimal};

use tree_specs::{NAME_LIMIT, OCTETS_LIMIT};

/// Whether a byte is a printable ASCII character and no space.
fn is_graphic_byte(b: u8) -> bool
    ensures { result ≡ is_graphic b }
{
    0x21 <= b && b <= 0x7E
}

fn is_graphic_text(text: &[u8]) -> bool
    ensures { result ≡ list_all is_graphic text.now }
{
    text.iter().all(|b| is_graphic_byte(*b))
}

/// Whether the text is a name.
pub(crate) fn is_name(text: &[u8]) -> bool
    ensures { result ≡ is_name text.now }
{
    let graphic = is_graphic_text(text);
    graphic && 1 <= text.len() && text.len() <= NAME_LIMIT
}

fn is_digit(b: u8) -> bool
    ensures { result ≡ is_digit b }
{
    (b'0' <= b && b <= b'9') || (b'a' <= b && b <= b'f')
}

fn are_digits(text: &[u8]) -> bool
    ensures { result ≡ list_all is_digit text.now }
{
    text.iter().all(|b| is_digit(*b))
}

/// Whether there are two digits for each of 1 to 65,536 bytes.
fn has_digits(text: &[u8]) -> bool
    ensures { result ≡ is_hexadecimal text.now }
{
    let digits = are_digits(text);
    digits && text.len() % 2 == 0 && 2 <= text.len() && text.len() <= 2 * OCTETS_LIMIT
}

/// Whether the text is some bytes in hexadecimal: two digits for each, in lower case.
#[tactic(auto, using(crate::proofs::Digits::octets_are))]
pub(crate) fn is_hexadecimal(text: &[u8]) -> bool
    ensures { result ≡ is_some (octets_of text.now) }
{
    has_digits(text)
}
