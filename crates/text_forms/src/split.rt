//! Texts are split at a byte, or into words.

ghost use Rattle.std.specs.Prelude.{◌≡◌, ◌∷◌};
ghost use Rattle.tree_specs.specs.Texts.Grammar.{words};
ghost use Rattle.text_forms.specs.Cursor.{parts, parts_left, words_left};

/// What stands before the first such byte, and what follows the byte, where there is one: the first of the text's
/// parts, and the text of the others.
pub fn split_part(text: &[u8], byte: u8) -> (&[u8], Option<&[u8]>)
    ensures { parts byte text.now ≡ result.0.now ∷ parts_left byte result.1 }
{
    for (i, b) in text.iter().enumerate() {
        if *b == byte {
            return (&text[..i], Some(&text[i + 1..]));
        }
    }
    (text, None)
}

/// The first word of a text, and what follows the space behind it, where there is one.
pub fn split_word(text: &[u8]) -> (&[u8], Option<&[u8]>)
    ensures { words text.now ≡ result.0.now ∷ words_left result.1 }
{
    split_part(text, b' ')
}
