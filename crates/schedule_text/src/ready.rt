//! The line that tells which descriptors are ready: its reader and its writer.

ghost use Rattle.std.specs.Prelude.{◌≡◌, ◌++◌, codes};
ghost use Rattle.tree_specs.specs.Texts.Grammar.{want_of, words, ready_input_of};
ghost use Rattle.tree_specs.specs.Texts.Text.{newline, want_text, wants_text};
ghost use Rattle.tree_specs.specs.Texts.Written.{Writes};
ghost use Rattle.text_forms.specs.Cursor.{words_left};
ghost use Rattle.text_forms.specs.Reads.{Reads};
ghost use Rattle.schedule_text.specs.Wants.{ready_list_of, spaced_list_of};

use std::alloc::Global;
use text_forms::{FormFault, read_u32, split_part, split_word, write_number, write_numbers};
use tree_specs::{Input, Memory, Want, Wants};

/// Reads a descriptor and its flags, as the grammar defines them.
fn want_value(word: &[u8]) -> Option<Want>
    ensures { result ≡ want_of word.now }
{
    let (descriptor, rest) = split_part(word, b':');
    let flags = rest?;
    Some(Want {
        fd: read_u32(descriptor)?,
        flags: read_u32(flags)?,
    })
}

/// Reads the descriptors that the words spell, where these can be ready.
fn read_list(alloc: Global, start: Option<&[u8]>) -> Result<Wants, FormFault>
    ensures { Reads result (ready_list_of (words_left start.entry)) }
{
    let mut list = Vec::new(alloc);
    let mut rest = start;
    while let Some(text) = rest {
        let (word, more) = split_word(text);
        list.push(want_value(word).ok_or(FormFault::NoForm)?)?;
        rest = more;
    }
    Wants::make(list).ok_or(FormFault::NoForm)
}

/// Reads descriptors with a space before each.
fn read_spaced(alloc: Global, text: &[u8]) -> Result<Wants, FormFault>
    ensures { Reads result (spaced_list_of (words text.now)) }
{
    let (word, rest) = split_word(text);
    if word.is_empty() {
        read_list(alloc, rest)
    } else {
        Err(FormFault::NoForm)
    }
}

/// Reads what follows the front of the line, as the grammar defines it.
#[tactic(auto, using(crate::proofs::Wants::ready_is))]
pub(crate) fn read_ready(alloc: Global, text: &[u8]) -> Result<Input, FormFault>
    ensures { Reads result (ready_input_of text.now) }
{
    read_spaced(alloc, text).map(Input::Ready)
}

/// Appends a descriptor and its flags, with a space before them.
fn write_want(want: Want, out: &mut Vec<u8>) -> Result<(), Memory>
    ensures { Writes out.old.items out.new.items result (want_text want) }
{
    write_numbers(b"", &[u64::from(want.fd)], b":", out)?;
    write_number(u64::from(want.flags), out)
}

/// Appends each descriptor with its flags.
fn write_each(wants: &[Want], out: &mut Vec<u8>) -> Result<(), Memory>
    ensures { Writes out.old.items out.new.items result (wants_text wants.now) }
{
    for want in wants {
        write_want(*want, out)?;
    }
    Ok(())
}

/// Appends the line that tells which descriptors are ready.
pub(crate) fn write_ready(wants: &Wants, out: &mut Vec<u8>) -> Result<(), Memory>
    ensures { Writes out.old.items out.new.items result (codes "ready" ++ wants_text wants.now ++ newline) }
{
    out.extend_from_slice(b"ready")?;
    write_each(wants.as_slice(), out)?;
    out.push(b'\n')?;
    Ok(())
}
