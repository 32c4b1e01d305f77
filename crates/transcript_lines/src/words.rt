//! The words of a line, one after the other.
ghost use Rattle.std.specs.Prelude.{◌≡◌, List, ℕ};
ghost use Rattle.tree_specs.specs.declared.schedule.Version.TheVariants.{Two};
ghost use Rattle.tree_specs.specs.Calls.Spelling.Numeral.{Number, Number32};
ghost use Rattle.tree_specs.specs.Texts.Grammar.{words, number_of, numeral_of, object_of, owner_of, name_of, octets_of, field, last_field};
ghost use Rattle.text_forms.specs.Cursor.{words_left};
ghost use Rattle.text_forms.specs.Reads.{in_range};
ghost use Rattle.transcript_lines.specs.Readings.{TakesWord, TakesField, TakesLast, EndsHere, IsOver};

use crate::bytes::{is_hexadecimal, is_name};
use std::marker::Model;
use text_forms::{number_field, split_word};
use tree_specs::{Obj, Owner};

/// A number below 2^32.
fn as_small(n: u64) -> Option<u32>
    ensures { result ≡ in_range Number32 n }
{
    u32::try_from(n).ok()
}

/// The words of a line that are still to come. Contracts see the list of them.
#[derive(Drop)]
pub(crate) struct Words<'a> {
    /// What follows the last space; None where the line ended in its place.
    rest: Option<&'a [u8]>,
}

impl<'a> Model for Words<'a> {
    ghost Value = { List (List ℕ) };

    ghost view = { λ w. words_left w.rest };
}

impl<'a> Words<'a> {
    /// The words of this text.
    pub(crate) fn of(text: &'a [u8]) -> Words<'a>
        ensures { result ≡ words text.entry.now }
    {
        Words { rest: Some(text) }
    }

    /// The next word.
    pub(crate) fn word(&mut self) -> Option<&'a [u8]>
        ensures { TakesWord result self.old self.new }
    {
        let text = self.rest?;
        let (word, rest) = split_word(text);
        self.rest = rest;
        Some(word)
    }

    /// The next word as a number, by its digits.
    fn digits(&mut self) -> Option<u64>
        ensures { TakesField result (field number_of self.old) self.new }
    {
        let text = self.rest?;
        let (n, rest) = number_field(text)?;
        self.rest = rest;
        Some(n)
    }

    /// A number.
    #[tactic(auto, using(crate::proofs::Lasts::number_given))]
    pub(crate) fn number(&mut self) -> Option<u64>
        ensures { TakesField result (field (numeral_of Number) self.old) self.new }
    {
        self.digits()
    }

    /// A number below 2^32.
    #[tactic(auto, unfolding(tree_specs::specs::Texts::Grammar::numeral_of))]
    pub(crate) fn small(&mut self) -> Option<u32>
        ensures { TakesField result (field (numeral_of Number32) self.old) self.new }
    {
        as_small(self.digits()?)
    }

    /// An object.
    #[tactic(auto, unfolding(tree_specs::specs::Texts::Grammar::object_of))]
    pub(crate) fn object(&mut self) -> Option<Obj>
        ensures { TakesField result (field object_of self.old) self.new }
    {
        let n = self.digits()?;
        Some(Obj(n))
    }

    /// An owner: 0 is the root.
    #[tactic(auto, unfolding(tree_specs::specs::Texts::Grammar::owner_of))]
    pub(crate) fn owner(&mut self) -> Option<Owner>
        ensures { TakesField result (field owner_of self.old) self.new }
    {
        let n = self.digits()?;
        if n == 0 {
            Some(Owner::Root)
        } else {
            Some(Owner::Of(Obj(n)))
        }
    }

    /// Whether all that is left is a name.
    pub(crate) fn is_name(&self) -> bool
        ensures { TakesLast result (last_field (name_of Two) self.now) }
    {
        match self.rest {
            Some(text) => is_name(text),
            None => false,
        }
    }

    /// Whether all that is left is bytes in hexadecimal.
    pub(crate) fn is_bytes(&self) -> bool
        ensures { TakesLast result (last_field octets_of self.now) }
    {
        match self.rest {
            Some(text) => is_hexadecimal(text),
            None => false,
        }
    }

    /// Nothing where no word is left.
    pub(crate) fn end(&self) -> Option<()>
        ensures { EndsHere result self.now }
    {
        match self.rest {
            None => Some(()),
            Some(_) => None,
        }
    }

    /// Whether no word is left.
    pub(crate) fn is_over(&self) -> bool
        ensures { IsOver result self.now }
    {
        match self.rest {
            None => true,
            Some(_) => false,
        }
    }
}
