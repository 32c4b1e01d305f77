//! The fields of a call, each by its kind.

ghost use Rattle.std.specs.Prelude.{◌≡◌, List, ℕ};
ghost use Rattle.std.specs.Option.{option_map};
ghost use Rattle.tree_specs.specs.Calls.Spelling.Numeral.{Number, Number32, Positive32, Time, FdFlags, Length};
ghost use Rattle.tree_specs.specs.Texts.Grammar.{words, number_of, numeral_of, owner_of, object_of, name_of, context_at, octets_of, field, last_field};
ghost use Rattle.text_forms.specs.Cursor.{words_left, Takes, Ends};

use crate::form::FormFault;
use crate::name::read_name;
use crate::number::leading_number;
use crate::octets::read_octets;
use crate::range::{as_flags, as_length, as_positive, as_time, as_u32};
use std::alloc::Global;
use std::marker::Model;
use tree_specs::{Name, Obj, Octets, Owner, Version};

/// The number that the text's first word spells, and what follows the space behind the word, where there is one. None
/// exactly where the word spells no number below 2 ^ 64.
#[tactic(auto, using(crate::proofs::Cursor::number_field))]
pub fn number_field(text: &[u8]) -> Option<(u64, Option<&[u8]>)>
    ensures { option_map (λ r. (r.0, words_left r.1)) result ≡ field number_of (words text.now) }
{
    let (n, rest) = leading_number(text)?;
    match rest {
        [] => Some((n, None)),
        [b' ', rest @ ..] => Some((n, Some(rest))),
        _ => None,
    }
}

/// The fields of a call that are still to come. Contracts see the words that spell them.
#[derive(Drop)]
pub(crate) struct Fields<'a> {
    /// Where names and bytes are kept.
    alloc: Global,
    /// What follows the last space; None where the text ended in its place.
    rest: Option<&'a [u8]>,
}

impl<'a> Model for Fields<'a> {
    ghost Value = { List (List ℕ) };

    ghost view = { λ fields. words_left fields.rest };
}

impl<'a> Fields<'a> {
    /// The fields of which this is the text, where there is any.
    pub(crate) fn make(alloc: Global, rest: Option<&'a [u8]>) -> Fields<'a>
        ensures { result ≡ words_left rest.entry }
    {
        Fields { alloc, rest }
    }

    /// A field that is a number.
    fn digits(&mut self) -> Result<u64, FormFault>
        ensures { Takes result (field number_of self.old) self.new }
    {
        let text = self.rest.ok_or(FormFault::NoForm)?;
        let (n, rest) = number_field(text).ok_or(FormFault::NoForm)?;
        self.rest = rest;
        Ok(n)
    }

    /// An owner field: 0 is the root.
    #[tactic(auto, unfolding(tree_specs::specs::Texts::Grammar::owner_of))]
    pub(crate) fn owner(&mut self) -> Result<Owner, FormFault>
        ensures { Takes result (field owner_of self.old) self.new }
    {
        let n = self.digits()?;
        if n == 0 {
            Ok(Owner::Root)
        } else {
            Ok(Owner::Of(Obj(n)))
        }
    }

    /// An object field.
    #[tactic(auto, unfolding(tree_specs::specs::Texts::Grammar::object_of))]
    pub(crate) fn object(&mut self) -> Result<Obj, FormFault>
        ensures { Takes result (field object_of self.old) self.new }
    {
        let n = self.digits()?;
        Ok(Obj(n))
    }

    /// A number field.
    #[tactic(auto, unfolding(tree_specs::specs::Texts::Grammar::numeral_of))]
    pub(crate) fn number(&mut self) -> Result<u64, FormFault>
        ensures { Takes result (field (numeral_of Number) self.old) self.new }
    {
        self.digits()
    }

    /// A field with a number below 2^32.
    #[tactic(auto, unfolding(tree_specs::specs::Texts::Grammar::numeral_of))]
    pub(crate) fn number32(&mut self) -> Result<u32, FormFault>
        ensures { Takes result (field (numeral_of Number32) self.old) self.new }
    {
        as_u32(self.digits()?).ok_or(FormFault::NoForm)
    }

    /// A routine field: routines are numbered from 1 upwards.
    #[tactic(auto, unfolding(tree_specs::specs::Texts::Grammar::numeral_of))]
    pub(crate) fn routine(&mut self) -> Result<u32, FormFault>
        ensures { Takes result (field (numeral_of Positive32) self.old) self.new }
    {
        as_positive(self.digits()?).ok_or(FormFault::NoForm)
    }

    /// A time field, in microseconds.
    #[tactic(auto, unfolding(tree_specs::specs::Texts::Grammar::numeral_of))]
    pub(crate) fn time(&mut self) -> Result<u64, FormFault>
        ensures { Takes result (field (numeral_of Time) self.old) self.new }
    {
        as_time(self.digits()?).ok_or(FormFault::NoForm)
    }

    /// A field of flags.
    #[tactic(auto, unfolding(tree_specs::specs::Texts::Grammar::numeral_of))]
    pub(crate) fn flags(&mut self) -> Result<u32, FormFault>
        ensures { Takes result (field (numeral_of FdFlags) self.old) self.new }
    {
        as_flags(self.digits()?).ok_or(FormFault::NoForm)
    }

    /// A field with a number of bytes.
    #[tactic(auto, unfolding(tree_specs::specs::Texts::Grammar::numeral_of))]
    pub(crate) fn length(&mut self) -> Result<u32, FormFault>
        ensures { Takes result (field (numeral_of Length) self.old) self.new }
    {
        as_length(self.digits()?).ok_or(FormFault::NoForm)
    }

    /// A name field, which no other follows: a name has no space, so it is all that is left of the text.
    #[inline(always)]
    #[tactic(auto, using(crate::proofs::Cursor::name_taken))]
    pub(crate) fn name(&mut self, version: Version) -> Result<Name, FormFault>
        ensures { Takes result (last_field (name_of version) self.old) self.new }
    {
        let text = self.rest.take().ok_or(FormFault::NoForm)?;
        read_name(self.alloc, text, version)
    }

    /// The context that a call says last; where none is said it is the first one.
    pub(crate) fn context(&mut self, version: Version) -> Result<Obj, FormFault>
        ensures { Takes result (context_at version self.old) self.new }
    {
        match version {
            Version::One => Ok(Obj::first_context()),
            Version::Two => self.object(),
        }
    }

    /// A field of bytes, which no other follows: their spelling has no space.
    #[tactic(auto, using(crate::proofs::Cursor::octets_taken))]
    pub(crate) fn bytes(&mut self) -> Result<Octets, FormFault>
        ensures { Takes result (last_field octets_of self.old) self.new }
    {
        let text = self.rest.take().ok_or(FormFault::NoForm)?;
        read_octets(self.alloc, text)
    }

    /// There are no more fields.
    pub(crate) fn end(&self) -> Result<(), FormFault>
        ensures { Ends result self.now }
    {
        match self.rest {
            None => Ok(()),
            Some(_) => Err(FormFault::NoForm),
        }
    }
}
