//! Names are their own text.

ghost use Rattle.std.specs.Prelude.{◌≡◌, IfOk};
ghost use Rattle.tree_specs.specs.Texts.Grammar.{name_of};
ghost use Rattle.tree_specs.specs.Words.Names.{is_short_in};
ghost use Rattle.text_forms.specs.Reads.{Reads};

use crate::form::FormFault;
use std::alloc::Global;
use tree_specs::{Name, SHORT_NAME_LIMIT, Version};

/// Whether a text is no longer than a name may be in a schedule of this version.
fn is_short_enough(text: &[u8], version: Version) -> bool
    ensures { result ≡ is_short_in version text.now }
{
    match version {
        Version::One => text.len() <= SHORT_NAME_LIMIT,
        Version::Two => true,
    }
}

/// The name that the text spells: bytes from 0x21 to 0x7E, 1 to 255 of them in version 1, and 1 to 1,023 in version 2.
/// NoForm exactly where the text is no name in this version, unless memory ran out.
#[tactic(auto, unfolding(tree_specs::specs::Texts::Grammar::name_of))]
pub fn read_name(alloc: Global, text: &[u8], version: Version) -> Result<Name, FormFault>
    ensures value { Reads result (name_of version text.now) }
    ensures spelled { IfOk result (λ name. text.now ≡ name) }
{
    if !is_short_enough(text, version) {
        return Err(FormFault::NoForm);
    }
    Name::make(alloc, text)?.ok_or(FormFault::NoForm)
}
