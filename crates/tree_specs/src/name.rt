//! The names of objects.
ghost use Rattle.std.specs.Prelude.{◌≡◌, ℕ, if◌then◌else◌, List, IsTrue, Some, None, IfOk, nat_eq};
ghost use Rattle.std.specs.Cmp.{partial_equiv_from_equiv};
ghost use Rattle.std.specs.Cmp.Lexicographic.{pointwise, nat_list_eq_equiv};
ghost use Rattle.tree_specs.specs.Words.Kept.{kept_bytes, IsKept};
ghost use Rattle.tree_specs.specs.Words.Names.{is_name, is_graphic};
ghost use Rattle.std.specs.List.{list_all};

use crate::bounds::NAME_LIMIT;
use crate::kept::Kept;
use crate::memory::Memory;
use std::alloc::Global;
use std::marker::Model;

/// Whether a byte is a printable ASCII character and no space.
fn is_graphic_byte(b: u8) -> bool
    ensures { result ≡ is_graphic b }
{
    0x21 <= b && b <= 0x7E
}

/// Whether all bytes are printable ASCII characters and no spaces.
fn is_graphic_text(bytes: &[u8]) -> bool
    ensures { result ≡ list_all is_graphic bytes.now }
{
    bytes.iter().all(|b| is_graphic_byte(*b))
}

/// Whether the bytes are a name: 1 to 1,023 bytes from 0x21 to 0x7E.
pub fn is_name_text(bytes: &[u8]) -> bool
    ensures { result ≡ is_name bytes.now }
{
    let graphic = is_graphic_text(bytes);
    graphic && 1 <= bytes.len() && bytes.len() <= NAME_LIMIT
}

/// The name of an object: 1 to 1,023 bytes from 0x21 to 0x7E. Contracts see it as the list of its bytes.
#[derive(Drop)]
pub struct Name {
    kept: Kept,
}

impl Model for Name {
    ghost Value = { List ℕ };

    ghost view = { λ name. kept_bytes name.kept };

    ghost invariant = { λ name. IsKept name.kept × IsTrue (is_name (kept_bytes name.kept)) };
}

impl Name {
    /// The name with these bytes, which are copied. None exactly where they are no name.
    pub fn make(alloc: Global, bytes: &[u8]) -> Result<Option<Name>, Memory>
        ensures { IfOk result (λ found. found ≡ (if is_name bytes.now then Some bytes.now else None)) }
    {
        if !is_name_text(bytes) {
            return Ok(None);
        }
        let kept = Kept::make(alloc, bytes)?;
        Ok(Some(Name { kept }))
    }

    /// A name that stands in the program.
    pub fn fixed(bytes: &'static [u8]) -> Name
        requires { IsTrue (is_name bytes.now) }
        ensures { result ≡ bytes.now }
    {
        Name {
            kept: Kept::Fixed(bytes),
        }
    }

    /// Lends its bytes.
    pub fn as_slice(&self) -> &[u8]
        ensures value { result.now ≡ self.now }
        ensures sound { IsTrue (is_name self.now) }
    {
        self.kept.as_slice()
    }
}

impl PartialEq for Name {
    ghost eq = { pointwise nat_eq };

    ghost laws = { partial_equiv_from_equiv nat_list_eq_equiv };

    fn eq(&self, other: &Self) -> bool {
        self.as_slice() == other.as_slice()
    }
}

impl Eq for Name {
    ghost laws = { nat_list_eq_equiv };
}
