//! The bytes of a name, where they are kept.
ghost use Rattle.std.specs.Prelude.{◌≡◌, ◌≤◌, IfOk, length};
ghost use Rattle.tree_specs.specs.declared.kept.TheConstants.{FEW};
ghost use Rattle.tree_specs.specs.Words.Kept.{kept_bytes, IsKept};

use std::alloc::{AllocError, Global};

/// How many bytes are kept in place. Most names are that short, and then a name needs no allocation of its own.
const FEW: usize = 16;

/// Where the bytes of a name are.
#[derive(Drop)]
pub(crate) enum Kept {
    /// In place, as the first `len` of these. A length before them keeps them at the start of a word, so that they are
    /// moved by words.
    Few { len: usize, bytes: [u8; FEW] },
    /// In memory of their own.
    Many(Vec<u8>),
    /// In the program.
    Fixed(&'static [u8]),
}

impl Kept {
    /// Keeps these bytes in place.
    fn few(bytes: &[u8]) -> Kept
        requires { length bytes.now ≤ FEW }
        ensures same { kept_bytes result ≡ bytes.now }
        ensures kept { IsKept result }
    {
        let mut kept = [0; FEW];
        kept[..bytes.len()].copy_from_slice(bytes);
        Kept::Few {
            len: bytes.len(),
            bytes: kept,
        }
    }

    /// These bytes, copied.
    pub(crate) fn make(alloc: Global, bytes: &[u8]) -> Result<Kept, AllocError>
        ensures same { IfOk result (λ k. kept_bytes k ≡ bytes.now) }
        ensures kept { IfOk result IsKept }
    {
        if bytes.len() <= FEW {
            Ok(Kept::few(bytes))
        } else {
            Ok(Kept::Many(Vec::from_slice(alloc, bytes)?))
        }
    }

    /// Lends the bytes.
    pub(crate) fn as_slice(&self) -> &[u8]
        requires { IsKept self.now }
        ensures { result.now ≡ kept_bytes self.now }
    {
        match self {
            Kept::Few { len, bytes } => &bytes[..*len],
            Kept::Many(bytes) => bytes.as_slice(),
            Kept::Fixed(bytes) => bytes,
        }
    }
}
