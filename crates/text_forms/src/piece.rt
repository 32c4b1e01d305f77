//! Texts that are made of pieces.

ghost use Rattle.std.specs.Prelude.{flat_map};
ghost use Rattle.tree_specs.specs.Texts.Written.{Writes};

use tree_specs::Memory;

/// Appends the pieces in order. When memory runs out, a prefix of them was appended.
pub fn write_pieces(pieces: &[&[u8]], out: &mut Vec<u8>) -> Result<(), Memory>
    ensures { Writes out.old.items out.new.items result (flat_map (λ p. p.now) pieces.now) }
{
    for piece in pieces {
        out.extend_from_slice(piece)?;
    }
    Ok(())
}
