//! The ends of a lane as the arena keeps them.
ghost use Rattle.std.specs.Prelude.{◌≡◌};
ghost use Rattle.linked_lanes.specs.Family.{IsWhole};
ghost use Rattle.lane_ends.specs.Packing.{told};

use linked_lanes::Extent;

/// The ends of a lane in three words, where an `Extent` takes five. Where none stands in the lane, `newest` and `oldest`
/// say nothing.
#[derive(Clone, Copy)]
pub(crate) struct Packed {
    newest: u64,
    oldest: u64,
    count: usize,
}

impl Packed {
    /// These ends, packed.
    pub(crate) fn of(ends: Extent) -> Packed
        requires { IsWhole ends }
        ensures { told result ≡ ends }
    {
        Packed {
            newest: ends.newest.unwrap_or(0),
            oldest: ends.oldest.unwrap_or(0),
            count: ends.count,
        }
    }

    /// The ends that are packed here.
    pub(crate) fn extent(self) -> Extent
        ensures { result ≡ told self }
    {
        if self.count == 0 {
            return Extent::new();
        }
        Extent {
            newest: Some(self.newest),
            oldest: Some(self.oldest),
            count: self.count,
        }
    }
}
