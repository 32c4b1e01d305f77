//! What is kept of a lane as a whole: its two ends, and how many stand in it.
ghost use Rattle.std.specs.Prelude.{◌≡◌, ◌<◌, ◌-◌, ◌^◌};
ghost use Rattle.linked_lanes.specs.Family.{no_ends, joined_by, left_by};

use crate::Sides;

/// The two ends of a lane, and how many stand in it.
#[derive(Clone, Copy)]
pub struct Extent {
    /// The one that joined last. None exactly where none stands in the lane.
    pub newest: Option<u64>,
    /// The one that joined first. None exactly where none stands in the lane.
    pub oldest: Option<u64>,
    pub count: usize,
}

impl Extent {
    /// Those of a lane in which none stands.
    pub fn new() -> Extent
        ensures { result ≡ no_ends }
    {
        Extent {
            newest: None,
            oldest: None,
            count: 0,
        }
    }

    /// The ends once one has joined the lane.
    pub fn joined(self, x: u64) -> Extent
        requires { self.count < 2 ^ 64 - 1 }
        ensures { result ≡ joined_by x self }
    {
        Extent {
            newest: Some(x),
            oldest: self.oldest.or(Some(x)),
            count: self.count + 1,
        }
    }

    /// The ends once one with these neighbours has left the lane.
    pub fn left(self, sides: Sides) -> Extent
        requires { 0 < self.count }
        ensures { result ≡ left_by sides self }
    {
        Extent {
            newest: sides.head_after(self.newest),
            oldest: sides.last_after(self.oldest),
            count: self.count - 1,
        }
    }
}
