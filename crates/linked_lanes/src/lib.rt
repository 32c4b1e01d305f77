//! Lanes: distinct numbers in an order, newest first, kept by the neighbours that are noted beside each of them.
//! Whoever keeps a lane keeps the neighbours and the head, and the last where it is needed; this crate says what they
//! are, and proves what leaving the lane and joining it at its front do to them. Where there are several lanes, each under
//! a number, it proves what these do to all of them.
#![tactic(auto)]

ghost use Rattle.std.specs.Prelude.{◌≡◌};
ghost use Rattle.linked_lanes.specs.Chain.{head_left, last_left, noted as noted_in};

mod lane;

pub use lane::Extent;

/// The neighbours of one in its lane.
#[derive(Clone, Copy)]
pub struct Sides {
    /// The one that joined next after it. None exactly where it is the head of its lane.
    pub newer: Option<u64>,
    /// The one that joined next before it. None exactly where it is the last.
    pub older: Option<u64>,
}

/// What is noted of a neighbour.
#[derive(Clone, Copy)]
pub enum Link {
    Newer(Option<u64>),
    Older(Option<u64>),
}

impl Sides {
    /// Notes another neighbour.
    pub fn note(&mut self, link: Link)
        ensures { self.new ≡ noted_in link self.old }
    {
        match link {
            Link::Newer(x) => self.newer = x,
            Link::Older(x) => self.older = x,
        }
    }

    /// The head of a lane once one with these neighbours has left it, where `head` was its head before.
    pub fn head_after(self, head: Option<u64>) -> Option<u64>
        ensures { result ≡ head_left head self }
    {
        match self.newer {
            None => self.older,
            Some(_) => head,
        }
    }
    /// The last of a lane once one with these neighbours has left it, where `last` was its last before.
    pub fn last_after(self, last: Option<u64>) -> Option<u64>
        ensures { result ≡ last_left last self }
    {
        match self.older {
            None => self.newer,
            Some(_) => last,
        }
    }
}
