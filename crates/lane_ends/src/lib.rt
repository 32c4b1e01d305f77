//! The ends of many lanes, each lane under a number of its own. Those of lane 0, which always is there, stand in place, so
//! that whoever needs one lane alone looks nothing up and takes no memory for it. The neighbours of those that stand in the
//! lanes are kept elsewhere.
#![tactic(auto)]

ghost use Rattle.std.specs.Prelude.{◌≡◌, ◌+◌, ◌<◌, ◌≤◌, None, IsSome, OnOk};
ghost use Rattle.std.specs.FinMap as map;
ghost use Rattle.linked_lanes.specs.Family.{no_ends, IsWhole};

use linked_lanes::Extent;
use packed::Packed;
use pool_arena::Arena;
use std::alloc::{AllocError, Global};
use std::marker::Model;

mod packed;
#[cfg(test)]
mod tests;

/// The ends of lanes. Contracts see a finite map from the numbers of the lanes, and spare: so many lanes can be added without
/// taking memory. Only `reserve` takes memory.
#[derive(Drop)]
pub struct LaneEnds {
    /// Those of lane 0.
    first: Extent,
    /// Those of the other lanes, under their numbers.
    others: Arena<Packed>,
}

impl Model for LaneEnds {
    ghost use Rattle.lane_ends.specs.Lanes.{Ends, ends_code, lanes_of};
    ghost use Rattle.lane_ends.specs.Packing.{lanes_told};

    ghost Value = { Ends };

    ghost coded = { ends_code };

    ghost view = { λ s. record { lanes = lanes_of s.first (lanes_told s.others.pairs); spare = s.others.spare } };
}

/// Sets the ends of a lane that stands in the arena.
fn set_at(others: &mut Arena<Packed>, lane: u64, ends: Packed)
    requires { IsSome (map.get others.old.pairs lane) }
    ensures pairs { others.new.pairs ≡ map.insert others.old.pairs lane ends }
    ensures spare { others.new.spare ≡ others.old.spare }
{
    if let Some(place) = others.get_mut(lane) {
        *place = ends;
    }
}

impl LaneEnds {
    ghost use Rattle.lane_ends.specs.Lanes.{without_lane};

    /// Lane 0 alone, in which none stands.
    pub fn new(alloc: Global) -> LaneEnds
        ensures { result.lanes ≡ map.insert map.empty 0 no_ends }
    {
        LaneEnds {
            first: Extent::new(),
            others: Arena::new(alloc),
        }
    }

    /// The ends of a lane. None exactly where there is no such lane.
    #[inline(always)]
    pub fn get(&self, lane: u64) -> Option<Extent>
        ensures { result ≡ map.get self.now.lanes lane }
    {
        if lane == 0 {
            return Some(self.first);
        }
        self.others.get(lane).copied().map(Packed::extent)
    }

    /// Sets the ends of a lane.
    #[inline(always)]
    pub fn set(&mut self, lane: u64, ends: Extent)
        requires known { IsSome (map.get self.old.lanes lane) }
        requires whole { IsWhole ends }
        ensures lanes { self.new.lanes ≡ map.insert self.old.lanes lane ends }
        ensures spare { self.new.spare ≡ self.old.spare }
    {
        if lane == 0 {
            self.first = ends;
        } else {
            set_at(&mut self.others, lane, Packed::of(ends));
        }
    }

    /// Takes memory for so many more lanes. If memory runs out, they are as they were.
    pub fn reserve(&mut self, more: usize) -> Result<(), AllocError>
        ensures lanes { self.new.lanes ≡ self.old.lanes }
        ensures spare { OnOk result (more ≤ self.new.spare) }
        ensures kept { self.old.spare ≤ self.new.spare }
    {
        self.others.reserve(more)
    }

    /// Adds a lane, in which none stands.
    pub fn add_lane(&mut self, lane: u64)
        requires room { 0 < self.old.spare }
        requires vacant { map.get self.old.lanes lane ≡ None }
        ensures lanes { self.new.lanes ≡ map.insert self.old.lanes lane no_ends }
        ensures spare { self.old.spare ≤ self.new.spare + 1 }
    {
        self.others.add(lane, Packed::of(Extent::new()));
    }

    /// Drops a lane. Lane 0 stays as it is, and so do the lanes where there is none under the number.
    #[inline(always)]
    pub fn drop_lane(&mut self, lane: u64)
        ensures lanes { self.new.lanes ≡ without_lane self.old.lanes lane }
        ensures spare { self.old.spare ≤ self.new.spare }
    {
        self.others.take(lane);
    }
}
