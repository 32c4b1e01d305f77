//! A clock that tells times that were prepared.
ghost use Rattle.std.specs.Prelude.{◌≡◌, [], ◌∷◌, IsTrue};
ghost use Rattle.std.specs.List.{list_all};
ghost use Rattle.tree_specs.specs.Words.Ranges.{is_time};
ghost use Rattle.outside.specs.Causes.{count_up};
ghost use Rattle.outside.specs.Clocks.{time_after, told_times};
ghost use Rattle.outside.specs.Tellings.{Tells};

use crate::clock::Clock;
use std::marker::Model;

/// A clock that tells times that were prepared. Contracts see the times, and how many have been told.
#[derive(Drop)]
pub struct MemClock {
    /// The times that it tells, in microseconds.
    values: Vec<u64>,
    /// How many times were told. What was told follows from that, until this has come to its last value.
    told: u64,
}

impl Model for MemClock {
    ghost use Rattle.std.specs.Prelude.{IsTrue};
    ghost use Rattle.std.specs.List.{list_all};
    ghost use Rattle.tree_specs.specs.Words.Ranges.{is_time};
    ghost use Rattle.outside.specs.Clocks.{PreparedTimes};

    ghost Value = { PreparedTimes };

    ghost view = { λ c. record { values = c.values.items; told = c.told } };

    ghost invariant = { λ c. IsTrue (list_all is_time c.values.items) };
}

impl MemClock {
    /// A clock that tells these times in microseconds, then the last of them again and again, and 0 where there are
    /// none.
    pub fn new(values: Vec<u64>) -> MemClock
        requires { IsTrue (list_all is_time values.items) }
        ensures { result ≡ record { values = values.items; told = 0 } }
    {
        MemClock { values, told: 0 }
    }

    /// The time that comes next.
    fn next(&self) -> u64
        ensures value { result ≡ time_after self.now.values self.now.told }
        ensures time { IsTrue (is_time result) }
    {
        let last = self.values.len().saturating_sub(1);
        let place = self.told.min(last as u64) as usize;
        match self.values.get(place) {
            Some(value) => *value,
            None => 0,
        }
    }
}

impl Clock for MemClock {
    ghost told = { told_times };

    #[tactic(auto, using(crate::proofs::ClockLaws::tells_next))]
    fn now(&mut self) -> u64
        ensures time { IsTrue (is_time result) }
        ensures told { Tells (told_times self.old) (told_times self.new) (result ∷ []) }
        ensures value { result ≡ time_after self.old.values self.old.told }
        ensures counted { self.new ≡ record self.old { told = count_up self.old.told } }
    {
        let time = self.next();
        self.told = self.told.saturating_add(1);
        time
    }
}
