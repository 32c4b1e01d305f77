//! Routines whose acts were prepared.
ghost use Rattle.std.specs.Prelude.{◌≡◌, [], drop, Some, Ok, IsTrue, IfOk};
ghost use Rattle.std.specs.List.{list_all};
ghost use Rattle.tree_specs.specs.Words.Ranges.{is_sound_act};
ghost use Rattle.outside.specs.Runs.{answer_acts, next_act};
ghost use Rattle.outside.specs.Tellings.{Tells};

use crate::routines::Routines;
use http_server::Log;
use std::collections::VecDeque;
use std::marker::Model;
use tree_specs::{Act, Memory, Moment};

/// Routines whose acts were prepared. Contracts see the acts that are left, and the moments at which acts were given.
#[derive(Drop)]
pub struct MemRoutines {
    acts: VecDeque<Act>,
    /// An act is given away and a moment is only lent, so what was told is a history that proofs alone read. It takes
    /// no memory.
    told: Log<Moment, Act>,
}

impl Model for MemRoutines {
    ghost use Rattle.std.specs.Prelude.{IsTrue};
    ghost use Rattle.std.specs.List.{list_all};
    ghost use Rattle.tree_specs.specs.Words.Ranges.{is_sound_act};
    ghost use Rattle.outside.specs.InMemory.{PreparedActs};

    ghost Value = { PreparedActs };

    ghost view = { λ r. record { acts = r.acts.items; told = r.told.items } };

    ghost invariant = { λ r. IsTrue (list_all is_sound_act r.acts.items) };
}

impl MemRoutines {
    /// Routines that do these, one at each moment, and return 0 once they are used up.
    pub fn new(acts: Vec<Act>) -> MemRoutines
        requires { IsTrue (list_all is_sound_act acts.items) }
        ensures { result ≡ record { acts = acts.items; told = [] } }
    {
        MemRoutines {
            acts: VecDeque::from(acts),
            told: Log::new(),
        }
    }
}

impl Routines for MemRoutines {
    ghost told = { λ r. Some r.told };

    fn answer(&mut self, m: &Moment) -> Result<Act, Memory>
        ensures sound { IfOk result (λ act. IsTrue (is_sound_act act)) }
        ensures told { Tells (Some self.old.told) (Some self.new.told) (answer_acts m.entry.now result) }
        ensures act { result ≡ Ok (next_act self.old.acts) }
        ensures rest { self.new.acts ≡ drop 1 self.old.acts }
    {
        let act = self.acts.pop_front().unwrap_or(Act::Ret(0));
        self.told = self.told.and(m, &act);
        Ok(act)
    }
}
