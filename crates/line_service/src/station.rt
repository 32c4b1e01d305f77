//! `Station`: the line service over a host. It begins turn after turn, answers the routines below 16 itself, and passes on
//! all other questions, and all events but the replies to its own calls.
//!
//! It goes on by small steps. An own routine that is asked has a task, which comes of the moment at which it is asked; once
//! it is known it is due, until its call was taken. So a step that wants memory can be made again, and what comes is the
//! same.
ghost use Rattle.std.specs.Prelude.{◌≡◌, ◌↔◌, ℕ, IsSome, IsTrue, IfOk, Err, Some, None, OnOk, OnErr, true};
ghost use Rattle.tree_specs.specs.Words.Ranges.{is_sound};
ghost use Rattle.host_core.specs.Promises.{Waits};

use crate::answerer::{Answerer, outside_question, who_answers};
use crate::giving::set_service_up;
use crate::runs::{MORE_ANSWERS, note, prepare};
use crate::telling::{Step, tell};
use host_core::{Host, OfferFault};
use service_desk::Desk;
use std::alloc::Global;
use std::marker::Model;
use tree_specs::{Ask, Event, Input, Memory, Want};

/// The line service over a host of its own, whose listener has the descriptor 0. Contracts see what it knows, its host, what
/// is due, and how many answers it may give yet, and thereby the story still to come.
#[derive(Drop)]
pub struct Station {
    pub(crate) host: Host,
    pub(crate) desk: Desk,
    /// The answers that it may give yet.
    pub(crate) left: u64,
}

impl Model for Station {
    ghost use Rattle.std.specs.Prelude.{◌≡◌, true};
    ghost use Rattle.tree_specs.specs.Machine.View.{question_of};
    ghost use Rattle.service_rules.specs.Stations.{StationView};
    ghost use Rattle.line_service.specs.Steps.{may_be_due};

    ghost Value = { StationView };

    ghost view = { λ s. record { knows = s.desk.knowledge; host = s.host; due = s.desk.due; left = s.left } };

    ghost invariant = { λ s. may_be_due s.desk.due (question_of s.host) ≡ true };
}

impl Station {
    ghost use Rattle.std.specs.Prelude.{[], ◌∷◌};
    ghost use Rattle.std.specs.Option.{option_copied};
    ghost use Rattle.tree_specs.specs.declared.schedule.Reason.TheVariants as reasons;
    ghost use Rattle.tree_specs.specs.Events.Rotation.{wanted_of};
    ghost use Rattle.tree_specs.specs.Tree.Pool.{ring_here};
    ghost use Rattle.tree_specs.specs.Texts.Schedule.{misfit};
    ghost use Rattle.host_core.specs.Promises.{taken_by};
    ghost use Rattle.service_rules.specs.Stations.{IsAsked, NextLaw, Shows, TakesAnswer, asked_of, strays_to_come, unborn};
    ghost use Rattle.line_service.specs.Steps.{StepLaw};

    /// A service without connections, over a host of its own in which the two calls were done that set it up: its object is
    /// 1, and its listener's event 2.
    pub fn new(alloc: Global) -> Result<Station, Memory>
        ensures { IfOk result (λ station. Shows [] unborn station) }
    {
        let mut host = Host::new(alloc, 1)?;
        match set_service_up(&mut host) {
            Ok(()) => Ok(Station {
                host,
                desk: Desk::new(alloc),
                left: MORE_ANSWERS - 2,
            }),
            Err(memory) => {
                drop(host);
                Err(memory)
            }
        }
    }

    /// Gives the descriptors that are watched for something, and what for, in the order in which a turn looks at them, in
    /// place of what was in `out`. If memory runs out, nothing is given.
    pub fn wants(&self, out: &mut Vec<Want>) -> Result<(), Memory>
        ensures wants { OnOk result (out.new.items ≡ wanted_of (ring_here self.now.host.pool)) }
        ensures nothing { OnErr result (out.new.items ≡ []) }
    {
        self.host.wants(out)
    }

    /// The open question. None exactly where something is still to come before the outside is asked. It is never the
    /// question for a call.
    pub fn question(&self) -> Option<&Ask>
        ensures question { option_copied result ≡ asked_of self.now }
        ensures asked { IsSome result → IsAsked self.now }
    {
        outside_question(&self.host)
    }

    /// Gives the answer to the open question. After a fault the station is as it was, and the answer is dropped. NotAsked
    /// comes exactly where the outside is asked nothing or the open question takes no such answer, and Taken exactly where
    /// the descriptor that was accepted is open already.
    pub fn offer(&mut self, input: Input) -> Result<(), OfferFault>
        requires { IsTrue (is_sound input) }
        ensures ok { OnOk result (TakesAnswer self.old input self.new) }
        ensures err { OnErr result (self.new ≡ self.old) }
        ensures not_asked { (result ≡ Err OfferFault.NotAsked) ↔ (misfit (asked_of self.old) input ≡ Some reasons.NotAsked) }
        ensures taken { (fd : ℕ) → (result ≡ Err (OfferFault.Taken fd)) ↔ (taken_by (asked_of self.old) self.old.host.pool input ≡ Some fd) }
        // An answer of a descriptor that is open is the one that doesn't fit, though it was asked for.
        ensures strays { (fd : ℕ) → result ≡ Err (OfferFault.Taken fd) → strays_to_come self.old (input ∷ []) ≡ true }
    {
        match prepare(&self.host, &input, self.left, &mut self.desk) {
            Ok((change, left)) => {
                self.host.offer(input)?;
                self.left = left;
                note(change, &mut self.desk);
                Ok(())
            }
            Err(fault) => {
                drop(input);
                Err(fault)
            }
        }
    }

    /// The next event, which is told now and not again. None exactly where the outside is asked. If memory runs out, what
    /// comes is the same, and the call can be made again; so it is where the service has given all the answers that it may.
    pub fn next(&mut self) -> Result<Option<Event>, Memory>
        ensures { NextLaw result self.old self.new }
    {
        'steps: for _step in 0..u64::MAX {
            match self.step()? {
                Step::Shown(event) => return Ok(Some(event)),
                Step::Asked => return Ok(None),
                Step::Silent => {}
            }
        }
        Err(Memory)
    }

    /// One step.
    fn step(&mut self) -> Result<Step, Memory>
        ensures { StepLaw result self.old self.new }
    {
        match self.host.next() {
            Some(event) => Ok(tell(event, &mut self.desk)),
            None => self.answer(),
        }
    }

    /// The open question is answered, or the outside is asked.
    fn answer(&mut self) -> Result<Step, Memory>
        requires { Waits self.old.host }
        ensures { StepLaw result self.old self.new }
    {
        let due = self.desk.due();
        match who_answers(&self.host) {
            Answerer::Outside => Ok(Step::Asked),
            Answerer::Loop => {
                self.begin_turn()?;
                Ok(Step::Silent)
            }
            Answerer::Own => {
                self.go_on(due)?;
                Ok(Step::Silent)
            }
        }
    }
}
