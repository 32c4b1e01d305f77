//! The lines of a schedule after its first one, and the machine that runs them.
ghost use Rattle.std.specs.Prelude.{◌≡◌, ◌≤◌, ◌+◌, ◌++◌, ℕ, List, IfOk, OnOk, OnErr, IsTrue, Some, length};
ghost use Rattle.tree_specs.specs.Texts.Lines.{line_limit, lines_limit};
ghost use Rattle.tree_specs.specs.Texts.Written.{Writes};
ghost use Rattle.line_pieces.specs.Takings.{TakesLine, RefusesLimit, WantsMemory, TakesEnd};
ghost use Rattle.schedule_replay.specs.Questions.{answered_of, end_of};
ghost use Rattle.schedule_replay.specs.Standings.{Waits};

use crate::machine::Machine;
use crate::stop::Stop;
use crate::telling::tell;
use host_core::OfferFault;
use schedule_text::{write_answered, write_end};
use std::alloc::Global;
use text_forms::FormFault;
use tree_specs::{Memory, Reason, Version};

/// Writes the line of the open question as one that is answered.
fn write_asked<M: Machine>(machine: &M, text: &mut Vec<u8>) -> Result<(), Memory>
    ensures { Writes text.old.items text.new.items result (answered_of (M.standing machine.now).asked) }
{
    match machine.question() {
        Some(ask) => write_answered(ask, text),
        None => Ok(()),
    }
}

/// A machine that runs lines, and what is to be written of them.
#[derive(Drop)]
pub struct Play<M> {
    /// How the lines are spelled.
    version: Version,
    machine: M,
    /// What is to be written next.
    pub text: Vec<u8>,
}

impl<M: Machine> Play<M> {
    ghost use Rattle.schedule_replay.specs.Plays.{comes, stops, ends, Begins, GivesInput, RefusesHere};

    /// Begins the transcript, up to the machine's first question.
    pub fn begin(alloc: Global, version: Version, machine: M) -> Result<Play<M>, Memory>
        ensures version { IfOk result (λ play. play.version ≡ version) }
        ensures begins { IfOk result (λ play. Begins (M.reads version) M.misfit M.standing machine play) }
    {
        let mut play = Play {
            version,
            machine,
            text: Vec::new(alloc),
        };
        play.text.extend_from_slice(b"tv transcript 1\n")?;
        tell(&mut play.machine, &mut play.text)?;
        Ok(play)
    }

    /// Ends the transcript.
    fn end_transcript(&mut self) -> Result<(), Memory>
        ensures { Writes self.old.text.items self.new.text.items result (end_of (M.standing self.old.machine).asked) }
    {
        match self.machine.question() {
            Some(ask) => write_end(ask, &mut self.text),
            None => Ok(()),
        }
    }

    /// Rejects the line with this number.
    fn refuse(&mut self, line: u64, reason: Reason) -> Stop
        ensures { RefusesHere line reason (M.standing self.old.machine).asked self.old.text.items self.new.text.items result }
    {
        match self.end_transcript() {
            Ok(()) => Stop::Refused { line, reason },
            Err(_e) => Stop::Memory,
        }
    }

    /// Writes the line of the open question as one that is answered, or nothing when memory runs out.
    fn write_question(&mut self) -> Result<(), Memory>
        ensures text { OnOk result (self.new.text.items ≡ self.old.text.items ++ answered_of (M.standing self.old.machine).asked) }
        ensures kept { OnErr result (self.new.text.items ≡ self.old.text.items) }
        ensures machine { self.new.machine ≡ self.old.machine }
        ensures version { self.new.version ≡ self.old.version }
    {
        let began = self.text.len();
        let written = write_asked(&self.machine, &mut self.text);
        if written.is_err() {
            self.text.truncate(began);
        }
        written
    }

    /// Gives the machine what answers its question, and writes what it tells.
    #[inline(never)]
    fn answer(&mut self, line: u64, given: M::Given) -> Result<(), Stop>
        requires ready { Waits (M.standing self.old.machine) }
        requires sound { IsTrue (M.is_sound given) }
        requires last { line ≤ lines_limit }
        ensures taken { GivesInput (M.reads self.old.version) M.misfit M.standing self.old line given self.new result }
        ensures ready { OnOk result (Waits (M.standing self.new.machine)) }
        ensures version { OnOk result (self.new.version ≡ self.old.version) }
    {
        let began = self.text.len();
        self.write_question()?;
        let fault = match self.machine.offer(given) {
            Ok(()) => {
                tell(&mut self.machine, &mut self.text)?;
                return Ok(());
            }
            Err(fault) => fault,
        };
        self.text.truncate(began);
        match fault {
            OfferFault::NotAsked => Err(self.refuse(line, Reason::NotAsked)),
            OfferFault::Taken(_) => Err(self.refuse(line, Reason::Token)),
            OfferFault::Memory => Err(Stop::Memory),
        }
    }

    /// Gives the machine what a line spells.
    #[inline(always)]
    fn give(&mut self, line: u64, given: M::Given) -> Result<(), Stop>
        requires ready { Waits (M.standing self.old.machine) }
        requires sound { IsTrue (M.is_sound given) }
        requires last { line ≤ lines_limit }
        ensures taken { GivesInput (M.reads self.old.version) M.misfit M.standing self.old line given self.new result }
        ensures ready { OnOk result (Waits (M.standing self.new.machine)) }
        ensures version { OnOk result (self.new.version ≡ self.old.version) }
    {
        if let Some(given) = self.machine.take_at_once(given, &mut self.text)? {
            return self.answer(line, given);
        }
        tell(&mut self.machine, &mut self.text)?;
        Ok(())
    }

    /// Takes the line with this number, without its LF.
    pub fn take_line(&mut self, number: u64, line: &[u8]) -> Result<(), Stop>
        requires ready { Waits (M.standing self.old.machine) }
        requires last { number ≤ lines_limit }
        requires short { length line.now ≤ line_limit }
        ensures taken { TakesLine (comes (M.reads self.old.version) M.misfit M.standing) stops self.old number line.now self.new result }
        ensures ready { OnOk result (Waits (M.standing self.new.machine)) }
        ensures version { OnOk result (self.new.version ≡ self.old.version) }
    {
        match M::read(*self.text.allocator(), line, self.version) {
            Ok(given) => self.give(number, given),
            Err(FormFault::NoForm) => Err(self.refuse(number, Reason::Form)),
            Err(FormFault::Memory) => Err(Stop::Memory),
        }
    }

    /// The line with this number is over a limit.
    pub fn refuse_limit(&mut self, number: u64) -> Stop
        requires { Waits (M.standing self.old.machine) }
        ensures { RefusesLimit (comes (M.reads self.old.version) M.misfit M.standing) stops self.old number self.new result }
    {
        self.refuse(number, Reason::Limit)
    }

    /// The schedule ends before the line with this number, or within it where it is `cut`.
    pub fn finish(&mut self, number: u64, cut: bool) -> Result<(), Stop>
        requires ready { Waits (M.standing self.old.machine) }
        requires within { IsTrue cut → number ≤ lines_limit }
        ensures { TakesEnd (comes (M.reads self.old.version) M.misfit M.standing) stops ends self.old number cut self.new result }
    {
        if cut {
            return Err(self.refuse(number, Reason::Form));
        }
        self.end_transcript()?;
        Ok(())
    }
}
