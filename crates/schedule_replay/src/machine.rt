//! What runs the lines of a schedule.
ghost use Rattle.std.specs.Prelude.{◌≡◌, ℕ, Bool, List, Option, Some, Err, IsTrue, IsSome, IfOk, OnOk, OnErr};
ghost use Rattle.std.specs.Option.{option_copied};
ghost use Rattle.text_forms.specs.Reads.{Reads};
ghost use Rattle.tree_specs.specs.declared.question.Ask.{Ask as AskData};
ghost use Rattle.tree_specs.specs.declared.schedule.Reason.{Reason as ReasonData};
ghost use Rattle.tree_specs.specs.declared.schedule.Reason.TheVariants as reasons;
ghost use Rattle.tree_specs.specs.declared.schedule.Version.{Version as VersionData};
ghost use Rattle.tree_specs.specs.Texts.Written.{Writes};
ghost use Rattle.host_core.specs.declared.fault.OfferFault.TheVariants as faults;
ghost use Rattle.schedule_replay.specs.Standings.{Standing, Waits, unfit, Nexts, TakesInput, TriesInput};

use host_core::OfferFault;
use std::alloc::Global;
use text_forms::FormFault;
use tree_specs::{Ask, Memory, Version};

/// What runs the lines of a schedule: it is given what they spell, and tells its questions and what comes between
/// them. Contracts see it as a standing: the text that is still to come, over all that it may be given.
pub trait Machine: Drop {
    /// What a line spells.
    type Given: Drop;

    /// What is told besides questions.
    type Told: Drop;

    /// What a line of a schedule of this version spells, without its LF.
    ghost reads: { VersionData → List ℕ → Option Self.Given };

    /// Why this is no answer to the open question.
    ghost misfit: { Option AskData → Self.Given → Option ReasonData };

    /// Its numbers have the ranges of their fields.
    ghost is_sound: { Self.Given → Bool };

    /// The line of what is told.
    ghost text_of: { Self.Told → List ℕ };

    /// What it is to whoever runs lines by it.
    ghost standing: { Self → Standing Self.Given };

    /// What a line of a schedule of this version spells, the line without its LF. NoForm exactly where it spells nothing,
    /// unless memory ran out.
    fn read(alloc: Global, line: &[u8], version: Version) -> Result<Self::Given, FormFault>
        ensures value { Reads result (reads version line.now) }
        ensures sound { IfOk result (λ given. IsTrue (is_sound given)) };

    /// Appends the line of what was told. When memory runs out, a prefix of it was appended.
    fn write(told: Self::Told, text: &mut Vec<u8>) -> Result<(), Memory>
        ensures { Writes text.old.items text.new.items result (text_of told) };

    /// The open question. While one is open nothing is told.
    fn question(&self) -> Option<&Ask>
        ensures question { option_copied result ≡ (standing self.now).asked }
        ensures waits { IsSome result → Waits (standing self.now) };

    /// Gives what is told next, which is told now and not again. None exactly where a question is open. When memory
    /// runs out, what comes is the same.
    fn next(&mut self) -> Result<Option<Self::Told>, Memory>
        ensures { Nexts text_of result (standing self.old) (standing self.new) };

    /// Gives what answers the open question. After a fault it is as it was. NotAsked comes where the open question takes
    /// no such answer, and Taken where it does, and yet this one doesn't fit.
    fn offer(&mut self, given: Self::Given) -> Result<(), OfferFault>
        requires waits { Waits (standing self.old) }
        requires sound { IsTrue (is_sound given) }
        ensures ok { OnOk result (TakesInput misfit (standing self.old) given (standing self.new)) }
        ensures err { OnErr result (self.new ≡ self.old) }
        ensures not_asked { result ≡ Err faults.NotAsked → unfit misfit (standing self.old) given ≡ Some reasons.NotAsked }
        ensures taken { (fd : ℕ) → result ≡ Err (faults.Taken fd) → unfit misfit (standing self.old) given ≡ Some reasons.Token };

    /// Takes what answers the open question, where this costs less than an offer, and appends what comes of it at once:
    /// the question's line, and the first of what is told. Gives it back where it doesn't, and then nothing has changed.
    /// When memory runs out, nothing was appended.
    fn take_at_once(
        &mut self,
        given: Self::Given,
        text: &mut Vec<u8>,
    ) -> Result<Option<Self::Given>, Memory>
        requires waits { Waits (standing self.old) }
        requires sound { IsTrue (is_sound given) }
        ensures ok { IfOk result (λ left. TriesInput misfit (standing self.old) given text.old.items left (standing self.new) text.new.items) }
        ensures err { OnErr result (text.new.items ≡ text.old.items) };
}
