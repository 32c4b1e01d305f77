//! A caller of the host, as docs/LIBRARY.md shows it: it does calls, and answers for their destructors.
#![tactic(auto)]

ghost use Rattle.std.specs.Prelude.{◌≡◌, ◌≢◌, ◌↔◌, Some, Err, IsTrue, IfSome, OnOk};
ghost use Rattle.tree_specs.specs.declared.schedule.Reason.TheVariants as reasons;
ghost use Rattle.tree_specs.specs.Texts.Schedule.{misfit};
ghost use Rattle.tree_specs.specs.Words.Ranges.{is_sound, is_sound_call};
ghost use Rattle.tree_specs.specs.Machine.View.{question_of};
ghost use Rattle.host_core.specs.Promises.{Waits};
ghost use Rattle.library_example.specs.Performed.{returned_by, answer_to, Tells, Takes, Performs};

use host_core::{Host, OfferFault};
use tree_specs::{Act, Ask, Call, Event, Input, Memory};

#[cfg(test)]
mod tests;

/// The destructor of an object that is in use. It refuses; every other destructor accepts.
pub const IN_USE: u32 = 1;

/// What a destructor returns.
fn returned(routine: u32) -> u32
    ensures { result ≡ returned_by routine }
{
    if routine == IN_USE { 1 } else { 0 }
}

/// The answer to the open question, where that is what a destructor does.
fn answer(host: &Host) -> Option<Input>
    ensures answer { result ≡ answer_to (question_of host.now) }
    ensures sound { IfSome result (λ input. IsTrue (is_sound input)) }
{
    match host.question() {
        Some(Ask::Routine(moment)) => Some(Input::Act(Act::Ret(returned(moment.routine)))),
        _ => None,
    }
}

/// Adds to the events what the host tells up to its next question. Where there is no memory, nothing that was told is
/// lost: the events have it, and the host tells the rest when this is called again.
pub fn collect(host: &mut Host, events: &mut Vec<Event>) -> Result<(), Memory>
    ensures told { Tells host.old events.old.items host.new events.new.items }
    ensures waits { OnOk result (Waits host.new) }
{
    'tells: loop {
        events.reserve(1)?;
        match host.next() {
            Some(event) => events.push_reserved(event),
            None => return Ok(()),
        }
    }
}

/// Gives an answer to the open question, and adds to the events what the host tells up to its next one.
pub fn take(host: &mut Host, input: Input, events: &mut Vec<Event>) -> Result<(), OfferFault>
    requires { IsTrue (is_sound input) }
    ensures taken { OnOk result (Takes host.old input events.old.items host.new events.new.items) }
    ensures not_asked { (result ≡ Err OfferFault.NotAsked) ↔ (misfit (question_of host.old) input ≡ Some reasons.NotAsked) }
{
    host.offer(input)?;
    collect(host, events)?;
    Ok(())
}

/// Does a call, and answers each destructor that is asked, at most so many times. What the host tells is added to the
/// events.
pub fn perform(
    host: &mut Host,
    call: Call,
    most: u32,
    events: &mut Vec<Event>,
) -> Result<(), OfferFault>
    requires { IsTrue (is_sound_call call) }
    // What was done are the next items of the story, over the call and what the destructors return.
    ensures performed { OnOk result (Performs host.old call most events.old.items host.new events.new.items) }
    ensures not_asked { (result ≡ Err OfferFault.NotAsked) ↔ (question_of host.old ≢ Some Ask.Quiet) }
{
    take(host, Input::Call(call), events)?;
    for _ in 0..most {
        match answer(host) {
            Some(input) => take(host, input, events)?,
            None => return Ok(()),
        }
    }
    Ok(())
}
