//! Writing an event as its lines.
ghost use Rattle.std.specs.Prelude.{◌++◌, ◌∷◌, [], codes};
ghost use Rattle.tree_specs.specs.declared.event.Event.TheVariants as events;
ghost use Rattle.tree_specs.specs.Texts.Text.{event_text};
ghost use Rattle.tree_specs.specs.Texts.Written.{Writes};

use crate::moment::what_word;
use crate::reply::write_reply;
use text_forms::write_numbers;
use tree_specs::{Event, Memory, Obj, What};

/// Appends the line that tells that a routine begins to run.
#[tactic(auto, unfolding(tree_specs::specs::Texts::Text::event_text))]
fn write_fired(what: What, object: Obj, routine: u32, out: &mut Vec<u8>) -> Result<(), Memory>
    ensures { Writes out.old.items out.new.items result (event_text (events.Fired what object routine)) }
{
    out.extend_from_slice(b"fired ")?;
    write_numbers(what_word(what), &[object.0, u64::from(routine)], b"\n", out)
}

/// Appends an event as its line, with its LF; a report is the lines of its rows and then that of the
/// reply. When memory runs out, a prefix of it was appended.
#[tactic(auto, unfolding(tree_specs::specs::Texts::Text::event_text))]
pub fn write_event(event: &Event, out: &mut Vec<u8>) -> Result<(), Memory>
    ensures { Writes out.old.items out.new.items result (event_text event.now) }
{
    match event {
        Event::Replied(reply) => write_reply(reply, out),
        Event::Fired {
            what,
            object,
            routine,
        } => write_fired(*what, *object, *routine, out),
        Event::Accepted(x) => write_numbers(b"accepted", &[x.0], b"\n", out),
        Event::Refused { object, answer } => {
            write_numbers(b"refused", &[object.0, u64::from(*answer)], b"\n", out)
        }
        Event::Moved { object, owner } => {
            write_numbers(b"moved", &[object.0, owner.number()], b"\n", out)
        }
        Event::Warned(x) => write_numbers(b"warned", &[x.0], b"\n", out),
        Event::Freed { object, hook } => {
            write_numbers(b"freed", &[object.0, u64::from(*hook)], b"\n", out)
        }
        Event::Unreferenced { reference, target } => {
            write_numbers(b"unreferenced", &[reference.0, target.0], b"\n", out)
        }
        Event::Closed(descriptor) => {
            write_numbers(b"closed", &[u64::from(*descriptor)], b"\n", out)
        }
        Event::State { request, state } => {
            write_numbers(b"state", &[request.0, u64::from(*state)], b"\n", out)
        }
    }
}
