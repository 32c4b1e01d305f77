//! A host runs the lines of a schedule: they spell calls and answers, and it tells events.
ghost use Rattle.std.specs.Prelude.{◌≡◌, ◌++◌, OnOk, OnErr, Some, IsTrue};
ghost use Rattle.tree_specs.specs.declared.question.Ask.TheVariants.{Quiet};
ghost use Rattle.tree_specs.specs.Machine.View.{question_of};
ghost use Rattle.tree_specs.specs.Texts.Grammar.{input_of};
ghost use Rattle.tree_specs.specs.Texts.Schedule.{misfit};
ghost use Rattle.tree_specs.specs.Texts.Text.{event_text, reply_text};
ghost use Rattle.tree_specs.specs.Words.Ranges.{is_sound, is_sound_call};
ghost use Rattle.schedule_replay.specs.Hosts.{host_standing, CallsAtOnce};
ghost use Rattle.schedule_replay.specs.Standings.{Waits};

use crate::machine::Machine;
use host_core::{Host, OfferFault};
use schedule_text::{read_line, write_event, write_reply};
use std::alloc::Global;
use text_forms::FormFault;
use tree_specs::{Ask, Call, Event, Input, Memory, Reply, Version};

/// Appends the line of a reply, or nothing when memory runs out.
#[inline(always)]
fn append_reply(reply: Reply, text: &mut Vec<u8>) -> Result<(), Memory>
    ensures text { OnOk result (text.new.items ≡ text.old.items ++ reply_text reply) }
    ensures kept { OnErr result (text.new.items ≡ text.old.items) }
{
    let began = text.len();
    let written = write_reply(&reply, text);
    if written.is_err() {
        text.truncate(began);
    }
    written
}

/// Does a call for the host's own caller, which is asked for one, and appends the reply where it comes at once. When
/// memory runs out, nothing was appended.
#[inline(always)]
fn do_call(host: &mut Host, call: Call, text: &mut Vec<u8>) -> Result<(), Memory>
    requires waits { Waits (host_standing host.old) }
    requires asked { question_of host.old ≡ Some Quiet }
    requires sound { IsTrue (is_sound_call call) }
    ensures ok { OnOk result (CallsAtOnce host.old call text.old.items host.new text.new.items) }
    ensures err { OnErr result (text.new.items ≡ text.old.items) }
{
    let Some(reply) = host.call(call)? else {
        return Ok(());
    };
    append_reply(reply, text)
}

impl Machine for Host {
    type Given = Input;

    type Told = Event;

    ghost reads = { input_of };

    ghost misfit = { misfit };

    ghost is_sound = { is_sound };

    ghost text_of = { event_text };

    ghost standing = { host_standing };

    #[inline(always)]
    fn read(alloc: Global, line: &[u8], version: Version) -> Result<Input, FormFault> {
        read_line(alloc, line, version)
    }

    fn write(told: Event, text: &mut Vec<u8>) -> Result<(), Memory> {
        write_event(&told, text)
    }

    #[inline(always)]
    fn question(&self) -> Option<&Ask> {
        Host::question(self)
    }

    #[inline(always)]
    fn next(&mut self) -> Result<Option<Event>, Memory> {
        Ok(Host::next(self))
    }

    #[inline(always)]
    fn offer(&mut self, given: Input) -> Result<(), OfferFault> {
        Host::offer(self, given)
    }

    /// A call of the host's own caller is done at once. Most lines are such calls.
    #[inline(always)]
    fn take_at_once(&mut self, given: Input, text: &mut Vec<u8>) -> Result<Option<Input>, Memory> {
        match given {
            Input::Call(call) if self.is_quiet() => {
                do_call(self, call, text)?;
                Ok(None)
            }
            other => Ok(Some(other)),
        }
    }
}
