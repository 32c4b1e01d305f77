//! Replaying a schedule that is made from a number.
ghost use Rattle.std.specs.Prelude.{◌≡◌, ◌+◌, ◌≤◌, Err, Some, IfSome};
ghost use Rattle.outside.specs.Causes.{Counts};
ghost use Rattle.load_schedule.specs.Loads.{PutsFiveLines};
ghost use Rattle.tree_specs.specs.Texts.Lines.{lines_limit};
ghost use Rattle.service_rules.specs.Schedules.{transcript_of};
ghost use Rattle.tree_specs.specs.Texts.Load.{load_schedule};

use crate::source::LoadSource;
use crate::tally::Tally;
use outside::{PutError, Sink, put_all};
use schedule_replay::{Ran, replay};
use std::alloc::Global;
use tree_specs::Memory;

/// Replays the schedule of so many calls that is made from a number, and counts the lines of its transcript.
fn tally(alloc: Global, number: u32, count: u32) -> Option<Tally>
    requires { count + 2 ≤ lines_limit }
    ensures { IfSome result (λ held. transcript_of (load_schedule number count) ≡ Some held) }
{
    let mut schedule = LoadSource::new(number, count);
    let mut tally = Tally::new(alloc);
    match replay(alloc, &mut schedule, &mut tally) {
        Ran::Done => Some(tally),
        Ran::Memory => None,
        Ran::ReadFault => unreachable!(),
        Ran::BadSchedule { .. } => unreachable!(),
        Ran::WriteFault => unreachable!(),
    }
}

/// Replays the schedule of so many calls that is made from a number, and puts five lines on its transcript: how many
/// calls were drawn, how many were refused, how many objects were freed, how many references were dropped, and how many
/// objects are left.
///
/// The memory that it takes is that of the rows that exist, of a line, and of what `replay` has still to write.
///
/// # Errors
///
/// `Write` only where a put failed, which the sink counted, and `Memory` where there was none. Then a prefix of the
/// five lines was put.
pub fn load<K: Sink>(alloc: Global, number: u32, count: u32, out: &mut K) -> Result<(), PutError>
    requires { count + 2 ≤ lines_limit }
    ensures lines { PutsFiveLines number count (K.held out.old) (K.held out.new) result }
    ensures cause { Counts (K.faults out.old) (K.faults out.new) (result ≡ Err PutError.Write) }
{
    let Some(tally) = tally(alloc, number, count) else {
        return Err(PutError::Memory);
    };
    match tally.five_lines(alloc, count) {
        Ok(text) => put_all(out, &text),
        Err(Memory) => Err(PutError::Memory),
    }
}
