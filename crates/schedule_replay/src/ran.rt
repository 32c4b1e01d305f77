//! How a replay ends, or a conversion.
ghost use Rattle.std.specs.Prelude.{◌≡◌};
ghost use Rattle.schedule_replay.specs.Played.{ran_of};

use crate::stop::Stop;
use tree_specs::Reason;

/// How a replay ended, or a conversion.
#[derive(Clone, Copy, PartialEq, Eq)]
pub enum Ran {
    /// The whole schedule was replayed, or converted.
    Done,
    /// A read failed, and the source counted it.
    ReadFault,
    /// The line with this number, from 1, is the first that was rejected.
    BadSchedule { line: u64, reason: Reason },
    /// A put failed, and the sink counted it.
    WriteFault,
    /// Memory ran out.
    Memory,
}

/// How it ended that was read to its end, or was stopped.
pub fn ending(outcome: Result<(), Stop>) -> Ran
    ensures { result ≡ ran_of outcome }
{
    match outcome {
        Ok(()) => Ran::Done,
        Err(Stop::Read) => Ran::ReadFault,
        Err(Stop::Refused { line, reason }) => Ran::BadSchedule { line, reason },
        Err(Stop::Write) => Ran::WriteFault,
        Err(Stop::Memory) => Ran::Memory,
    }
}
