//! What an audit answers.
ghost use Rattle.std.specs.Prelude.{◌≡◌};
ghost use Rattle.transcript_audit.specs.Outcomes.{audited_of};

use crate::stop::Stop;

/// What an audit answers.
#[derive(Clone, Copy, Debug, PartialEq, Eq)]
pub enum Audited {
    /// It is the transcript of an orderly story, and has so many lines.
    Orderly(u64),
    /// The line with this number, from 1, is the first with a flaw. `rule` is the least rule of orderly stories that it
    /// breaks, from 1 to 5, or 0 where no transcript has these first lines.
    Broken { line: u64, rule: u32 },
    /// A read failed, and the source counted it.
    ReadFault,
    /// Memory ran out.
    Memory,
}

/// What an outcome is called outside.
pub(crate) fn ending(outcome: Result<u64, Stop>) -> Audited
    ensures { result ≡ audited_of outcome }
{
    match outcome {
        Ok(lines) => Audited::Orderly(lines),
        Err(Stop::Broken { line, rule }) => Audited::Broken { line, rule },
        Err(Stop::Read) => Audited::ReadFault,
        Err(Stop::Memory) => Audited::Memory,
    }
}
