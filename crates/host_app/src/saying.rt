//! What the program says of its status on standard error.
ghost use Rattle.std.specs.Prelude.{◌≡◌, Err, length};
ghost use Rattle.outside.specs.Causes.{Counts};
ghost use Rattle.outside.specs.Outputs.{PutsAll, LeavesRoom};
ghost use Rattle.host_app.specs.Statuses.{reason_text, line_text, flaw_text, status_text};

use crate::numbered::put_numbered;
use crate::status::Status;
use outside::{PutError, Sink, put_all};
use tree_specs::Reason;

/// The reason for rejecting a line, as it is said.
fn reason_bytes(reason: Reason) -> &'static [u8]
    ensures { result.now ≡ reason_text reason }
{
    match reason {
        Reason::Limit => b": limit\n",
        Reason::Form => b": form\n",
        Reason::NotAsked => b": not asked\n",
        Reason::Token => b": token\n",
    }
}

/// Says which line was rejected, and why.
fn say_line<E: Sink>(err: &mut E, line: u64, reason: Reason) -> Result<(), PutError>
    ensures bytes { PutsAll (E.held err.old) (E.held err.new) result (line_text line reason) }
    ensures cause { Counts (E.faults err.old) (E.faults err.new) (result ≡ Err PutError.Write) }
    ensures room { LeavesRoom (E.room err.old) (E.room err.new) result (length (line_text line reason)) }
{
    put_numbered(err, b"line ", line, reason_bytes(reason))
}

/// Says which line of a transcript is the first with a flaw, and which rule it breaks.
fn say_flaw<E: Sink>(err: &mut E, line: u64, rule: u32) -> Result<(), PutError>
    ensures bytes { PutsAll (E.held err.old) (E.held err.new) result (flaw_text line rule) }
    ensures cause { Counts (E.faults err.old) (E.faults err.new) (result ≡ Err PutError.Write) }
    ensures room { LeavesRoom (E.room err.old) (E.room err.new) result (length (flaw_text line rule)) }
{
    if rule == 0 {
        return say_line(err, line, Reason::Form);
    }
    put_numbered(err, b"line ", line, b": rule ")?;
    put_numbered(err, b"", u64::from(rule), b"\n")
}

/// Says the text of the status. It takes no memory of its own.
pub fn say<E: Sink>(err: &mut E, status: Status) -> Result<(), PutError>
    ensures bytes { PutsAll (E.held err.old) (E.held err.new) result (status_text status) }
    ensures cause { Counts (E.faults err.old) (E.faults err.new) (result ≡ Err PutError.Write) }
    ensures room { LeavesRoom (E.room err.old) (E.room err.new) result (length (status_text status)) }
{
    match status {
        Status::Done | Status::Usage => Ok(()),
        Status::ReadFault => put_all(err, b"read fault\n"),
        Status::BadSchedule { line, reason } => say_line(err, line, reason),
        Status::WriteFault => put_all(err, b"write fault\n"),
        Status::LinkFault => put_all(err, b"link fault\n"),
        Status::NoMemory => put_all(err, b"no memory\n"),
        Status::Broken { line, rule } => say_flaw(err, line, rule),
    }
}
