//! The audit of what a source gives.
ghost use Rattle.std.specs.Prelude.{◌≡◌, ◌⊎◌, ℕ, Err, IfSome, None, length};
ghost use Rattle.audit_rules.specs.Flaws.{flaw};
ghost use Rattle.tree_specs.specs.Texts.Lines.{lines};
ghost use Rattle.outside.specs.Causes.{Counts, Rose};
ghost use Rattle.line_pieces.specs.Readings.{IsBetweenBytes};
ghost use Rattle.line_pieces.specs.States.{reading_of};
ghost use Rattle.transcript_audit.specs.Audits.{IsReady};
ghost use Rattle.transcript_audit.specs.Outcomes.{audited_of, Finds, HasFlaw, IsOrderlyTranscript};
ghost use Rattle.transcript_audit.specs.Passes.{IsFresh, PassesEnd};

use crate::audited::{Audited, ending};
use crate::course::Audit;
use crate::stop::Stop;
use line_pieces::LineReader;
use outside::{Got, Source};
use std::alloc::Global;

/// Takes the end of the transcript; how many lines it has.
fn take_end(reader: &mut LineReader<Audit>) -> Result<u64, Stop>
    requires ready { IsBetweenBytes IsReady (reading_of reader.old) }
    ensures passed { PassesEnd (reading_of reader.old) result }
{
    reader.finish()?;
    Ok(reader.taker.lines)
}

/// Reads a transcript to its end, or to its first flaw; how many lines it has.
fn pass<S: Source>(reader: &mut LineReader<Audit>, input: &mut S) -> Result<u64, Stop>
    requires fresh { IsFresh (reading_of reader.old) }
    requires ready { IsBetweenBytes IsReady (reading_of reader.old) }
    ensures found { IfSome (S.left input.old) (λ bytes. Finds bytes (audited_of result)) }
    ensures reads { Counts (S.faults input.old) (S.faults input.new) (result ≡ Err Stop.Read) }
{
    let mut chunk = [0u8; 4096];
    'reads: loop {
        match input.read(&mut chunk) {
            Got::Some(n) => reader.feed(&chunk[..n as usize])?,
            Got::End => return take_end(reader),
            Got::Failed => return Err(Stop::Read),
        }
    }
}

/// Reads a transcript to its end, or to its first flaw.
fn run<S: Source>(alloc: Global, input: &mut S) -> Result<u64, Stop>
    ensures found { IfSome (S.left input.old) (λ bytes. Finds bytes (audited_of result)) }
    ensures reads { Counts (S.faults input.old) (S.faults input.new) (result ≡ Err Stop.Read) }
{
    let mut reader = LineReader::new(alloc, Audit::new(alloc));
    let passed = pass(&mut reader, input);
    drop(reader);
    passed
}

/// Whether what the source gives is the transcript of an orderly story. It is read to its end, or to its first flaw.
///
/// The memory that it takes is that of a record for each object that was freed or dropped, whose destructor accepted or
/// whose state was told, and of one line.
pub fn audit<S: Source>(alloc: Global, input: &mut S) -> Audited
    // Orderly comes only where no line has a flaw, and with the number of lines; Broken is the first line with a flaw.
    ensures found { IfSome (S.left input.old) (λ bytes. Finds bytes result) }
    // So the bytes are the transcript of an orderly story, or the lines before the flawed one begin such a transcript.
    ensures orderly { (lines : ℕ) → result ≡ Audited.Orderly lines → IfSome (S.left input.old) (λ bytes. IsOrderlyTranscript bytes lines) }
    ensures broken { (line rule : ℕ) → result ≡ Audited.Broken line rule → IfSome (S.left input.old) (λ bytes. HasFlaw bytes line rule) }
    ensures read { Counts (S.faults input.old) (S.faults input.new) (result ≡ Audited.ReadFault) }
    // Where no line has a flaw and no fault was counted, that is said, or memory ran out.
    ensures complete { IfSome (S.left input.old) (λ bytes. flaw bytes ≡ None → (Rose (S.faults input.old) (S.faults input.new) → ⊥)
        → (result ≡ Audited.Orderly (length (lines bytes))) ⊎ (result ≡ Audited.Memory)) }
{
    ending(run(alloc, input))
}
