//! The command `audit`: what it writes of a transcript, and its status.
ghost use Rattle.std.specs.Prelude.{◌≡◌, ◌≢◌, ◌⊎◌, ℕ, IfSome, None, Some};
ghost use Rattle.tree_specs.specs.declared.schedule.Reason.{Reason};
ghost use Rattle.outside.specs.Causes.{Rose};
ghost use Rattle.audit_rules.specs.Flaws.{flaw};
ghost use Rattle.transcript_audit.specs.Outcomes.{HasFlaw};
ghost use Rattle.host_app.specs.Audits.{WritesOrderly, WritesOrderlyFront};

use crate::numbered::put_numbered;
use crate::status::Status;
use outside::{Sink, Source};
use std::alloc::Global;
use transcript_audit::{Audited, audit};

/// Audits the transcript that `input` gives. Where its story is orderly, a line with the number of its lines goes to
/// `out`; otherwise `out` gets nothing.
// What an audit takes of the call stack is no part of a replay's, which is to do with 64 KiB.
#[inline(never)]
pub fn audit_transcript<S: Source, K: Sink>(alloc: Global, input: &mut S, out: &mut K) -> Status
    ensures orderly { result ≡ Status.Done → IfSome (S.left input.old) (λ bytes. WritesOrderly bytes (K.held out.old) (K.held out.new)) }
    ensures broken { (line rule : ℕ) → result ≡ Status.Broken line rule → IfSome (S.left input.old) (λ bytes. HasFlaw bytes line rule) }
    ensures broken_out { (line rule : ℕ) → result ≡ Status.Broken line rule → out.new ≡ out.old }
    ensures read_fault { result ≡ Status.ReadFault → Rose (S.faults input.old) (S.faults input.new) }
    ensures read_out { result ≡ Status.ReadFault → out.new ≡ out.old }
    ensures write_fault { result ≡ Status.WriteFault → Rose (K.faults out.old) (K.faults out.new) }
    ensures write_front { result ≡ Status.WriteFault → IfSome (S.left input.old) (λ bytes. WritesOrderlyFront bytes (K.held out.old) (K.held out.new)) }
    ensures memory_front { result ≡ Status.NoMemory → IfSome (S.left input.old) (λ bytes. (K.held out.new ≡ K.held out.old) ⊎ WritesOrderlyFront bytes (K.held out.old) (K.held out.new)) }
    ensures complete { IfSome (S.left input.old) (λ bytes. flaw bytes ≡ None →
        (Rose (S.faults input.old) (S.faults input.new) → ⊥) → (Rose (K.faults out.old) (K.faults out.new) → ⊥) → (result ≡ Status.Done) ⊎ (result ≡ Status.NoMemory)) }
    ensures flawed { IfSome (S.left input.old) (λ bytes. (line rule : ℕ) → flaw bytes ≡ Some (line, rule) →
        (Rose (S.faults input.old) (S.faults input.new) → ⊥) → (result ≡ Status.Broken line rule) ⊎ (result ≡ Status.NoMemory)) }
    ensures no_schedule { (line : ℕ) (reason : Reason) → result ≢ Status.BadSchedule line reason }
    ensures no_usage { result ≢ Status.Usage }
    ensures no_link { result ≢ Status.LinkFault }
{
    match audit(alloc, input) {
        Audited::Orderly(lines) => Status::from(put_numbered(out, b"orderly ", lines, b"\n")),
        Audited::Broken { line, rule } => Status::Broken { line, rule },
        Audited::ReadFault => Status::ReadFault,
        Audited::Memory => Status::NoMemory,
    }
}
