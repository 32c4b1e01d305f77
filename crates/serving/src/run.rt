//! A whole run of a service.
ghost use Rattle.std.specs.Prelude.{◌≡◌, [], ◌∷◌, Err, IfErr, OnOk};
ghost use Rattle.outside.specs.Causes.{Counts};
ghost use Rattle.outside.specs.Tellings.{Tells};
ghost use Rattle.outside.specs.Descriptors.{SameOpen};
ghost use Rattle.outside.specs.LinkCalls.LinkCall.{Listen};
ghost use Rattle.serving.specs.Machines.{Asks, IsServable};
ghost use Rattle.serving.specs.Serving.{IsServed, scene};
ghost use Rattle.serving.specs.Stopping.{IsStopped};

use crate::machine::Machine;
use crate::record::put_header;
use crate::rounds::serve_answers;
use crate::stop::Stop;
use outside::{Clock, Done, Link, Routines, Sink};
use std::alloc::Global;

/// Listens at the path.
fn listen<L: Link>(link: &mut L, path: &str) -> Result<(), Stop>
    ensures told { OnOk result (Tells (L.told link.old) (L.told link.new) (Listen path.now Done.Done ∷ [])) }
    ensures failed { result ≡ Err Stop.Link →
        Tells (L.told link.old) (L.told link.new) (Listen path.now Done.Failed ∷ []) }
    ensures untold { result ≡ Err Stop.Memory → Tells (L.told link.old) (L.told link.new) [] }
    ensures open { SameOpen (L.is_open link.old) (L.is_open link.new) }
    ensures cause { Counts (L.faults link.old) (L.faults link.new) (result ≡ Err Stop.Link) }
    ensures no_write { result ≡ Err Stop.Write → ⊥ }
{
    match link.listen(path)? {
        Done::Done => Ok(()),
        Done::Failed => Err(Stop::Link),
    }
}

/// Serves: listens at the path, puts the header of the record, and gives `answers` answers to the machine, each of
/// which is put on record before the machine has it. The link, the clock and the routines are asked what the machine's
/// story over these answers prescribes. It ends at the question behind the last of them.
///
/// # Errors
///
/// `Link` where listening or a wait has failed, and `Write` where a put has, which that end has counted as a fault.
/// `Memory` where memory ran out. Each time `answers` answers at most were given, and the record is the header with
/// their lines, and a part of one more line at most.
pub fn serve<M: Machine, L: Link, C: Clock, R: Routines, K: Sink>(
    alloc: Global,
    path: &str,
    answers: u64,
    machine: &mut M,
    link: &mut L,
    clock: &mut C,
    routines: &mut R,
    out: &mut K,
) -> Result<(), Stop>
    // The machine takes all answers that suit its questions and accept what isn't open at the link, and asks for no read
    // of more bytes than may be read at once.
    requires { IsServable (M.course machine.old) (L.is_open link.old) }
    ensures served { OnOk result (IsServed path.now answers
        (scene (M.course machine.old) (L.told link.old) (C.told clock.old) (R.told routines.old) (K.held out.old))
        (scene (M.course machine.new) (L.told link.new) (C.told clock.new) (R.told routines.new) (K.held out.new))) }
    ensures asks { OnOk result (Asks (M.asked machine.new) (M.wanted machine.new) (M.course machine.new)) }
    ensures stops { IfErr result (λ why. IsStopped path.now answers why
        (scene (M.course machine.old) (L.told link.old) (C.told clock.old) (R.told routines.old) (K.held out.old))
        (scene (M.course machine.new) (L.told link.new) (C.told clock.new) (R.told routines.new) (K.held out.new))) }
    ensures link_cause { Counts (L.faults link.old) (L.faults link.new) (result ≡ Err Stop.Link) }
    ensures write_cause { Counts (K.faults out.old) (K.faults out.new) (result ≡ Err Stop.Write) }
{
    listen(link, path)?;
    put_header(alloc, out)?;
    serve_answers(alloc, answers, machine, link, clock, routines, out)?;
    Ok(())
}
