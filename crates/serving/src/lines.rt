//! The line service is served, from its beginning.
ghost use Rattle.std.specs.Prelude.{◌≡◌, ◌<◌, Err, IfErr, OnOk};
ghost use Rattle.tree_specs.specs.Texts.Lines.{lines_limit};
ghost use Rattle.outside.specs.Causes.{Counts};
ghost use Rattle.serving.specs.Stations.{IsBegun, ServesLines, StopsLines, ends};

use crate::machine::Machine;
use crate::run::serve;
use crate::stop::Stop;
use line_service::Station;
use outside::{Clock, Link, Routines, Sink};
use std::alloc::Global;
use tree_specs::Memory;

/// Serves lines with a machine that has a line service's story, from its beginning. The machine is given up at the end.
fn serve_begun<M: Machine, L: Link, C: Clock, R: Routines, K: Sink>(
    alloc: Global,
    path: &str,
    answers: u64,
    mut machine: M,
    link: &mut L,
    clock: &mut C,
    routines: &mut R,
    out: &mut K,
) -> Result<(), Stop>
    requires begun { IsBegun (M.course machine) }
    requires few { answers < lines_limit }
    ensures serves { OnOk result (ServesLines path.now answers
        (ends (L.told link.old) (C.told clock.old) (R.told routines.old) (K.held out.old))
        (ends (L.told link.new) (C.told clock.new) (R.told routines.new) (K.held out.new))) }
    ensures stops { IfErr result (λ why. StopsLines path.now answers why
        (ends (L.told link.old) (C.told clock.old) (R.told routines.old) (K.held out.old))
        (ends (L.told link.new) (C.told clock.new) (R.told routines.new) (K.held out.new))) }
    ensures link_cause { Counts (L.faults link.old) (L.faults link.new) (result ≡ Err Stop.Link) }
    ensures write_cause { Counts (K.faults out.old) (K.faults out.new) (result ≡ Err Stop.Write) }
{
    serve(
        alloc,
        path,
        answers,
        &mut machine,
        link,
        clock,
        routines,
        out,
    )
}

/// Serves lines at the path: a line service is made, and `answers` answers are given to it, each of which is put on
/// record before the service has it. The link, the clock and the routines are asked what the service's story over these
/// answers prescribes. Where no answer names more than 20,164 ready descriptors, the record is a schedule of which no
/// line is refused, with these answers as its inputs, so it replays to this story.
///
/// # Errors
///
/// `Link` where listening or a wait has failed, and `Write` where a put has, which that end has counted as a fault.
/// `Memory` where memory ran out. Each time `answers` answers at most were given, and the record is the header with
/// their lines, and a part of one more line at most. A question that was put after them is the one with which the
/// service's story over these answers ends.
pub fn serve_lines<L: Link, C: Clock, R: Routines, K: Sink>(
    alloc: Global,
    path: &str,
    answers: u64,
    link: &mut L,
    clock: &mut C,
    routines: &mut R,
    out: &mut K,
) -> Result<(), Stop>
    // So many lines has a schedule at most.
    requires { answers < lines_limit }
    ensures serves { OnOk result (ServesLines path.now answers
        (ends (L.told link.old) (C.told clock.old) (R.told routines.old) (K.held out.old))
        (ends (L.told link.new) (C.told clock.new) (R.told routines.new) (K.held out.new))) }
    ensures stops { IfErr result (λ why. StopsLines path.now answers why
        (ends (L.told link.old) (C.told clock.old) (R.told routines.old) (K.held out.old))
        (ends (L.told link.new) (C.told clock.new) (R.told routines.new) (K.held out.new))) }
    ensures link_cause { Counts (L.faults link.old) (L.faults link.new) (result ≡ Err Stop.Link) }
    ensures write_cause { Counts (K.faults out.old) (K.faults out.new) (result ≡ Err Stop.Write) }
{
    match Station::new(alloc) {
        Ok(station) => serve_begun(alloc, path, answers, station, link, clock, routines, out),
        Err(Memory) => Err(Stop::Memory),
    }
}
