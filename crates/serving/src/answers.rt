//! The answer of the outside to the open question.
ghost use Rattle.std.specs.Prelude.{◌≡◌, ℕ, Bool, List, [], ◌∷◌, length, Err, IsTrue, IfOk, IfErr, OnErr};
ghost use Rattle.tree_specs.specs.declared.question.Ask.TheVariants as ask;
ghost use Rattle.tree_specs.specs.declared.wants.Want.{Want as WantData};
ghost use Rattle.tree_specs.specs.Words.Octets.{is_octets};
ghost use Rattle.tree_specs.specs.Words.Ranges.{is_length};
ghost use Rattle.outside.specs.Causes.{Counts};
ghost use Rattle.outside.specs.Descriptors.{SameOpen};
ghost use Rattle.outside.specs.Tellings.{Tells};
ghost use Rattle.outside.specs.LinkCalls.LinkCall.{Accept, Read, Write};
ghost use Rattle.serving.specs.Exchanges.{link_answer, clock_answer, routine_answer};
ghost use Rattle.service_rules.specs.Exchanges.{Suits};
ghost use Rattle.service_rules.specs.ReadRanges.{reads_in_range};
ghost use Rattle.serving.specs.Serving.{OpensBy};
ghost use Rattle.serving.specs.Stopping.{FailsToAnswer};
ghost use Rattle.serving.specs.Machines.{is_for_outside};

use crate::machine::Machine;
use crate::stop::Stop;
use outside::{Accepted, Clock, Done, Link, LinkRead, LinkWrote, Routines};
use std::alloc::Global;
use tree_specs::{Ask, Input, Memory, Moment, Octets, Wants};

/// Waits until something that is watched is ready.
fn wait<M: Machine, L: Link>(
    alloc: Global,
    machine: &M,
    link: &mut L,
    limit: u64,
) -> Result<Input, Stop>
    ensures suits { IfOk result (λ i. Suits (ask.Wait limit) i) }
    ensures told { IfOk result (λ i.
        Tells (L.told link.old) (L.told link.new) (link_answer (ask.Wait limit) (M.wanted machine.now) i)) }
    ensures fails { IfErr result (λ why.
        FailsToAnswer why (ask.Wait limit) (M.wanted machine.now) (L.told link.old) (L.told link.new)) }
    ensures cause { Counts (L.faults link.old) (L.faults link.new) (result ≡ Err Stop.Link) }
    ensures open { SameOpen (L.is_open link.old) (L.is_open link.new) }
    ensures opens { IfOk result (λ i. OpensBy (L.is_open link.old) (L.is_open link.new) i) }
{
    let mut wants = Vec::new(alloc);
    machine.wants(&mut wants)?;
    let mut ready = Vec::new(alloc);
    let done = link.wait(&wants, limit, &mut ready)?;
    if done == Done::Failed {
        return Err(Stop::Link);
    }
    match Wants::make(ready) {
        Some(ready) => Ok(Input::Ready(ready)),
        None => unreachable!(),
    }
}

/// Asks who connects.
fn accept<L: Link>(link: &mut L, fd: u32) -> Result<Input, Stop>
    ensures suits { IfOk result (λ i. Suits (ask.Accept fd) i) }
    ensures told { IfOk result (λ i. Tells (L.told link.old) (L.told link.new) (Accept fd i ∷ [])) }
    ensures fails { (wanted : List WantData) → IfErr result (λ why.
        FailsToAnswer why (ask.Accept fd) wanted (L.told link.old) (L.told link.new)) }
    ensures memory { OnErr result (result ≡ Err Stop.Memory) }
    ensures faults { L.faults link.new ≡ L.faults link.old }
    ensures opens { IfOk result (λ i. OpensBy (L.is_open link.old) (L.is_open link.new) i) }
{
    match link.accept(fd)? {
        Accepted::Took(taken) => Ok(Input::Took(taken)),
        Accepted::Again => Ok(Input::Again),
        Accepted::Fault => Ok(Input::Fault),
    }
}

/// A copy of bytes that were read.
fn octets(alloc: Global, bytes: &[u8]) -> Result<Octets, Stop>
    requires { IsTrue (is_octets bytes.now) }
    ensures bytes { IfOk result (λ octets. octets ≡ bytes.now) }
    ensures err { OnErr result (result ≡ Err Stop.Memory) }
{
    match Octets::make(bytes.to_vec(alloc)?) {
        Some(octets) => Ok(octets),
        None => unreachable!(),
    }
}

/// Reads some bytes, as many as have room in the buffer at most.
fn read<L: Link>(alloc: Global, link: &mut L, fd: u32, buf: &mut [u8]) -> Result<Input, Stop>
    requires { IsTrue (is_length (length buf.old)) }
    ensures suits { IfOk result (λ i. Suits (ask.Read fd (length buf.old)) i) }
    ensures told { IfOk result (λ i.
        Tells (L.told link.old) (L.told link.new) (Read fd (length buf.old) i ∷ [])) }
    ensures fails { (wanted : List WantData) → IfErr result (λ why.
        FailsToAnswer why (ask.Read fd (length buf.old)) wanted (L.told link.old) (L.told link.new)) }
    ensures memory { OnErr result (result ≡ Err Stop.Memory) }
    ensures faults { L.faults link.new ≡ L.faults link.old }
    ensures opens { IfOk result (λ i. OpensBy (L.is_open link.old) (L.is_open link.new) i) }
{
    match link.read(fd, buf) {
        LinkRead::Got(n) => {
            let bytes = octets(alloc, &buf[..n as usize])?;
            Ok(Input::Got(bytes))
        }
        LinkRead::End => Ok(Input::End),
        LinkRead::Again => Ok(Input::Again),
        LinkRead::Fault => Ok(Input::Fault),
    }
}

/// Reads so many bytes at most.
fn read_most<L: Link>(alloc: Global, link: &mut L, fd: u32, most: u32) -> Result<Input, Stop>
    requires { IsTrue (is_length most) }
    ensures suits { IfOk result (λ i. Suits (ask.Read fd most) i) }
    ensures told { IfOk result (λ i. Tells (L.told link.old) (L.told link.new) (Read fd most i ∷ [])) }
    ensures fails { (wanted : List WantData) → IfErr result (λ why.
        FailsToAnswer why (ask.Read fd most) wanted (L.told link.old) (L.told link.new)) }
    ensures memory { OnErr result (result ≡ Err Stop.Memory) }
    ensures faults { L.faults link.new ≡ L.faults link.old }
    ensures opens { IfOk result (λ i. OpensBy (L.is_open link.old) (L.is_open link.new) i) }
{
    let mut buf = Vec::new(alloc);
    buf.resize(most as usize, 0)?;
    read(alloc, link, fd, &mut buf)
}

/// Writes some of the bytes.
fn write<L: Link>(link: &mut L, fd: u32, bytes: &[u8]) -> Input
    requires { IsTrue (is_octets bytes.now) }
    ensures suits { Suits (ask.Write fd bytes.now) result }
    ensures told { Tells (L.told link.old) (L.told link.new) (Write fd bytes.now result ∷ []) }
    ensures faults { L.faults link.new ≡ L.faults link.old }
    ensures opens { OpensBy (L.is_open link.old) (L.is_open link.new) result }
{
    match link.write(fd, bytes) {
        LinkWrote::Wrote(n) => Input::Wrote(n),
        LinkWrote::Again => Input::Again,
        LinkWrote::Fault => Input::Fault,
    }
}

/// What the routine of this moment does.
fn act<R: Routines>(routines: &mut R, moment: &Moment) -> Result<Input, Stop>
    ensures suits { IfOk result (λ i. Suits (ask.Routine moment.entry.now) i) }
    ensures told { IfOk result (λ i.
        Tells (R.told routines.old) (R.told routines.new) (routine_answer (ask.Routine moment.entry.now) i)) }
    ensures opens { (before : ℕ → Bool) → IfOk result (λ i. OpensBy before before i) }
    ensures untold { OnErr result (Tells (R.told routines.old) (R.told routines.new) []) }
    ensures memory { OnErr result (result ≡ Err Stop.Memory) }
{
    match routines.answer(moment) {
        Ok(act) => Ok(Input::Act(act)),
        Err(Memory) => Err(Stop::Memory),
    }
}

/// The answer of the outside to the open question.
pub(crate) fn answer<M: Machine, L: Link, C: Clock, R: Routines>(
    alloc: Global,
    asked: &Ask,
    machine: &M,
    link: &mut L,
    clock: &mut C,
    routines: &mut R,
) -> Result<Input, Stop>
    requires outside { IsTrue (is_for_outside asked.now) }
    requires range { IsTrue (reads_in_range asked.now) }
    ensures suits { IfOk result (λ i. Suits asked.now i) }
    ensures link { IfOk result (λ i.
        Tells (L.told link.old) (L.told link.new) (link_answer asked.now (M.wanted machine.now) i)) }
    ensures clock { IfOk result (λ i.
        Tells (C.told clock.old) (C.told clock.new) (clock_answer asked.now i)) }
    ensures routines { IfOk result (λ i.
        Tells (R.told routines.old) (R.told routines.new) (routine_answer asked.now i)) }
    ensures opens { IfOk result (λ i. OpensBy (L.is_open link.old) (L.is_open link.new) i) }
    ensures fails { IfErr result (λ why.
        FailsToAnswer why asked.now (M.wanted machine.now) (L.told link.old) (L.told link.new)) }
    ensures clock_kept { OnErr result (C.told clock.new ≡ C.told clock.old) }
    ensures routines_kept { OnErr result (Tells (R.told routines.old) (R.told routines.new) []) }
    ensures cause { Counts (L.faults link.old) (L.faults link.new) (result ≡ Err Stop.Link) }
{
    match asked {
        Ask::Quiet => unreachable!(),
        Ask::Routine(moment) => act(routines, moment),
        Ask::Clock => Ok(Input::Clock(clock.now())),
        Ask::Wait(limit) => wait(alloc, machine, link, *limit),
        Ask::Accept(fd) => accept(link, *fd),
        Ask::Read(fd, most) => read_most(alloc, link, *fd, *most),
        Ask::Write(fd, bytes) => Ok(write(link, *fd, bytes.as_slice())),
    }
}
