//! Descriptors: what no clause says is how questions, answers and replies follow one another at a socket.
ghost use Rattle.std.specs.Prelude.{◌<◌, IsTrue};
ghost use Rattle.tree_specs.specs.Words.Octets.{is_octets};
ghost use Rattle.tree_specs.specs.Words.Ranges.{is_sound};

use super::{freed, leads, tells, told_number, waits};
use crate::inputs::{act, free, ret};
use host_core::{Host, OfferFault};
use std::alloc::Global;
use std::fmt::InlineText;
use std::process::Abort;
use std::test::Fail;
use tree_specs::{
    Ask, Call, Event, Input, Moment, Obj, Octets, Owner, Reply, WAIT_LIMIT, Want, Wants, What,
};

fn bytes_of(rt: &impl Abort, alloc: Global, text: &str) -> Octets
    ensures { IsTrue (is_octets result) }
{
    let bytes = Vec::from_slice(alloc, text.as_bytes()).expect(rt, "memory");
    Octets::make(bytes).expect(rt, "bytes")
}

// The listener is asked who connects.
fn accept() -> Input
    ensures { IsTrue (is_sound result) }
{
    Input::Call(Call::Accept { fd: 0 })
}

// An event below the root waits until the descriptor can be read, with the routine 5.
fn watch(fd: u32) -> Input
    ensures { IsTrue (is_sound result) }
{
    Input::Call(Call::Fd {
        owner: Owner::Root,
        fd,
        flags: 1,
        routine: 5,
        user: 9,
        context: Obj::first_context(),
    })
}

fn read(fd: u32) -> Input
    ensures { IsTrue (is_sound result) }
{
    Input::Call(Call::Read { fd, len: 4 })
}

fn write(rt: &impl Abort, alloc: Global, fd: u32, text: &str) -> Input
    ensures { IsTrue (is_sound result) }
{
    Input::Call(Call::Write {
        fd,
        bytes: bytes_of(rt, alloc, text),
    })
}

fn close(fd: u32) -> Input
    ensures { IsTrue (is_sound result) }
{
    Input::Call(Call::Close { fd })
}

fn turn() -> Input
    ensures { IsTrue (is_sound result) }
{
    Input::Call(Call::Turn {
        context: Obj::first_context(),
    })
}

// These bytes were read.
fn got(rt: &impl Abort, alloc: Global, text: &str) -> Input
    ensures { IsTrue (is_sound result) }
{
    Input::Got(bytes_of(rt, alloc, text))
}

// The descriptor can be read.
fn ready(rt: &impl Abort, alloc: Global, fd: u32) -> Input
    ensures { IsTrue (is_sound result) }
{
    let list = Vec::from_slice(alloc, &[Want { fd, flags: 1 }]).expect(rt, "memory");
    Input::Ready(Wants::make(list).expect(rt, "wants"))
}

fn told_bytes(rt: &impl Abort, alloc: Global, text: &str) -> Reply {
    Reply::Bytes(bytes_of(rt, alloc, text))
}

// What the handler of an event is asked after so many calls, the last of which had this reply.
fn moment(number: u64, step: u32, last: Option<Reply>) -> Ask {
    Ask::Routine(Moment {
        what: What::Descriptor,
        object: Obj(number),
        routine: 5,
        user: 9,
        now: 0,
        flags: 1,
        step,
        last,
    })
}

fn fired(number: u64) -> Event {
    Event::Fired {
        what: What::Descriptor,
        object: Obj(number),
        routine: 5,
    }
}

// A descriptor is accepted, and a new event watches it.
fn connects(rt: &impl Abort, host: &mut Host, fd: u32, number: u64)
    requires { 0 < fd }
{
    leads(rt, host, accept(), &[], &Ask::Accept(0));
    leads(
        rt,
        host,
        Input::Took(fd),
        &[told_number(u64::from(fd))],
        &Ask::Quiet,
    );
    tells(rt, host, watch(fd), &[told_number(number)]);
}

// A turn begins, in which the descriptor can be read, and the event comes that watches it.
fn comes(rt: &impl Abort, alloc: Global, host: &mut Host, fd: u32, number: u64) {
    leads(rt, host, turn(), &[], &Ask::Wait(WAIT_LIMIT));
    leads(
        rt,
        host,
        ready(rt, alloc, fd),
        &[fired(number)],
        &moment(number, 0, None),
    );
}

#[test]
fn a_handler_reads_and_writes(rt: HostRuntime) -> Result<(), Fail> {
    let mut host = Host::new(rt.alloc(), 1)?;
    connects(&rt, &mut host, 1, 1);
    comes(&rt, rt.alloc(), &mut host, 1, 1);
    leads(&rt, &mut host, act(read(1)), &[], &Ask::Read(1, 4));
    let told = Event::Replied(told_bytes(&rt, rt.alloc(), "hi"));
    let asked = moment(1, 1, Some(told_bytes(&rt, rt.alloc(), "hi")));
    leads(&rt, &mut host, got(&rt, rt.alloc(), "hi"), &[told], &asked);
    let call = act(write(&rt, rt.alloc(), 1, "hello"));
    leads(
        &rt,
        &mut host,
        call,
        &[],
        &Ask::Write(1, bytes_of(&rt, rt.alloc(), "hello")),
    );
    let asked = moment(1, 2, Some(Reply::Number(3)));
    leads(&rt, &mut host, Input::Wrote(3), &[told_number(3)], &asked);
    leads(&rt, &mut host, ret(0), &[told_number(1)], &Ask::Quiet);
    tells(
        &rt,
        &mut host,
        free(1),
        &[freed(1), Event::Replied(Reply::Ok)],
    );
    tells(
        &rt,
        &mut host,
        close(1),
        &[Event::Closed(1), Event::Replied(Reply::Ok)],
    );
    assert!(rt; !host.is_open(1), "it is closed");
    drop(host);
    Ok(())
}

#[test]
fn a_descriptor_that_is_open_is_not_accepted_again(rt: HostRuntime) -> Result<(), Fail> {
    let mut host = Host::new(rt.alloc(), 1)?;
    connects(&rt, &mut host, 7, 1);
    leads(&rt, &mut host, accept(), &[], &Ask::Accept(0));
    assert_eq!(rt; host.offer(Input::Took(7)), Err(OfferFault::Taken(7)));
    waits(&rt, &mut host, &Ask::Accept(0));
    leads(
        &rt,
        &mut host,
        Input::Took(8),
        &[told_number(8)],
        &Ask::Quiet,
    );
    drop(host);
    Ok(())
}

// The descriptors are looked at in this order.
fn looks(rt: &impl Abort, alloc: Global, host: &Host, order: &[Want]) {
    let mut wants = Vec::new(alloc);
    host.wants(&mut wants).expect(rt, "memory");
    assert_eq!(rt; wants.as_slice(), order);
}

#[test]
fn the_descriptor_that_has_come_is_looked_at_last(rt: HostRuntime) -> Result<(), Fail> {
    let mut host = Host::new(rt.alloc(), 1)?;
    connects(&rt, &mut host, 1, 1);
    connects(&rt, &mut host, 2, 2);
    let first = Want { fd: 1, flags: 1 };
    let second = Want { fd: 2, flags: 1 };
    looks(&rt, rt.alloc(), &host, &[first, second]);
    comes(&rt, rt.alloc(), &mut host, 1, 1);
    looks(&rt, rt.alloc(), &host, &[second, first]);
    leads(&rt, &mut host, ret(0), &[told_number(1)], &Ask::Quiet);
    looks(&rt, rt.alloc(), &host, &[second, first]);
    drop(host);
    Ok(())
}

#[test]
fn a_descriptor_that_is_taken_is_named(rt: HostRuntime) {
    let text: InlineText<64> = InlineText::of(OfferFault::Taken(5));
    assert_eq!(rt; text.as_str(), "descriptor 5 is open already");
}
