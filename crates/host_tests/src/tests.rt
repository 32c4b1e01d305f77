ghost use Rattle.std.specs.Prelude.{IsTrue};
ghost use Rattle.tree_specs.specs.Words.Names.{is_name};
ghost use Rattle.tree_specs.specs.Words.Ranges.{is_sound};

use crate::inputs::{act, count, free, hook, owner, report, ret, steal, total};
use host_core::{Host, OfferFault};
use std::alloc::Global;
use std::fmt::InlineText;
use std::process::Abort;
use std::test::Fail;
use tree_specs::{Ask, Call, Event, Input, Moment, Name, Obj, Owner, Reply, What};

mod descriptors;
mod long_runs;

// A name of these characters.
fn name_of(rt: &impl Abort, alloc: Global, text: &str) -> Name
    ensures { IsTrue (is_name result) }
{
    let made = Name::make(alloc, text.as_bytes()).expect(rt, "memory");
    made.expect(rt, "a name")
}

// `new P SIZE a`
fn new(rt: &impl Abort, alloc: Global, number: u64, size: u64) -> Input
    ensures { IsTrue (is_sound result) }
{
    Input::Call(Call::New {
        owner: owner(number),
        size,
        name: name_of(rt, alloc, "a"),
    })
}

// What the destructor of an object is asked after so many calls, the last of which had this reply.
fn moment(number: u64, routine: u32, step: u32, last: Option<Reply>) -> Ask {
    Ask::Routine(Moment {
        what: What::Hook,
        object: Obj(number),
        routine,
        user: 0,
        now: 0,
        flags: 0,
        step,
        last,
    })
}

fn freed(number: u64) -> Event {
    Event::Freed {
        object: Obj(number),
        hook: 0,
    }
}

fn told_number(number: u64) -> Event {
    Event::Replied(Reply::Number(number))
}

// The event that is told next.
fn next_is(rt: &impl Abort, host: &mut Host, event: &Event) {
    assert!(rt; host.next().as_ref() == Some(event));
}

// Nothing more is told, and this question is open.
fn waits(rt: &impl Abort, host: &mut Host, question: &Ask) {
    assert!(rt; host.next().is_none());
    assert!(rt; host.question() == Some(question));
}

// The answer is taken.
fn takes(rt: &impl Abort, host: &mut Host, answer: Input)
    requires { IsTrue (is_sound answer) }
{
    assert!(rt; host.next().is_none());
    assert_eq!(rt; host.offer(answer), Ok(()));
}

// The answer is taken, these events are told, and then this question is open.
fn leads(rt: &impl Abort, host: &mut Host, answer: Input, events: &[Event], question: &Ask)
    requires { IsTrue (is_sound answer) }
{
    takes(rt, host, answer);
    for event in events {
        assert!(rt; host.question().is_none());
        next_is(rt, host, event);
    }
    waits(rt, host, question);
}

// The call is taken, these events are told, and then the host waits again.
fn tells(rt: &impl Abort, host: &mut Host, call: Input, events: &[Event])
    requires { IsTrue (is_sound call) }
{
    waits(rt, host, &Ask::Quiet);
    leads(rt, host, call, events, &Ask::Quiet);
}

// A new object under an owner gets this number.
fn adds(rt: &impl Abort, alloc: Global, host: &mut Host, parent: u64, size: u64, number: u64) {
    tells(
        rt,
        host,
        new(rt, alloc, parent, size),
        &[told_number(number)],
    );
}

// The objects 1 to 2,000, each under the one before it; each is one byte larger than that one, and 1 has none.
fn add_stolen_chain(rt: &impl Abort, alloc: Global, host: &mut Host) {
    for before in 0..2_000u64 {
        adds(rt, alloc, host, 0, before, before.saturating_add(1));
    }
    // From the end, so that each new owner still stands below the root.
    for before in 0..1_999u64 {
        let parent = 1_999u64.saturating_sub(before);
        let call = steal(parent, parent.saturating_add(1));
        tells(rt, host, call, &[Event::Replied(Reply::Ok)]);
    }
    assert!(rt; host.is_inside(Obj(2_000), Obj(1)), "the chain is whole");
}

#[test]
fn a_fault_has_its_message(rt: HostRuntime) {
    let text: InlineText<64> = InlineText::of(OfferFault::NotAsked);
    assert_eq!(rt; text.as_str(), "no question is open that takes this answer");
}
