ghost use Rattle.std.specs.Prelude.{◌<◌, IsTrue};
ghost use Rattle.tree_specs.specs.Words.Ranges.{is_sound_call};

use super::*;
use std::alloc::Global;
use std::process::Abort;
use std::test::Fail;
use tree_specs::{Name, Obj, Owner, Refusal, Reply};

// The destructor of an object that is done with.
const DONE: u32 = 2;

fn open() -> Call
    ensures { IsTrue (is_sound_call result) }
{
    Call::New {
        owner: Owner::Root,
        size: 64,
        name: Name::fixed(b"file"),
    }
}

fn hook(routine: u32) -> Call
    requires { 0 < routine }
    ensures { IsTrue (is_sound_call result) }
{
    Call::Hook { x: Obj(1), routine }
}

fn free() -> Call
    ensures { IsTrue (is_sound_call result) }
{
    Call::Free { x: Obj(1) }
}

// These events were told, and no others.
fn were_told(rt: &impl Abort, told: &[Event], events: &[Event]) {
    assert_eq!(rt; told.len(), events.len());
    for (place, event) in events.iter().enumerate() {
        assert!(rt; told.get(place) == Some(event), "at {place}");
    }
}

// The call is done, and these events are told.
fn tells(rt: &impl Abort, alloc: Global, host: &mut Host, call: Call, events: &[Event])
    requires { IsTrue (is_sound_call call) }
{
    let mut told = Vec::new(alloc);
    assert_eq!(rt; perform(host, call, 8, &mut told), Ok(()));
    were_told(rt, &told, events);
}

// Object 1 is made, and gets this destructor.
fn opens(rt: &impl Abort, alloc: Global, host: &mut Host, routine: u32)
    requires { 0 < routine }
{
    let numbered = [Event::Replied(Reply::Number(1))];
    tells(rt, alloc, host, open(), &numbered);
    tells(rt, alloc, host, hook(routine), &[Event::Replied(Reply::Ok)]);
}

#[test]
fn an_object_in_use_stays(rt: HostRuntime) -> Result<(), Fail> {
    let mut host = Host::new(rt.alloc(), 1)?;
    opens(&rt, rt.alloc(), &mut host, IN_USE);
    let refused = [
        Event::Refused {
            object: Obj(1),
            answer: 1,
        },
        Event::Replied(Reply::No(Refusal::Refused {
            object: Obj(1),
            answer: 1,
        })),
    ];
    tells(&rt, rt.alloc(), &mut host, free(), &refused);
    assert!(rt; host.is_live(Obj(1)), "it stays");
    tells(
        &rt,
        rt.alloc(),
        &mut host,
        hook(DONE),
        &[Event::Replied(Reply::Ok)],
    );
    let freed = [
        Event::Accepted(Obj(1)),
        Event::Freed {
            object: Obj(1),
            hook: DONE,
        },
        Event::Replied(Reply::Ok),
    ];
    tells(&rt, rt.alloc(), &mut host, free(), &freed);
    assert_eq!(rt; host.live(), 0);
    drop(host);
    Ok(())
}

// The destructor does a call of its own before it returns.
#[test]
fn what_is_asked_may_wait(rt: HostRuntime) -> Result<(), Fail> {
    let mut host = Host::new(rt.alloc(), 1)?;
    let mut told = Vec::new(rt.alloc());
    opens(&rt, rt.alloc(), &mut host, DONE);
    assert_eq!(rt; perform(&mut host, free(), 0, &mut told), Ok(()));
    assert!(rt; told.is_empty(), "the destructor is asked first");
    assert_eq!(rt;
        perform(&mut host, free(), 0, &mut told),
        Err(OfferFault::NotAsked)
    );
    let act = Input::Act(Act::Do(open()));
    assert_eq!(rt; take(&mut host, act, &mut told), Ok(()));
    were_told(&rt, &told, &[Event::Replied(Reply::Number(2))]);
    assert_eq!(rt; take(&mut host, Input::Act(Act::Ret(0)), &mut told), Ok(()));
    assert_eq!(rt; told.len(), 4);
    assert_eq!(rt; host.live(), 1);
    drop(host);
    Ok(())
}
