ghost use Rattle.std.specs.Prelude.{◌+◌, ◌≤◌, IfOk};

use crate::{Notify, Requests};
use std::alloc::Global;
use std::test::Fail;
use tree_specs::{Handler, Obj, State};

// No requests, with room for so many.
fn with_room(alloc: Global, room: usize) -> Result<Requests, Fail>
    ensures { IfOk result (λ requests. room ≤ requests.spare) }
{
    let mut requests = Requests::new(alloc);
    requests.reserve(room)?;
    Ok(requests)
}

// A new request, in room that is there, with the next number for its own object. Nothing changes where there is one already.
fn add(requests: &mut Requests, x: Obj)
    requires { 1 ≤ requests.old.spare }
    ensures { requests.old.spare ≤ requests.new.spare + 1 }
{
    if requests.note(x).is_none() {
        requests.create(x, Obj(x.0.wrapping_add(1)));
    }
}

// The request 7, which is new.
fn with_new(alloc: Global) -> Result<Requests, Fail> {
    let mut requests = with_room(alloc, 1)?;
    add(&mut requests, Obj(7));
    Ok(requests)
}

fn handler(routine: u32, user: u64) -> Handler {
    Handler {
        routine,
        user,
        context: Obj::first_context(),
    }
}

#[test]
fn a_request_is_made_in_progress(rt: HostRuntime) -> Result<(), Fail> {
    let mut requests = with_new(rt.alloc())?;
    let note = requests.note(Obj(7));
    assert_eq!(rt; note.map(|n| n.state), Some(State::InProgress));
    assert_eq!(rt; note.map(|n| n.child), Some(Obj(8)));
    requests.forget(Obj(7));
    assert_eq!(rt; requests.note(Obj(7)), None);
    Ok(())
}

#[test]
fn a_cleanup_runs_once_for_a_state(rt: HostRuntime) -> Result<(), Fail> {
    let mut requests = with_new(rt.alloc())?;
    requests.set_cleanup(Obj(7), 17);
    assert_eq!(rt; requests.to_clean(Obj(7)), None);
    requests.set_state(Obj(7), State::Done);
    assert_eq!(rt; requests.to_clean(Obj(7)), Some(handler(17, 2)));
    assert_eq!(rt; requests.to_clean(Obj(7)), None);
    Ok(())
}

#[test]
fn one_that_is_deferred_is_posted_once(rt: HostRuntime) -> Result<(), Fail> {
    let mut requests = with_new(rt.alloc())?;
    assert_eq!(rt; requests.to_notify(Obj(7)), Notify::Nothing);
    requests.set_callback(Obj(7), 16, 5);
    requests.defer(Obj(7), Obj(3));
    assert_eq!(rt; requests.to_notify(Obj(7)), Notify::Post(Obj(3)));
    assert_eq!(rt; requests.to_notify(Obj(7)), Notify::Run(handler(16, 5)));
    Ok(())
}

#[test]
fn running_out_of_memory_leaves_them_as_they_were(rt: HostRuntime) -> Result<(), Fail> {
    let mut requests = with_new(rt.alloc())?;
    let before = requests.note(Obj(7));
    assert!(rt; requests.reserve(usize::MAX).is_err());
    assert_eq!(rt; requests.note(Obj(7)), before);
    Ok(())
}

// Makes the requests from 1 to `count`, in room that is there. Each has a callback with its own number, and every second one
// is deferred.
fn add_all(requests: &mut Requests, count: u64)
    requires { count ≤ requests.old.spare }
{
    for before in 0..count {
        let x = Obj(before + 1);
        add(requests, x);
        requests.set_cleanup(x, 17);
        requests.set_callback(x, 16, x.0);
        if x.0.is_multiple_of(2) {
            requests.defer(x, Obj::first_context());
        }
    }
}

// A request is done. Answers whether its cleanup is told this, and what is done then.
fn finish(requests: &mut Requests, x: Obj) -> (bool, Notify) {
    requests.set_state(x, State::Done);
    let is_told = requests.to_clean(x) == Some(handler(17, 2));
    (is_told, requests.to_notify(x))
}

// The requests from 1 to `count` are done, and those that were posted are notified. Answers whether each is told as it should
// be.
fn finish_all(requests: &mut Requests, count: u64) -> bool {
    let mut as_told = true;
    for before in 0..count {
        let x = Obj(before + 1);
        let run = Notify::Run(handler(16, x.0));
        let told = match finish(requests, x) {
            (true, Notify::Post(Obj(0))) => x.0.is_multiple_of(2) && requests.to_notify(x) == run,
            (true, notify) => notify == run,
            (false, _) => false,
        };
        as_told &= told;
    }
    as_told
}

// The requests from 1 to `count` are no more. Answers whether each was there before, and isn't any more.
fn forget_all(requests: &mut Requests, count: u64) -> bool {
    let mut gone = true;
    for before in 0..count {
        let x = Obj(before + 1);
        let was = requests.note(x).is_some();
        requests.forget(x);
        gone &= was && requests.note(x).is_none();
    }
    gone
}

#[test]
fn many_are_made_and_done_and_forgotten(rt: HostRuntime) -> Result<(), Fail> {
    let mut requests = with_room(rt.alloc(), 100_000)?;
    add_all(&mut requests, 100_000);
    assert!(rt; finish_all(&mut requests, 100_000));
    assert!(rt; forget_all(&mut requests, 100_000));
    Ok(())
}
