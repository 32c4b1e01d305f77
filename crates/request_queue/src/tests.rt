ghost use Rattle.std.specs.Prelude.{◌≡◌, ◌+◌, ◌≤◌, ◌<◌, ◌^◌, IfOk};
ghost use Rattle.tree_specs.specs.Events.Queues.{no_queues};
ghost use Rattle.request_queue.specs.Register.{IsAbove};
ghost use Rattle.request_queue.specs.Linked.{numbered};

use crate::{Queues, Turn};
use std::alloc::Global;
use std::test::Fail;
use tree_specs::{Coming, Handler, Obj};

// No queues, with room for so many queues and entries.
fn with_room(alloc: Global, room: usize) -> Result<Queues, Fail>
    ensures none { IfOk result (λ made. made.queues ≡ no_queues) }
    ensures room { IfOk result (λ made. room ≤ made.spare) }
{
    let mut queues = Queues::new(alloc);
    queues.reserve(room)?;
    Ok(queues)
}

// A new queue, in room that is there. Nothing changes where it is one already.
fn make(queues: &mut Queues, q: Obj)
    requires { 1 ≤ queues.old.spare }
    ensures entries { queues.new.queues.entries ≡ queues.old.queues.entries }
    ensures spare { queues.old.spare ≤ queues.new.spare + 1 }
{
    if queues.running(q).is_none() {
        queues.add_queue(q);
    }
}

// A queue with no entries is no more. Nothing changes where it has entries.
fn forget(queues: &mut Queues, q: Obj) {
    if queues.head(q).is_none() {
        queues.forget_queue(q);
    }
}

// What an entry of this number waits for.
fn turn(e: u64) -> Turn {
    Turn {
        request: Obj(e.wrapping_mul(10)),
        trigger: Handler {
            routine: 16,
            user: e,
            context: Obj(e % 2),
        },
    }
}

// The queue 1, as it comes for the entry of this number.
fn coming(e: u64) -> Option<Coming> {
    Some(Coming {
        object: Obj(1),
        context: turn(e).trigger.context,
    })
}

// An entry with the next number comes into a queue, in room that is there. Nothing changes where it is none. Answers the
// queue, where it is to come soon.
fn enter(queues: &mut Queues, q: Obj, e: u64) -> Option<Coming>
    requires newest { IsAbove (numbered e) queues.old.queues.entries }
    requires room { 1 ≤ queues.old.spare }
    ensures newest { IsAbove (numbered (e + 1)) queues.new.queues.entries }
    ensures spare { queues.old.spare ≤ queues.new.spare + 1 }
{
    if queues.running(q).is_none() {
        return None;
    }
    let Turn { request, trigger } = turn(e);
    queues.add_entry(q, Obj(e), request, trigger)
}

// The entries `from` to `to - 1` come into the two queues 1 and 2 in turn, in room that is there.
fn enter_all(queues: &mut Queues, from: u64, to: u64)
    requires order { from ≤ to }
    requires newest { IsAbove (numbered from) queues.old.queues.entries }
    requires room { to ≤ queues.old.spare + from }
{
    for e in from..to {
        enter(queues, Obj(1 + e % 2), e);
    }
}

// A queue 1 with the entries 3, 4 and 5.
fn with_three(alloc: Global) -> Result<Queues, Fail> {
    let mut queues = with_room(alloc, 4)?;
    make(&mut queues, Obj(1));
    enter(&mut queues, Obj(1), 3);
    enter(&mut queues, Obj(1), 4);
    enter(&mut queues, Obj(1), 5);
    Ok(queues)
}

#[test]
fn the_first_in_is_the_first_out(rt: HostRuntime) -> Result<(), Fail> {
    let mut queues = with_three(rt.alloc())?;
    assert_eq!(rt; queues.length(Obj(1)), 3);
    assert_eq!(rt; queues.head(Obj(1)), Some(Obj(3)));
    assert_eq!(rt; queues.remove_entry(Obj(3)), coming(4));
    assert_eq!(rt; queues.remove_entry(Obj(3)), None);
    assert_eq!(rt; queues.head(Obj(1)), Some(Obj(4)));
    assert_eq!(rt; queues.remove_entry(Obj(4)), coming(5));
    assert_eq!(rt; queues.head(Obj(1)), Some(Obj(5)));
    assert_eq!(rt; queues.remove_entry(Obj(5)), None);
    assert_eq!(rt; queues.head(Obj(1)), None);
    assert_eq!(rt; queues.len(), 0);
    Ok(())
}

#[test]
fn one_leaves_from_the_middle(rt: HostRuntime) -> Result<(), Fail> {
    let mut queues = with_three(rt.alloc())?;
    assert_eq!(rt; queues.remove_entry(Obj(4)), coming(3));
    assert!(rt; queues.entry(Obj(4)).is_none());
    assert_eq!(rt; queues.length(Obj(1)), 2);
    assert_eq!(rt; queues.head(Obj(1)), Some(Obj(3)));
    queues.remove_entry(Obj(3));
    assert_eq!(rt; queues.head(Obj(1)), Some(Obj(5)));
    queues.remove_entry(Obj(5));
    assert_eq!(rt; queues.length(Obj(1)), 0);
    Ok(())
}

#[test]
fn a_queue_is_stopped_and_started(rt: HostRuntime) -> Result<(), Fail> {
    let mut queues = with_three(rt.alloc())?;
    assert_eq!(rt; queues.running(Obj(1)), Some(true));
    assert_eq!(rt; queues.start(Obj(1)), None);
    queues.stop(Obj(1));
    assert_eq!(rt; queues.running(Obj(1)), Some(false));
    assert_eq!(rt; queues.trigger(Obj(1)), None);
    assert_eq!(rt; queues.remove_entry(Obj(3)), None);
    assert_eq!(rt; queues.start(Obj(1)), coming(4));
    assert_eq!(rt; queues.start(Obj(1)), None);
    assert_eq!(rt; queues.trigger(Obj(1)), Some(turn(4)));
    queues.stop(Obj(1));
    assert_eq!(rt; queues.start(Obj(1)), None);
    assert_eq!(rt; queues.start(Obj(2)), None);
    assert_eq!(rt; queues.running(Obj(2)), None);
    Ok(())
}

#[test]
fn an_entry_is_triggered_once(rt: HostRuntime) -> Result<(), Fail> {
    let mut queues = with_three(rt.alloc())?;
    assert!(rt; queues.waits(Obj(1)));
    assert_eq!(rt; queues.trigger(Obj(1)), Some(turn(3)));
    assert!(rt; !queues.waits(Obj(1)));
    assert_eq!(rt; queues.entry(Obj(3)).map(|e| e.triggered), Some(true));
    assert_eq!(rt; queues.trigger(Obj(1)), None);
    assert_eq!(rt; queues.remove_entry(Obj(5)), None);
    assert_eq!(rt; queues.remove_entry(Obj(3)), coming(4));
    assert_eq!(rt; queues.trigger(Obj(1)), Some(turn(4)));
    assert_eq!(rt; queues.trigger(Obj(1)), None);
    Ok(())
}

#[test]
fn a_queue_is_forgotten(rt: HostRuntime) -> Result<(), Fail> {
    let mut queues = with_room(rt.alloc(), 1)?;
    make(&mut queues, Obj(1));
    assert_eq!(rt; queues.running(Obj(1)), Some(true));
    forget(&mut queues, Obj(1));
    assert_eq!(rt; queues.running(Obj(1)), None);
    Ok(())
}

#[test]
fn running_out_of_memory_leaves_them_as_they_were(rt: HostRuntime) -> Result<(), Fail> {
    let mut queues = with_three(rt.alloc())?;
    assert!(rt; queues.reserve(usize::MAX).is_err());
    assert_eq!(rt; queues.length(Obj(1)), 3);
    assert_eq!(rt; queues.head(Obj(1)), Some(Obj(3)));
    Ok(())
}

// The first of so many entries of a queue has its turn, which is that of `e`, and leaves. Answers whether it was so.
fn take_turn(queues: &mut Queues, q: Obj, e: u64, length: u64) -> bool {
    let is_counted = queues.length(q) == length;
    let is_first = queues.head(q) == Some(Obj(e));
    let is_told = queues.trigger(q) == Some(turn(e));
    queues.remove_entry(Obj(e));
    is_counted && is_first && is_told
}

// The entries `from` to `to - 1` of the queues 1 and 2 have their turns, one after another. Answers whether each came in its
// turn.
fn take_turns(queues: &mut Queues, from: u64, to: u64) -> bool {
    let mut in_turn = true;
    for e in from..to {
        in_turn &= take_turn(queues, Obj(1 + e % 2), e, 1 + (to - 1 - e) / 2);
    }
    in_turn
}

#[test]
fn many_entries_have_their_turns(rt: HostRuntime) -> Result<(), Fail> {
    let mut queues = with_room(rt.alloc(), 300_002)?;
    make(&mut queues, Obj(1));
    make(&mut queues, Obj(2));
    enter_all(&mut queues, 3, 300_003);
    assert_eq!(rt; queues.len(), 300_000);
    assert!(rt; take_turns(&mut queues, 3, 300_003));
    assert_eq!(rt; queues.len(), 0);
    Ok(())
}
