ghost use Rattle.std.specs.Prelude.{◌≡◌, ◌+◌, ◌≤◌, ◌<◌, IfOk, true};
ghost use Rattle.tree_specs.specs.Events.Contexts.{has_context};

use crate::{ReadyEvent, Ring};
use std::alloc::Global;
use std::test::Fail;
use tree_specs::{Obj, Want, Wants, Watch};

/// The context that always is there.
const FIRST: Obj = Obj(0);

// No events, with room for so many.
fn with_room(alloc: Global, room: usize) -> Result<Ring, Fail>
    ensures { IfOk result (λ ring. room ≤ ring.spare) }
{
    let mut ring = Ring::new(alloc);
    ring.reserve(room)?;
    Ok(ring)
}

// An event watches a descriptor, in room that is there. Answers whether both were free; if not, nothing changes.
fn add(ring: &mut Ring, x: u64, fd: u32, flags: u32) -> bool
    requires { 0 < ring.old.spare }
    ensures { ring.old.spare ≤ ring.new.spare + 1 }
{
    let free = ring.watch(Obj(x)).is_none() && ring.holder(fd).is_none();
    if free {
        ring.add(Obj(x), fd, flags, FIRST);
    }
    free
}

// An event is watched for something else. Answers whether it watches; if not, nothing changes.
fn set_flags(ring: &mut Ring, x: u64, flags: u32) -> bool
    ensures { ring.old.spare ≤ ring.new.spare }
{
    let watching = ring.flags(Obj(x)).is_some();
    ring.set_flags(Obj(x), flags);
    watching
}

// The descriptor of an event is closed with it. Answers whether it watches; if not, nothing changes.
fn set_closing(ring: &mut Ring, x: u64) -> bool
    ensures { ring.old.spare ≤ ring.new.spare }
{
    let watching = ring.flags(Obj(x)).is_some();
    ring.set_closing(Obj(x));
    watching
}

// Whether it is told so of an event.
fn is_watch(told: Option<Watch>, x: u64, fd: u32, flags: u32, closes: bool) -> bool {
    match told {
        None => false,
        Some(w) => (w.object.0 == x) & (w.fd == fd) & (w.flags == flags) & (w.closes == closes),
    }
}

// The number of an event, 0 where there is none.
fn number(x: Option<Obj>) -> u64 {
    match x {
        None => 0,
        Some(x) => x.0,
    }
}

// What an event is watched for, 4 where it watches nothing.
fn flags(ring: &Ring, x: u64) -> u32 {
    match ring.flags(Obj(x)) {
        None => 4,
        Some(flags) => flags,
    }
}

// A descriptor, and what it is ready for.
fn want(fd: u32, flags: u32) -> Want {
    Want { fd, flags }
}

// Two descriptors, the lesser first, and what they are ready for.
fn two(alloc: Global, first: Want, second: Want) -> Result<Vec<Want>, Fail> {
    Ok(vec![in alloc; first, second]?)
}

// The first event that comes where these are ready, 10 times its number, and what for; 0 where none comes.
fn first_ready(ring: &Ring, ready: &Wants) -> u64 {
    match ring.first_ready(FIRST, ready) {
        None => 0,
        Some(ReadyEvent { object, flags }) => object
            .0
            .wrapping_mul(10)
            .wrapping_add(u64::from(flags)),
    }
}

// The same where two descriptors are ready, and 0 too where the second isn't the greater.
fn first_of_two(alloc: Global, ring: &Ring, first: Want, second: Want) -> Result<u64, Fail> {
    Ok(match Wants::make(two(alloc, first, second)?) {
        None => 0,
        Some(wants) => first_ready(ring, &wants),
    })
}

// Three events: 7 watches 40 for reading, 3 watches 9 for nothing, and 5 watches 2 for both. Answers whether all do.
fn three(ring: &mut Ring) -> bool
    requires { 3 ≤ ring.old.spare }
{
    let first = add(ring, 7, 40, 1);
    let second = add(ring, 3, 9, 0);
    let third = add(ring, 5, 2, 3);
    first & second & third
}

// What is told of the three events.
fn is_told(ring: &Ring) -> bool {
    let first = is_watch(ring.first(FIRST), 7, 40, 1, false);
    let second = is_watch(ring.watch(Obj(3)), 3, 9, 0, false);
    let flags = (flags(ring, 5) == 3) & (flags(ring, 6) == 4);
    let holders = (number(ring.holder(2)) == 5) & (number(ring.holder(3)) == 0);
    first & second & flags & holders & (ring.len(FIRST) == 3)
}

#[test]
fn each_event_watches_as_it_was_told(rt: HostRuntime) -> Result<(), Fail> {
    let mut ring = with_room(rt.alloc(), 3)?;
    assert!(rt; ring.is_empty(FIRST));
    assert!(rt; three(&mut ring));
    assert!(rt; is_told(&ring));
    Ok(())
}

// What is told once two of the three are changed, and one goes to the end.
fn is_changed(ring: &mut Ring) -> bool {
    let flagged = set_flags(ring, 3, 2);
    let closing = set_closing(ring, 7);
    let absent = set_flags(ring, 4, 1);
    ring.turn_back(Obj(7));
    let first = is_watch(ring.first(FIRST), 3, 9, 2, false);
    flagged & closing & !absent & first & (flags(ring, 5) == 3)
}

// What is told of one of the three that goes.
fn is_removed(ring: &mut Ring) -> bool {
    let removed = is_watch(ring.remove(Obj(7)), 7, 40, 1, true);
    let again = ring.remove(Obj(7)).is_some();
    removed & !again & (number(ring.holder(40)) == 0) & (ring.len(FIRST) == 2)
}

#[test]
fn what_is_changed_of_one_leaves_the_others(rt: HostRuntime) -> Result<(), Fail> {
    let mut ring = with_room(rt.alloc(), 3)?;
    assert!(rt; three(&mut ring));
    assert!(rt; is_changed(&mut ring));
    assert!(rt; is_removed(&mut ring));
    Ok(())
}

#[test]
fn the_first_that_is_ready_comes(rt: HostRuntime) -> Result<(), Fail> {
    let mut ring = with_room(rt.alloc(), 3)?;
    three(&mut ring);
    let read = first_of_two(rt.alloc(), &ring, want(2, 2), want(40, 3))?;
    let written = first_of_two(rt.alloc(), &ring, want(2, 2), want(40, 2))?;
    let others = first_of_two(rt.alloc(), &ring, want(9, 3), want(41, 1))?;
    ring.turn_back(Obj(7));
    let again = first_of_two(rt.alloc(), &ring, want(2, 3), want(40, 3))?;
    assert!(rt; (read == 71) & (written == 52) & (others == 0) & (again == 53));
    Ok(())
}

// The descriptors that are wanted, in their order, each after 100 times those before it.
fn wanted(ring: &Ring, out: &mut Vec<Want>) -> Result<u64, Fail> {
    ring.wants(FIRST, out)?;
    let mut sum: u64 = 0;
    for want in &*out {
        sum = sum.wrapping_mul(100).wrapping_add(u64::from(want.fd));
    }
    Ok(sum)
}

#[test]
fn wants_stand_in_the_order_of_the_rotation(rt: HostRuntime) -> Result<(), Fail> {
    let mut ring = with_room(rt.alloc(), 3)?;
    three(&mut ring);
    let mut out = Vec::new(rt.alloc());
    let before = wanted(&ring, &mut out)?;
    ring.turn_back(Obj(7));
    let after = wanted(&ring, &mut out)?;
    assert!(rt; (before == 4_002) & (after == 240));
    Ok(())
}

#[test]
fn running_out_of_memory_leaves_them_as_they_were(rt: HostRuntime) -> Result<(), Fail> {
    let mut ring = with_room(rt.alloc(), 3)?;
    three(&mut ring);
    assert!(rt; ring.reserve(usize::MAX).is_err());
    assert!(rt; is_told(&ring));
    Ok(())
}

// The events from 1 to `count` watch the descriptors from 0 up, in room that is there. Answers whether all were free.
fn add_all(ring: &mut Ring, count: u32) -> bool
    requires { count ≤ ring.old.spare }
{
    let mut free = true;
    for fd in 0..count {
        free &= add(ring, u64::from(fd) + 1, fd, 1);
    }
    free
}

// Who comes first where the descriptors of the 16th and the 19th of twenty events are ready.
fn first_of_far(alloc: Global, ring: &Ring) -> Result<u64, Fail> {
    first_of_two(alloc, ring, want(15, 1), want(18, 1))
}

#[test]
fn the_first_that_is_ready_comes_from_behind_many_that_are_not(
    rt: HostRuntime,
) -> Result<(), Fail> {
    let mut ring = with_room(rt.alloc(), 20)?;
    assert!(rt; add_all(&mut ring, 20));
    let near = first_of_two(rt.alloc(), &ring, want(2, 1), want(18, 1))?;
    let far = first_of_far(rt.alloc(), &ring)?;
    let written = first_of_two(rt.alloc(), &ring, want(15, 2), want(18, 1))?;
    let others = first_of_two(rt.alloc(), &ring, want(18, 2), want(20, 1))?;
    ring.turn_back(Obj(16));
    let turned = first_of_far(rt.alloc(), &ring)?;
    assert!(rt; (near == 31) & (far == 161) & (written == 191) & (others == 0) & (turned == 191));
    Ok(())
}

#[test]
fn one_that_joins_again_stands_behind_all_others(rt: HostRuntime) -> Result<(), Fail> {
    let mut ring = with_room(rt.alloc(), 20)?;
    add_all(&mut ring, 20);
    let _watch = ring.remove(Obj(16));
    let without = first_of_far(rt.alloc(), &ring)?;
    ring.reserve(1)?;
    let added = add(&mut ring, 16, 15, 1);
    let again = first_of_far(rt.alloc(), &ring)?;
    ring.turn_back(Obj(19));
    let turned = first_of_far(rt.alloc(), &ring)?;
    assert!(rt; (without == 191) & added & (again == 191) & (turned == 161));
    Ok(())
}

// The event x leaves, which watches the descriptor below it. Answers whether that is told.
fn remove(ring: &mut Ring, x: u32) -> bool
    requires { 0 < x }
{
    is_watch(
        ring.remove(Obj(u64::from(x))),
        u64::from(x),
        x - 1,
        1,
        false,
    )
}

// The events from `half` down to 1 leave, and then those from `half` + 1 up to twice `half`. Answers whether each watched as
// it was told.
fn remove_each(ring: &mut Ring, half: u32) -> bool
    requires { half ≤ 1000000 }
{
    let mut as_told = true;
    for step in 0..half {
        as_told &= remove(ring, half - step);
    }
    for step in 0..half {
        as_told &= remove(ring, half + 1 + step);
    }
    as_told
}

#[test]
fn many_leave_downward_and_then_upward(rt: HostRuntime) -> Result<(), Fail> {
    let mut ring = with_room(rt.alloc(), 1_000_000)?;
    assert!(rt; add_all(&mut ring, 1_000_000));
    let last = first_of_two(rt.alloc(), &ring, want(999_999, 1), want(1_000_000, 1))?;
    let removed = remove_each(&mut ring, 500_000);
    assert!(rt; (last == 10_000_001) & removed & ring.is_empty(FIRST));
    Ok(())
}

// Each event joins in this context. Answers whether it was free; if not, nothing changes.
fn add_in(ring: &mut Ring, x: u64, fd: u32, c: Obj) -> bool
    requires room { 0 < ring.old.spare }
    requires known { has_context ring.old.contexts c ≡ true }
    ensures spare { ring.old.spare ≤ ring.new.spare + 1 }
    ensures contexts { ring.new.contexts ≡ ring.old.contexts }
{
    let free = ring.watch(Obj(x)).is_none() && ring.holder(fd).is_none();
    if free {
        ring.add(Obj(x), fd, 1, c);
    }
    free
}

// The first event of a context that comes where the descriptors 1 to 4 are ready for reading, 0 where none comes.
fn first_of_four(alloc: Global, ring: &Ring, c: Obj) -> Result<u64, Fail> {
    let wants = vec![in alloc; want(1, 1), want(2, 1), want(3, 1), want(4, 1)]?;
    let Some(ready) = Wants::make(wants) else {
        return Ok(0);
    };
    Ok(number(ring.first_ready(c, &ready).map(|event| event.object)))
}

#[test]
fn each_context_has_its_rotation(rt: HostRuntime) -> Result<(), Fail> {
    let mut ring = with_room(rt.alloc(), 4)?;
    ring.reserve_context()?;
    ring.add_context(Obj(9));
    let first = add_in(&mut ring, 11, 1, FIRST);
    let second = add_in(&mut ring, 12, 2, Obj(9));
    let third = add_in(&mut ring, 13, 3, FIRST);
    let fourth = add_in(&mut ring, 14, 4, Obj(9));
    assert!(rt; first & second & third & fourth);
    let here = first_of_four(rt.alloc(), &ring, FIRST)?;
    let there = first_of_four(rt.alloc(), &ring, Obj(9))?;
    ring.turn_back(Obj(12));
    let turned = first_of_four(rt.alloc(), &ring, Obj(9))?;
    assert!(rt; (here == 11) & (there == 12) & (turned == 14));
    assert!(rt; (ring.len(FIRST) == 2) & (ring.len(Obj(9)) == 2) & (ring.total() == 4));
    Ok(())
}

#[test]
fn the_events_of_a_dropped_context_are_lost(rt: HostRuntime) -> Result<(), Fail> {
    let mut ring = with_room(rt.alloc(), 4)?;
    ring.reserve_context()?;
    ring.add_context(Obj(9));
    add_in(&mut ring, 12, 2, Obj(9));
    add_in(&mut ring, 11, 1, FIRST);
    add_in(&mut ring, 14, 4, Obj(9));
    ring.drop_context(Obj(9));
    let here = first_of_four(rt.alloc(), &ring, FIRST)?;
    let there = first_of_four(rt.alloc(), &ring, Obj(9))?;
    assert!(rt; (here == 11) & (there == 0));
    assert!(rt; (ring.len(Obj(9)) == 0) & (ring.total() == 3));
    assert_eq!(rt; number(ring.holder(2)), 12);
    let lost = ring.remove(Obj(12)).expect(&rt, "a lost event");
    assert!(rt; lost.context.is_none() & (ring.total() == 2));
    Ok(())
}
