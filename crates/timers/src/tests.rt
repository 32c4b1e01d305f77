ghost use Rattle.std.specs.Prelude.{◌≡◌, ◌<◌, IfOk, true};
ghost use Rattle.tree_specs.specs.Events.Contexts.{has_context};
ghost use Rattle.timers.specs.Timetable.{AreByObject};

use crate::Times;
use std::test::Fail;
use tree_specs::{Due, Memory, Obj};

/// The context that always is there.
const FIRST: Obj = Obj(0);

// The state of the draws is below this.
const STATE_LIMIT: u64 = 2_147_483_648;

// The time of an object is to come in a context, with the object's number.
fn arm_by_object(times: &mut Times, x: u64, time: u64, c: Obj) -> Result<(), Memory>
    requires numbers { AreByObject times.old.dues }
    requires known { has_context times.old.contexts c ≡ true }
    ensures numbers { AreByObject times.new.dues }
    ensures contexts { times.new.contexts ≡ times.old.contexts }
{
    times.reserve()?;
    times.arm(Obj(x), time, x, c);
    Ok(())
}

// The object whose time comes first in a context, which is taken out; 0 where there is none.
fn next(times: &mut Times, c: Obj) -> u64
    requires { AreByObject times.old.dues }
    ensures numbers { AreByObject times.new.dues }
    ensures contexts { times.new.contexts ≡ times.old.contexts }
{
    match times.pop(c) {
        None => 0,
        Some(due) => due.object.0,
    }
}

#[test]
fn the_earliest_comes_first(rt: HostRuntime) -> Result<(), Fail> {
    let mut times = Times::new(rt.alloc());
    assert!(rt; times.is_empty(FIRST));
    arm_by_object(&mut times, 5, 30, FIRST)?;
    arm_by_object(&mut times, 9, 10, FIRST)?;
    arm_by_object(&mut times, 2, 30, FIRST)?;
    arm_by_object(&mut times, 7, 20, FIRST)?;
    assert_eq!(rt; times.len(FIRST), 4);
    assert_eq!(rt; next(&mut times, FIRST), 9);
    assert_eq!(rt; next(&mut times, FIRST), 7);
    assert_eq!(rt; next(&mut times, FIRST), 2);
    assert_eq!(rt; next(&mut times, FIRST), 5);
    assert_eq!(rt; next(&mut times, FIRST), 0);
    Ok(())
}

#[test]
fn an_object_has_the_time_that_it_got_last(rt: HostRuntime) -> Result<(), Fail> {
    let mut times = Times::new(rt.alloc());
    arm_by_object(&mut times, 1, 10, FIRST)?;
    arm_by_object(&mut times, 2, 20, FIRST)?;
    arm_by_object(&mut times, 3, 30, FIRST)?;
    arm_by_object(&mut times, 1, 40, FIRST)?;
    arm_by_object(&mut times, 3, 5, FIRST)?;
    assert!(rt; times.disarm(Obj(2)));
    assert!(rt; !times.disarm(Obj(2)));
    assert_eq!(rt;
        times.first(FIRST),
        Some(Due {
            time: 5,
            number: 3,
            object: Obj(3),
            context: FIRST
        })
    );
    assert_eq!(rt; times.len(FIRST), 2);
    Ok(())
}

#[test]
fn each_context_has_its_own_times(rt: HostRuntime) -> Result<(), Fail> {
    let mut times = Times::new(rt.alloc());
    times.reserve()?;
    times.reserve_context()?;
    times.add_context(Obj(50));
    times.reserve()?;
    times.reserve_context()?;
    times.add_context(Obj(60));
    arm_by_object(&mut times, 1, 30, FIRST)?;
    arm_by_object(&mut times, 2, 20, Obj(50))?;
    arm_by_object(&mut times, 3, 10, Obj(60))?;
    arm_by_object(&mut times, 4, 15, Obj(50))?;
    assert_eq!(rt; times.len(Obj(50)), 2);
    assert_eq!(rt; times.total(), 4);
    assert_eq!(rt; next(&mut times, Obj(50)), 4);
    assert_eq!(rt; next(&mut times, Obj(50)), 2);
    assert_eq!(rt; next(&mut times, Obj(50)), 0);
    assert_eq!(rt; next(&mut times, FIRST), 1);
    assert_eq!(rt; next(&mut times, Obj(60)), 3);
    Ok(())
}

#[test]
fn an_object_has_a_time_in_one_context(rt: HostRuntime) -> Result<(), Fail> {
    let mut times = Times::new(rt.alloc());
    times.reserve()?;
    times.reserve_context()?;
    times.add_context(Obj(50));
    arm_by_object(&mut times, 1, 10, FIRST)?;
    arm_by_object(&mut times, 2, 20, FIRST)?;
    arm_by_object(&mut times, 1, 30, Obj(50))?;
    assert_eq!(rt; times.total(), 2);
    assert_eq!(rt; next(&mut times, FIRST), 2);
    assert_eq!(rt; next(&mut times, FIRST), 0);
    assert_eq!(rt; next(&mut times, Obj(50)), 1);
    Ok(())
}

#[test]
fn a_dropped_context_takes_its_times_with_it(rt: HostRuntime) -> Result<(), Fail> {
    let mut times = Times::new(rt.alloc());
    times.reserve()?;
    times.reserve_context()?;
    times.add_context(Obj(50));
    arm_by_object(&mut times, 1, 10, Obj(50))?;
    arm_by_object(&mut times, 2, 20, FIRST)?;
    arm_by_object(&mut times, 3, 30, Obj(50))?;
    times.drop_context(Obj(50));
    assert_eq!(rt; times.total(), 1);
    assert!(rt; times.first(Obj(50)).is_none());
    assert!(rt; !times.disarm(Obj(3)));
    times.drop_context(FIRST);
    assert_eq!(rt; times.total(), 0);
    Ok(())
}

#[test]
fn a_context_that_is_added_again_keeps_its_times(rt: HostRuntime) -> Result<(), Fail> {
    let mut times = Times::new(rt.alloc());
    times.reserve()?;
    times.reserve_context()?;
    times.add_context(Obj(50));
    arm_by_object(&mut times, 1, 10, Obj(50))?;
    times.reserve()?;
    times.reserve_context()?;
    times.add_context(Obj(50));
    times.reserve()?;
    times.reserve_context()?;
    times.add_context(FIRST);
    assert_eq!(rt; times.len(Obj(50)), 1);
    Ok(())
}

// Arms the objects from 1 to `count` at drawn times, and gives the state of the draws.
fn arm_at_draws(times: &mut Times, count: u64, state: u64) -> Result<u64, Memory>
    requires state { state < STATE_LIMIT }
    requires numbers { AreByObject times.old.dues }
    ensures state { IfOk result (λ drawn. drawn < STATE_LIMIT) }
    ensures numbers { AreByObject times.new.dues }
{
    let mut drawn = state;
    for before in 0..count {
        drawn = (drawn * 1_103_515_245 + 12_345) % STATE_LIMIT;
        arm_by_object(times, before + 1, drawn / 65_536, FIRST)?;
    }
    Ok(drawn)
}

#[test]
fn many_that_are_armed_twice_come_in_their_order(rt: HostRuntime) -> Result<(), Fail> {
    let mut times = Times::new(rt.alloc());
    let state = arm_at_draws(&mut times, 200_000, 1)?;
    arm_at_draws(&mut times, 200_000, state)?;
    assert_eq!(rt; times.len(FIRST), 200_000);
    let mut last = (0, 0);
    for _ in 0..200_000u32 {
        let first = times.first(FIRST);
        assert!(rt; first.is_some());
        if let Some(Due { time, object, .. }) = first {
            assert!(rt; last.0 < time || (last.0 == time && last.1 < object.0));
            assert!(rt; times.disarm(object));
            last = (time, object.0);
        }
    }
    assert!(rt; times.is_empty(FIRST));
    Ok(())
}
