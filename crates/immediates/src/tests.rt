ghost use Rattle.std.specs.Prelude.{◌≡◌, ◌+◌, ◌≤◌, ◌<◌, ◌^◌, true};
ghost use Rattle.tree_specs.specs.Events.Contexts.{has_context};

use crate::Soon;
use std::test::Fail;
use tree_specs::Obj;

/// The context that always is there.
const FIRST: Obj = Obj(0);

#[test]
fn the_first_in_is_the_first_out(rt: HostRuntime) -> Result<(), Fail> {
    let mut soon = Soon::new(rt.alloc());
    soon.reserve(5)?;
    soon.push(Obj(7), FIRST);
    soon.push(Obj(3), FIRST);
    soon.push(Obj(9), FIRST);
    soon.push(Obj(7), FIRST);
    assert!(rt; soon.remove(Obj(3)));
    assert!(rt; !soon.remove(Obj(3)));
    assert_eq!(rt; soon.len(FIRST), 2);
    assert_eq!(rt; soon.pop(FIRST), Some(Obj(9)));
    assert_eq!(rt; soon.pop(FIRST), Some(Obj(7)));
    assert_eq!(rt; soon.pop(FIRST), None);
    assert!(rt; soon.is_empty(FIRST));
    Ok(())
}

#[test]
fn each_context_has_its_own_order(rt: HostRuntime) -> Result<(), Fail> {
    let mut soon = Soon::new(rt.alloc());
    soon.reserve(4)?;
    soon.reserve_context()?;
    soon.add_context(Obj(5));
    soon.push(Obj(7), Obj(5));
    soon.push(Obj(3), FIRST);
    soon.push(Obj(9), Obj(5));
    soon.push(Obj(3), Obj(5));
    assert_eq!(rt; soon.len(FIRST), 0);
    assert_eq!(rt; soon.total(), 3);
    assert_eq!(rt; soon.pop(FIRST), None);
    assert_eq!(rt; soon.pop(Obj(5)), Some(Obj(7)));
    assert_eq!(rt; soon.pop(Obj(5)), Some(Obj(9)));
    assert_eq!(rt; soon.pop(Obj(5)), Some(Obj(3)));
    Ok(())
}

#[test]
fn a_dropped_context_takes_its_own_with_it(rt: HostRuntime) -> Result<(), Fail> {
    let mut soon = Soon::new(rt.alloc());
    soon.reserve(3)?;
    soon.reserve_context()?;
    soon.add_context(Obj(5));
    soon.push(Obj(7), Obj(5));
    soon.push(Obj(3), FIRST);
    soon.push(Obj(9), Obj(5));
    soon.drop_context(Obj(5));
    assert_eq!(rt; soon.total(), 1);
    assert_eq!(rt; soon.pop(Obj(5)), None);
    assert_eq!(rt; soon.pop(FIRST), Some(Obj(3)));
    Ok(())
}

#[test]
fn running_out_of_memory_leaves_it_as_it_was(rt: HostRuntime) -> Result<(), Fail> {
    let mut soon = Soon::new(rt.alloc());
    soon.reserve(1)?;
    soon.push(Obj(7), FIRST);
    assert!(rt; soon.reserve(usize::MAX).is_err());
    assert_eq!(rt; soon.pop(FIRST), Some(Obj(7)));
    Ok(())
}

// Pushes the objects from 1 to `count`, in room that is there.
fn push_upwards(soon: &mut Soon, count: u64, c: Obj)
    requires room { count ≤ soon.old.spare }
    requires known { has_context soon.old.contexts c ≡ true }
    ensures spare { soon.old.spare ≤ soon.new.spare + count }
    ensures contexts { soon.new.contexts ≡ soon.old.contexts }
{
    for before in 0..count {
        soon.push(Obj(before + 1), c);
    }
}

#[test]
fn many_come_in_the_order_of_their_last_push(rt: HostRuntime) -> Result<(), Fail> {
    let mut soon = Soon::new(rt.alloc());
    soon.reserve_context()?;
    soon.add_context(Obj(5));
    soon.reserve(200_000)?;
    push_upwards(&mut soon, 100_000, FIRST);
    push_upwards(&mut soon, 100_000, Obj(5));
    assert_eq!(rt; soon.len(FIRST), 0);
    assert_eq!(rt; soon.len(Obj(5)), 100_000);
    for before in 0..100_000u64 {
        assert_eq!(rt; soon.pop(Obj(5)), Some(Obj(before + 1)));
    }
    assert!(rt; soon.is_empty(Obj(5)));
    Ok(())
}
