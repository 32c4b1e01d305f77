use crate::{Loop, Pick};
use std::alloc::Global;
use std::test::Fail;
use tree_specs::{Obj, Want, Wants};

/// The context that always is there.
const FIRST: Obj = Obj(0);

// An object that comes soon, and one with a time.
fn two(rt: &HostRuntime, time: u64) -> Result<Loop, Fail> {
    let mut events = Loop::new(rt.alloc());
    events.soon.reserve(1)?;
    events.times.reserve()?;
    events.soon.push(Obj(1), FIRST);
    events.times.arm(Obj(2), time, 2, FIRST);
    Ok(events)
}

#[test]
fn one_thing_comes_in_a_turn(rt: HostRuntime) -> Result<(), Fail> {
    let mut events = two(&rt, 0)?;
    assert_eq!(rt; events.begin(FIRST), Pick::Soon(Obj(1)));
    assert_eq!(rt; events.begin(FIRST), Pick::Time(Obj(2), 0));
    assert_eq!(rt; events.begin(FIRST), Pick::AskWait(30_000_000));
    Ok(())
}

#[test]
fn a_time_is_waited_for_once(rt: HostRuntime) -> Result<(), Fail> {
    let mut events = two(&rt, 100)?;
    assert_eq!(rt; events.begin(FIRST), Pick::Soon(Obj(1)));
    assert_eq!(rt; events.begin(FIRST), Pick::AskClock);
    assert_eq!(rt; events.clock(FIRST, 60, false), Pick::AskWait(40));
    let none = Wants::make(Vec::new(rt.alloc()));
    assert_eq!(rt;
        none.map(|none| events.ready(FIRST, &none)),
        Some(Pick::AskClock)
    );
    assert_eq!(rt; events.clock(FIRST, 99, true), Pick::Nothing);
    assert_eq!(rt; events.clock(FIRST, 100, true), Pick::Time(Obj(2), 100));
    assert_eq!(rt; events.clock(FIRST, 100, true), Pick::Nothing);
    Ok(())
}

// The event 3 watches the descriptor 7 for reading, and then 4 watches 5 for both; something has a time.
fn watching(alloc: Global) -> Result<Loop, Fail> {
    let mut events = Loop::new(alloc);
    events.times.reserve()?;
    events.ring.reserve(2)?;
    events.times.arm(Obj(2), 100, 2, FIRST);
    events.ring.add(Obj(3), 7, 1, FIRST);
    events.ring.add(Obj(4), 5, 3, FIRST);
    Ok(events)
}

// What is picked in a context where the descriptor 7 is ready for this.
fn picked(alloc: Global, events: &Loop, c: Obj, flags: u32) -> Result<Option<Pick>, Fail> {
    let list = Wants::make(vec![in alloc; Want { fd: 7, flags }]?);
    Ok(list.map(|list| events.ready(c, &list)))
}

#[test]
fn what_is_ready_comes(rt: HostRuntime) -> Result<(), Fail> {
    let events = watching(rt.alloc())?;
    assert_eq!(rt;
        picked(rt.alloc(), &events, FIRST, 3)?,
        Some(Pick::Descriptor(Obj(3), 1))
    );
    assert_eq!(rt; picked(rt.alloc(), &events, FIRST, 2)?, Some(Pick::Nothing));
    Ok(())
}

// One that comes soon and one with a time in the first context, and the same in another one, where the event 3 watches the
// descriptor 7 too.
fn in_two_contexts(rt: &HostRuntime) -> Result<Loop, Fail> {
    let mut events = Loop::new(rt.alloc());
    events.times.reserve()?;
    events.reserve_context()?;
    events.add_context(Obj(9));
    events.soon.reserve(2)?;
    events.soon.push(Obj(1), FIRST);
    events.soon.push(Obj(11), Obj(9));
    events.times.reserve()?;
    events.times.arm(Obj(2), 100, 2, FIRST);
    events.times.reserve()?;
    events.times.arm(Obj(12), 50, 12, Obj(9));
    events.ring.reserve(1)?;
    events.ring.add(Obj(3), 7, 1, Obj(9));
    Ok(events)
}

#[test]
fn a_turn_is_that_of_one_context(rt: HostRuntime) -> Result<(), Fail> {
    let mut events = in_two_contexts(&rt)?;
    assert_eq!(rt; picked(rt.alloc(), &events, FIRST, 1)?, Some(Pick::Nothing));
    assert_eq!(rt;
        picked(rt.alloc(), &events, Obj(9), 1)?,
        Some(Pick::Descriptor(Obj(3), 1))
    );
    assert_eq!(rt; events.begin(Obj(9)), Pick::Soon(Obj(11)));
    assert_eq!(rt; events.begin(Obj(9)), Pick::AskClock);
    assert_eq!(rt; events.clock(FIRST, 60, true), Pick::Nothing);
    assert_eq!(rt; events.clock(Obj(9), 60, true), Pick::Time(Obj(12), 60));
    assert_eq!(rt; events.begin(Obj(9)), Pick::AskWait(30_000_000));
    assert_eq!(rt; events.begin(FIRST), Pick::Soon(Obj(1)));
    Ok(())
}

#[test]
fn nothing_comes_in_a_context_that_is_dropped(rt: HostRuntime) -> Result<(), Fail> {
    let mut events = in_two_contexts(&rt)?;
    events.clear_context(Obj(9));
    assert_eq!(rt; events.begin(Obj(9)), Pick::AskWait(30_000_000));
    assert_eq!(rt;
        picked(rt.alloc(), &events, Obj(9), 1)?,
        Some(Pick::Nothing)
    );
    assert_eq!(rt; events.begin(FIRST), Pick::Soon(Obj(1)));
    assert_eq!(rt; events.clock(FIRST, 100, true), Pick::Time(Obj(2), 100));
    Ok(())
}
