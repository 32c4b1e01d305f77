//! Runs that are long or deep: what no clause says is that they find the memory that they need.
ghost use Rattle.std.specs.Prelude.{IsTrue};
ghost use Rattle.tree_specs.specs.Words.Ranges.{is_sound};

use super::{
    add_stolen_chain, adds, freed, leads, moment, new, next_is, takes, tells, told_number, waits,
};
use crate::inputs::{act, count, free, hook, report, ret, total};
use host_core::Host;
use std::alloc::Global;
use std::process::Abort;
use std::test::Fail;
use tree_specs::{Ask, Call, Event, Input, Obj, Owner, Refusal, Reply};

#[test]
fn a_long_chain_is_freed_by_one_call(rt: HostRuntime) -> Result<(), Fail> {
    let mut host = Host::new(rt.alloc(), 1)?;
    for parent in 0..2_000u64 {
        adds(
            &rt,
            rt.alloc(),
            &mut host,
            parent,
            0,
            parent.saturating_add(1),
        );
    }
    frees_all(&rt, &mut host, 2_000);
    drop(host);
    Ok(())
}

// With object 1 all objects up to this one go, the newest first.
fn frees_all(rt: &impl Abort, host: &mut Host, last: u64) {
    takes(rt, host, free(1));
    for before in 0..last {
        next_is(rt, host, &freed(last.saturating_sub(before)));
    }
    next_is(rt, host, &Event::Replied(Reply::Ok));
    waits(rt, host, &Ask::Quiet);
    assert_eq!(rt; host.live(), 0);
}

// How many rows a reply has.
fn rows_of(event: &Option<Event>) -> usize {
    match event {
        Some(Event::Replied(Reply::Rows(rows))) => rows.as_slice().len(),
        _ => 0,
    }
}

// The sizes are 0 to 1,999, and those inside 1,001 are 1,000 to 1,999.
#[test]
fn a_long_chain_that_was_stolen_is_summed_reported_and_freed(rt: HostRuntime) -> Result<(), Fail> {
    let mut host = Host::new(rt.alloc(), 1)?;
    add_stolen_chain(&rt, rt.alloc(), &mut host);
    tells(&rt, &mut host, total(0), &[told_number(1_999_000)]);
    tells(&rt, &mut host, total(1_001), &[told_number(1_499_500)]);
    tells(&rt, &mut host, count(1_001), &[told_number(1_000)]);
    takes(&rt, &mut host, report(0));
    assert_eq!(rt; rows_of(&host.next()), 2_001);
    waits(&rt, &mut host, &Ask::Quiet);
    frees_all(&rt, &mut host, 2_000);
    drop(host);
    Ok(())
}

// 2 gets a reference to 1.
fn reference() -> Input
    ensures { IsTrue (is_sound result) }
{
    Input::Call(Call::Reference {
        owner: Owner::Of(Obj(2)),
        x: Obj(1),
    })
}

// The root gives 1 up.
fn unlink() -> Input
    ensures { IsTrue (is_sound result) }
{
    Input::Call(Call::Unlink {
        owner: Owner::Root,
        x: Obj(1),
    })
}

// Each of them comes from inside the object, so that the next one is looked at.
#[test]
fn a_thousand_references_are_dropped_by_one_call(rt: HostRuntime) -> Result<(), Fail> {
    let mut host = Host::new(rt.alloc(), 1)?;
    adds(&rt, rt.alloc(), &mut host, 0, 0, 1);
    adds(&rt, rt.alloc(), &mut host, 1, 0, 2);
    for before in 0..1_000u64 {
        let told = told_number(before.saturating_add(3));
        tells(&rt, &mut host, reference(), &[told]);
    }
    takes(&rt, &mut host, unlink());
    for before in 0..1_000u64 {
        let dropped = Event::Unreferenced {
            reference: Obj(1_002u64.saturating_sub(before)),
            target: Obj(1),
        };
        next_is(&rt, &mut host, &dropped);
    }
    next_is(&rt, &mut host, &freed(2));
    next_is(&rt, &mut host, &freed(1));
    next_is(&rt, &mut host, &Event::Replied(Reply::Ok));
    waits(&rt, &mut host, &Ask::Quiet);
    assert_eq!(rt; host.live(), 0);
    drop(host);
    Ok(())
}

// The destructor of an object accepted, and its free is over.
fn gone(number: u64) -> [Event; 3] {
    [
        Event::Accepted(Obj(number)),
        Event::Freed {
            object: Obj(number),
            hook: 16,
        },
        Event::Replied(Reply::Ok),
    ]
}

// The objects 1 to 200 below the root, each with the destructor 16.
fn add_hooked_row(rt: &impl Abort, alloc: Global, host: &mut Host) {
    for number in 1..=200u64 {
        adds(rt, alloc, host, 0, 1, number);
        let done = [Event::Replied(Reply::Ok)];
        tells(rt, host, hook(number, 16), &done);
    }
}

// The destructor of 200 returns, then that of 199, and so on down to 2; each frees the one after it.
fn return_to_the_first(rt: &impl Abort, host: &mut Host) {
    for before in 0..199u64 {
        let number = 200u64.saturating_sub(before);
        let later = moment(number.saturating_sub(1), 16, 1, Some(Reply::Ok));
        leads(rt, host, ret(0), &gone(number), &later);
    }
}

#[test]
fn destructors_free_two_hundred_deep(rt: HostRuntime) -> Result<(), Fail> {
    let mut host = Host::new(rt.alloc(), 1)?;
    add_hooked_row(&rt, rt.alloc(), &mut host);
    leads(&rt, &mut host, free(1), &[], &moment(1, 16, 0, None));
    for number in 2..=200u64 {
        let asked = moment(number, 16, 0, None);
        leads(&rt, &mut host, act(free(number)), &[], &asked);
    }
    assert_eq!(rt; host.live(), 200);
    return_to_the_first(&rt, &mut host);
    leads(&rt, &mut host, ret(0), &gone(1), &Ask::Quiet);
    assert_eq!(rt; host.live(), 0);
    drop(host);
    Ok(())
}

// 18446744073709551615 is the number of no object.
#[test]
fn the_numbers_come_to_an_end(rt: HostRuntime) -> Result<(), Fail> {
    let last = 18_446_744_073_709_551_614;
    let mut host = Host::new(rt.alloc(), last)?;
    adds(&rt, rt.alloc(), &mut host, 0, 0, last);
    let refused = Event::Replied(Reply::No(Refusal::Spent));
    tells(&rt, &mut host, new(&rt, rt.alloc(), 0, 0), &[refused]);
    assert_eq!(rt; host.live(), 1);
    drop(host);
    Ok(())
}
