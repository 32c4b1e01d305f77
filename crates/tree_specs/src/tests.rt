use super::*;
use std::alloc::Global;
use std::fmt::{Display, InlineText};
use std::process::Abort;
use std::test::Fail;

fn says<E: Display + Drop>(rt: &impl Abort, error: E, want: &str) {
    let text: InlineText<128> = InlineText::of(error);
    assert_eq!(rt; text.as_str(), want);
}

// Each refusal says this.
fn each_says(rt: &impl Abort, cases: &[(Refusal, &str)]) {
    for (refusal, want) in cases {
        says(rt, *refusal, want);
    }
}

#[test]
fn each_refusal_for_what_an_object_is_has_its_message(rt: HostRuntime) {
    let object = Obj(3);
    let cases = [
        (
            Refusal::WrongKind(object),
            "the call takes no object of the kind of object 3",
        ),
        (
            Refusal::Running(object),
            "a destructor or handler of object 3 runs",
        ),
        (Refusal::Held(object), "there are references to object 3"),
        (
            Refusal::Refused { object, answer: 7 },
            "the destructor of object 3 returned 7",
        ),
        (Refusal::Dying(object), "object 3 is being freed"),
        (
            Refusal::BadState { object, state: 2 },
            "the request object 3 is in state 2",
        ),
    ];
    each_says(&rt, &cases);
}

#[test]
fn each_refusal_for_an_owner_has_its_message(rt: HostRuntime) {
    let object = Obj(3);
    let cases = [
        (
            Refusal::NotParent {
                object,
                owner: Owner::Root,
            },
            "the root owns neither object 3 nor a reference to it",
        ),
        (
            Refusal::Loop {
                object,
                owner: Owner::Of(Obj(4)),
            },
            "object 4 is object 3, or inside it",
        ),
        (
            Refusal::OverLimit {
                row: object,
                sum: 200,
                wanted: 50,
                limit: 240,
            },
            "50 bytes more are wanted inside object 3, which counts 200 of at most 240",
        ),
    ];
    each_says(&rt, &cases);
}

#[test]
fn each_other_refusal_has_its_message(rt: HostRuntime) {
    let cases = [
        (
            Refusal::NoSuch(9),
            "there is no object, and no open descriptor, with the number 9",
        ),
        (
            Refusal::Full(1_048_576),
            "1048576 objects are live, and no more are possible",
        ),
        (Refusal::Spent, "no serial number is left"),
        (Refusal::InUse(5), "descriptor 5 has an event already"),
        (
            Refusal::TooBig(268_435_456),
            "268435456 bytes are too many for one object",
        ),
        (Refusal::Nested, "a turn within a routine"),
    ];
    each_says(&rt, &cases);
}

#[test]
fn each_reason_has_its_message_and_so_has_memory(rt: HostRuntime) {
    says(&rt, Reason::Limit, "the line is over a limit");
    says(&rt, Reason::Form, "the line is not in the grammar");
    says(
        &rt,
        Reason::NotAsked,
        "the open question takes no such input",
    );
    says(&rt, Memory, "out of memory");
}

#[test]
fn states_have_their_numbers(rt: HostRuntime) {
    let states = [
        State::InProgress,
        State::Done,
        State::UserError,
        State::TimedOut,
        State::NoMemory,
        State::Received,
    ];
    let mut want = 1;
    for state in states.iter() {
        assert_eq!(rt; state.number(), want);
        want += 1;
    }
}

fn makes(rt: &impl Abort, alloc: Global, list: &[Want], want: bool) -> Result<(), Fail> {
    let made = Wants::make(Vec::from_slice(alloc, list)?).is_some();
    assert_eq!(rt; made, want);
    Ok(())
}

#[test]
fn descriptors_rise_and_are_ready_for_something(rt: HostRuntime) -> Result<(), Fail> {
    let alloc = rt.alloc();
    let three = Want { fd: 3, flags: 1 };
    let five = Want { fd: 5, flags: 3 };
    makes(&rt, alloc, &[], true)?;
    makes(&rt, alloc, &[three, five], true)?;
    makes(&rt, alloc, &[five, three], false)?;
    makes(&rt, alloc, &[three, three], false)?;
    makes(&rt, alloc, &[Want { fd: 3, flags: 0 }], false)?;
    makes(&rt, alloc, &[Want { fd: 3, flags: 4 }], false)
}
