use super::{reads_none, writes_again, writes_each};
use std::test::Fail;
use text_forms::{is_in_context, read_call, write_call};
use tree_specs::{Call, Obj, Owner, Version};

// Calls on contexts, as they are written.
pub(super) const CALLS: &str = "\
context 0
context 18446744073709551615
pending 0
pending 18446744073709551615
turn 0
turn 7
schedule 9 0 42 7
timer 7 30 16 42 18446744073709551615
";

// Lines that are no call on a context.
pub(super) const NO_CALLS: &str = "\
context
context 07
context 7 0
contexts 7
context x
context 18446744073709551616
pending
pending 00
pending 0 0
turn
turn -1
turn 0 0
turn 18446744073709551616
schedule 9 16 42
schedule 9 16 42 07
timer 7 30 16 42 x
context 7\x20
turn\x20
";

#[test]
fn writes_each_call(rt: HostRuntime) -> Result<(), Fail> {
    let schedule = Call::Schedule {
        x: Obj(9),
        routine: 16,
        user: 42,
        context: Obj(7),
    };
    let timer = Call::Timer {
        owner: Owner::Root,
        time: 30,
        routine: 16,
        user: 42,
        context: Obj::first_context(),
    };
    let make = Call::Context {
        owner: Owner::Of(Obj(7)),
    };
    let cases = [
        (make, b"context 7".as_slice()),
        (schedule, b"schedule 9 16 42 7".as_slice()),
        (timer, b"timer 0 30 16 42 0".as_slice()),
        (Call::Pending { context: Obj(7) }, b"pending 7".as_slice()),
        (Call::Turn { context: Obj(7) }, b"turn 7".as_slice()),
    ];
    writes_each(&rt, rt.alloc(), &cases)
}

// Calls as version 1 has them, in the first context.
const WITHOUT_CONTEXT: &str = "\
pending
turn
schedule 9 16 42
timer 7 30 16 42
fd 7 5 1 16 42
defer 9
post 9
endtime 9 30
enqueue 9 3 16 42
";

#[test]
fn a_context_is_said_from_version_2_on(rt: HostRuntime) -> Result<(), Fail> {
    for line in WITHOUT_CONTEXT.lines() {
        let mut out = Vec::new(rt.alloc());
        write_call(
            &read_call(rt.alloc(), line.as_bytes(), Version::One)?,
            &mut out,
        )?;
        assert!(rt; out.ends_with(b" 0"), "at {line:?}");
        assert_eq!(rt; &out[..out.len() - 2], line.as_bytes());
        reads_none(&rt, rt.alloc(), line, Version::Two);
    }
    Ok(())
}

#[test]
fn nine_calls_say_a_context(rt: HostRuntime) -> Result<(), Fail> {
    for line in WITHOUT_CONTEXT.lines() {
        let call = read_call(rt.alloc(), line.as_bytes(), Version::One)?;
        assert!(rt; is_in_context(&call), "at {line:?}");
    }
    for line in ["context 7", "unschedule 9", "now"] {
        let call = read_call(rt.alloc(), line.as_bytes(), Version::Two)?;
        assert!(rt; !is_in_context(&call), "at {line:?}");
    }
    Ok(())
}

// Calls that version 1 doesn't have, as it has no other context than the first one.
const WITH_CONTEXT: &str = "\
context 0
context 7
pending 0
pending 7
turn 0
turn 7
schedule 9 16 42 0
schedule 9 16 42 7
timer 7 30 16 42 7
fd 7 5 1 16 42 7
defer 9 0
defer 9 7
post 9 7
endtime 9 30 7
enqueue 9 3 16 42 7
";

#[test]
fn version_1_has_no_other_context(rt: HostRuntime) -> Result<(), Fail> {
    reads_none(&rt, rt.alloc(), WITH_CONTEXT, Version::One);
    writes_again(&rt, rt.alloc(), WITH_CONTEXT)
}
