use super::reads_none;
use schedule_text::{convert_line, read_header, read_line, write_end, write_input};
use std::alloc::Global;
use std::process::Abort;
use std::test::Fail;
use text_forms::{FormFault, read_name};
use tree_specs::{Act, Ask, Call, Header, Input, Mode, Obj, Owner, Version, Want};

// The call that makes an object of 10 bytes and the name a-b below 7.
fn expect_new(rt: &impl Abort, call: &Call) {
    match call {
        Call::New { owner, size, name } => {
            assert_eq!(rt; *owner, Owner::Of(Obj(7)));
            assert_eq!(rt; *size, 10);
            assert_eq!(rt; name.as_slice(), b"a-b".as_slice());
        }
        _ => assert!(rt; false, "another call"),
    }
}

#[test]
fn reads_a_call_of_new(rt: HostRuntime) -> Result<(), Fail> {
    match &read_line(rt.alloc(), b"call new 7 10 a-b", Version::Two)? {
        Input::Call(call) => expect_new(&rt, call),
        _ => assert!(rt; false, "another input"),
    }
    Ok(())
}

// Inputs, as they are written.
const INPUTS: &str = "\
call new 7 10 a-b
call hook 1 16
call unhook 1
act new 7 10 a-b
act free 9
act freekids 9
act steal 7 9
act move 0 9
act reparent 7 0 9
act hook 1 4294967295
act unhook 1
act rename 9 a-b
act parent 9
act total 0
act count 7
act report 0
ret 0
ret 4294967295
call now
act turn 0
act turn 7
call context 0
clock 0
clock 4611686018427387904
ready
ready 3:1 5:3
ready 0:2 4294967295:1
call req 7 10 a-b
act callback 1 16 5
act callback 1 0 0
call defer 1 0
act cleanup 1 17
act setcancel 1 0
call cancel 1
act post 1 0
act done 1
call error 1 18446744073709551615
act oom 1
call iserror 1
call progress 1
act endtime 1 4611686018427387904 0
act received 1
";

#[test]
fn writes_what_was_read(rt: HostRuntime) -> Result<(), Fail> {
    for line in INPUTS.lines() {
        let mut out = Vec::new(rt.alloc());
        let input = read_line(rt.alloc(), line.as_bytes(), Version::Two)?;
        write_input(&input, &mut out)?;
        assert_eq!(rt; out.pop(), Some(b'\n'), "at {line:?}");
        assert_eq!(rt; out.as_slice(), line.as_bytes());
    }
    Ok(())
}

// A line is turned into this one, or into none.
fn converts(
    rt: &impl Abort,
    alloc: Global,
    line: &str,
    version: Version,
    want: &str,
) -> Result<(), Fail> {
    let mut out = Vec::new(alloc);
    let converted = convert_line(line.as_bytes(), version, &mut out);
    assert_eq!(rt; converted.is_ok(), !want.is_empty(), "at {line:?}");
    assert_eq!(rt; out.as_slice(), want.as_bytes());
    Ok(())
}

#[test]
fn a_line_gains_the_context_that_it_lacks(rt: HostRuntime) -> Result<(), Fail> {
    let cases = [
        ("call turn", Version::One, "call turn 0\n"),
        (
            "act timer 7 30 16 42",
            Version::One,
            "act timer 7 30 16 42 0\n",
        ),
        ("call free 9", Version::One, "call free 9\n"),
        ("ready 3:1", Version::One, "ready 3:1\n"),
        ("call turn 0", Version::Two, "call turn 0\n"),
        ("act turn 7", Version::Two, "act turn 7\n"),
        ("call turn 0", Version::One, ""),
        ("call context 0", Version::One, ""),
        ("call turn", Version::Two, ""),
        ("call fre", Version::One, ""),
    ];
    for (line, version, want) in cases {
        converts(&rt, rt.alloc(), line, version, want)?;
    }
    Ok(())
}

#[test]
fn reads_an_act_of_new(rt: HostRuntime) -> Result<(), Fail> {
    match &read_line(rt.alloc(), b"act new 7 10 a-b", Version::Two)? {
        Input::Act(Act::Do(call)) => expect_new(&rt, call),
        _ => assert!(rt; false, "another input"),
    }
    Ok(())
}

#[test]
fn reads_an_act_of_hook(rt: HostRuntime) -> Result<(), Fail> {
    match &read_line(rt.alloc(), b"act hook 1 16", Version::Two)? {
        Input::Act(Act::Do(Call::Hook { x, routine })) => {
            assert_eq!(rt; *x, Obj(1));
            assert_eq!(rt; *routine, 16);
        }
        _ => assert!(rt; false, "another input"),
    }
    Ok(())
}

// The number that a routine returns, or that the clock answers.
fn number_in(input: &Input) -> Option<u64> {
    match input {
        Input::Act(Act::Ret(value)) => Some(u64::from(*value)),
        Input::Clock(now) => Some(*now),
        _ => None,
    }
}

#[test]
fn reads_returns_and_times(rt: HostRuntime) -> Result<(), Fail> {
    let cases = [
        (b"ret 0".as_slice(), 0),
        (b"ret 1".as_slice(), 1),
        (b"ret 4294967295".as_slice(), 4_294_967_295),
        (b"clock 0".as_slice(), 0),
        (
            b"clock 4611686018427387904".as_slice(),
            4_611_686_018_427_387_904,
        ),
    ];
    for (line, want) in cases {
        let input = read_line(rt.alloc(), line, Version::Two)?;
        assert_eq!(rt; number_in(&input), Some(want), "at {line:?}");
    }
    Ok(())
}

#[test]
fn reads_what_is_ready(rt: HostRuntime) -> Result<(), Fail> {
    let two = [Want { fd: 3, flags: 1 }, Want { fd: 5, flags: 3 }];
    let cases = [
        (b"ready".as_slice(), &two[..0]),
        (b"ready 3:1".as_slice(), &two[..1]),
        (b"ready 3:1 5:3".as_slice(), &two[..]),
    ];
    for (line, want) in cases {
        match read_line(rt.alloc(), line, Version::Two)? {
            Input::Ready(wants) => assert_eq!(rt; wants.as_slice(), want, "at {line:?}"),
            _ => assert!(rt; false, "another input"),
        }
    }
    Ok(())
}

#[test]
fn reads_a_call_of_free(rt: HostRuntime) -> Result<(), Fail> {
    match read_line(rt.alloc(), b"call free 9", Version::Two)? {
        Input::Call(Call::Free { x }) => assert_eq!(rt; x, Obj(9)),
        _ => assert!(rt; false, "another input"),
    }
    Ok(())
}

// Lines that are no input.
const NO_INPUTS: &str = "\
call
call fre
call  free 9
Call free 9
free 9
call ret 0
act
act free 9 9
act hook 1 0
act call free 9
act ret 0
ret
ret 01
ret 4294967296
ret 0 0
ret free 9
call now 0
clock
clock 01
clock 0 0
clock 4611686018427387905
ready 5:1 3:1
ready 3:1 3:2
ready 3:0
ready 3:4
ready 3
ready 3:
ready :1
ready 3:1:1
ready  3:1
ready 03:1
ready3:1
ready 4294967296:1
call done
call done 01
call error 1
done 1
act endtime 1 4611686018427387905 0
call turn
call turn 01
act req 7 10
act callback 1 4294967296 0
act cleanup 1 17 0
call state 1 2
state 1 2
";

#[test]
fn reads_no_line(rt: HostRuntime) {
    for line in NO_INPUTS.lines() {
        reads_none(&rt, rt.alloc(), line);
    }
    for line in [
        "",
        "call ",
        "call free 9\n",
        "clock ",
        "ready ",
        "ready 3:1 ",
    ] {
        reads_none(&rt, rt.alloc(), line);
    }
}

#[test]
fn reads_the_calls_of_what_is_below(rt: HostRuntime) -> Result<(), Fail> {
    match read_line(rt.alloc(), b"call freekids 9", Version::Two)? {
        Input::Call(Call::Freekids { x }) => assert_eq!(rt; x, Obj(9)),
        _ => assert!(rt; false, "another input"),
    }
    match read_line(rt.alloc(), b"call report 0", Version::Two)? {
        Input::Call(Call::Report { owner }) => assert_eq!(rt; owner, Owner::Root),
        _ => assert!(rt; false, "another input"),
    }
    Ok(())
}

#[test]
fn reads_the_header(rt: HostRuntime) -> Result<(), Fail> {
    let headers = [
        (b"tv schedule 1 pool".as_slice(), Version::One, Mode::Pool),
        (
            b"tv schedule 1 service".as_slice(),
            Version::One,
            Mode::Service,
        ),
        (b"tv schedule 2 pool".as_slice(), Version::Two, Mode::Pool),
        (
            b"tv schedule 2 service".as_slice(),
            Version::Two,
            Mode::Service,
        ),
    ];
    for (line, version, mode) in headers {
        assert_eq!(rt; read_header(line)?, Header { version, mode }, "at {line:?}");
    }
    let others = [
        b"".as_slice(),
        b"tv schedule 1 services".as_slice(),
        b"tv schedule 1 pool\n".as_slice(),
        b"tv schedule 1 pool ".as_slice(),
        b"tv schedule 1 poo".as_slice(),
        b"tv schedule 3 pool".as_slice(),
        b"tv schedule 1 Pool".as_slice(),
        b"tv transcript 1".as_slice(),
    ];
    for line in others {
        assert!(rt;
            matches!(read_header(line), Err(FormFault::NoForm)),
            "at {line:?}"
        );
    }
    Ok(())
}

#[test]
fn writes_after_what_is_there(rt: HostRuntime) -> Result<(), Fail> {
    let mut out = Vec::new(rt.alloc());
    let input = Input::Call(Call::New {
        owner: Owner::Root,
        size: 0,
        name: read_name(rt.alloc(), b"top", Version::Two)?,
    });
    write_input(&input, &mut out)?;
    write_end(&Ask::Quiet, &mut out)?;
    assert_eq!(rt; out.as_slice(), b"call new 0 0 top\nend quiet\n".as_slice());
    Ok(())
}
