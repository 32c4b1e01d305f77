use super::{octets, reads_none};
use schedule_text::{read_line, write_input};
use std::test::Fail;
use tree_specs::{Act, Call, Input, Version};

// An input and its line.
type Case = (Input, &'static [u8]);

#[test]
fn writes_what_descriptors_answer(rt: HostRuntime) -> Result<(), Fail> {
    let bytes = octets(rt.alloc(), b"1 9\n")?;
    let cases: [Case; 6] = [
        (Input::Took(6), b"took 6\n"),
        (Input::Again, b"again\n"),
        (Input::Fault, b"fault\n"),
        (Input::Got(bytes), b"got 3120390a\n"),
        (Input::End, b"end\n"),
        (Input::Wrote(4), b"wrote 4\n"),
    ];
    for (input, want) in &cases {
        let mut out = Vec::new(rt.alloc());
        write_input(input, &mut out)?;
        assert_eq!(rt; out.as_slice(), *want);
    }
    Ok(())
}

// A word for each kind, and the number that was told with it.
fn told(input: &Input) -> (&'static [u8], u32) {
    match input {
        Input::Took(descriptor) => (b"took", *descriptor),
        Input::Again => (b"again", 0),
        Input::Fault => (b"fault", 0),
        Input::End => (b"end", 0),
        Input::Wrote(n) => (b"wrote", *n),
        _ => (b"another", 0),
    }
}

#[test]
fn reads_what_descriptors_answer(rt: HostRuntime) -> Result<(), Fail> {
    let cases = [
        (b"took 6".as_slice(), (b"took".as_slice(), 6)),
        (b"took 1".as_slice(), (b"took".as_slice(), 1)),
        (
            b"took 4294967295".as_slice(),
            (b"took".as_slice(), 4_294_967_295),
        ),
        (b"again".as_slice(), (b"again".as_slice(), 0)),
        (b"fault".as_slice(), (b"fault".as_slice(), 0)),
        (b"end".as_slice(), (b"end".as_slice(), 0)),
        (b"wrote 1".as_slice(), (b"wrote".as_slice(), 1)),
        (b"wrote 65536".as_slice(), (b"wrote".as_slice(), 65_536)),
    ];
    for (line, want) in cases {
        let input = read_line(rt.alloc(), line, Version::Two)?;
        assert_eq!(rt; told(&input), want, "at {line:?}");
    }
    Ok(())
}

// The bytes that were read, or that a routine writes to descriptor 6.
fn bytes_in(input: &Input) -> Option<&[u8]> {
    match input {
        Input::Got(bytes) => Some(bytes.as_slice()),
        Input::Act(Act::Do(Call::Write { fd: 6, bytes })) => Some(bytes.as_slice()),
        _ => None,
    }
}

#[test]
fn reads_bytes(rt: HostRuntime) -> Result<(), Fail> {
    let cases = [
        (b"got 3120390a".as_slice(), b"1 9\n".as_slice()),
        (b"act write 6 0aff".as_slice(), b"\x0a\xff".as_slice()),
    ];
    for (line, want) in cases {
        let input = read_line(rt.alloc(), line, Version::Two)?;
        assert_eq!(rt; bytes_in(&input), Some(want), "at {line:?}");
    }
    Ok(())
}

// Lines that are no answer.
const NO_ANSWERS: &str = "\
took
took 0
took 06
took 4294967296
took 6 7
again 6
agai
Again
faults
got
got 0
got 0A
got 0g
got  00
got 00 11
end quiet
wrote
wrote 0
wrote 01
wrote 65537
act again
";

#[test]
fn reads_no_answer(rt: HostRuntime) {
    for line in NO_ANSWERS.lines() {
        reads_none(&rt, rt.alloc(), line);
    }
    for line in [
        "took ", "took 6 ", "again ", "again\n", "fault ", "got ", "got 00 ", "end ", "wrote ",
    ] {
        reads_none(&rt, rt.alloc(), line);
    }
}
