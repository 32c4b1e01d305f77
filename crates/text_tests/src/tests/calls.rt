ghost use Rattle.std.specs.Prelude.{IsTrue};
ghost use Rattle.std.specs.List.{list_all};
ghost use Rattle.tree_specs.specs.Words.Ranges.{is_sound_call};

use std::alloc::Global;
use std::fmt::InlineText;
use std::process::Abort;
use std::test::Fail;
use text_forms::{
    FormFault, read_call, read_length, read_name, read_number, read_positive, read_time, read_u32,
    split_part, split_word, write_call, write_number, write_numbers, write_pieces,
    write_report_rows,
};
use tree_specs::{Call, Name, Owner, ReportRow, RowKind, Version};

mod contexts;
mod descriptors;
mod queues;
mod requests;

// The call is written as these bytes, and what they are read as is written so too.
fn writes(rt: &impl Abort, alloc: Global, call: &Call, want: &[u8]) -> Result<(), Fail>
    requires { IsTrue (is_sound_call call.now) }
{
    let mut out = Vec::new(alloc);
    write_call(call, &mut out)?;
    assert_eq!(rt; out.as_slice(), want);
    out.clear();
    write_call(&read_call(alloc, want, Version::Two)?, &mut out)?;
    assert_eq!(rt; out.as_slice(), want);
    Ok(())
}

// Each call is written as its bytes, and so is what they are read as.
fn writes_each(rt: &impl Abort, alloc: Global, cases: &[(Call, &[u8])]) -> Result<(), Fail>
    requires { IsTrue (list_all (λ c. is_sound_call c.0) cases.now) }
{
    for (call, want) in cases {
        writes(rt, alloc, call, want)?;
    }
    Ok(())
}

// What is read of each line is written as this line.
fn writes_again(rt: &impl Abort, alloc: Global, lines: &str) -> Result<(), Fail> {
    for line in lines.lines() {
        let call = read_call(alloc, line.as_bytes(), Version::Two)?;
        writes(rt, alloc, &call, line.as_bytes())?;
    }
    Ok(())
}

// No line is a call of this version.
fn reads_none(rt: &impl Abort, alloc: Global, lines: &str, version: Version) {
    for text in lines.lines() {
        let call = read_call(alloc, text.as_bytes(), version);
        assert!(rt; matches!(call, Err(FormFault::NoForm)), "at {text:?}");
    }
}

#[test]
fn reads_numbers(rt: HostRuntime) {
    let cases = [
        (b"0".as_slice(), Some(0)),
        (b"70".as_slice(), Some(70)),
        (
            b"18446744073709551615".as_slice(),
            Some(18_446_744_073_709_551_615),
        ),
        (b"18446744073709551616".as_slice(), None),
        (b"01".as_slice(), None),
        (b"00".as_slice(), None),
        (b"+1".as_slice(), None),
        (b"1 ".as_slice(), None),
        (b"".as_slice(), None),
    ];
    for (text, want) in cases {
        assert_eq!(rt; read_number(text), want, "at {text:?}");
    }
}

// From 0, as what a routine returns, and from 1, as a descriptor that was accepted.
#[test]
fn reads_numbers_of_32_bits(rt: HostRuntime) {
    let greatest = Some(4_294_967_295);
    let cases = [
        ("0", Some(0), None),
        ("1", Some(1), Some(1)),
        ("4294967295", greatest, greatest),
        ("4294967296", None, None),
        ("01", None, None),
    ];
    for (text, from_0, from_1) in cases {
        assert_eq!(rt; read_u32(text.as_bytes()), from_0, "at {text}");
        assert_eq!(rt; read_positive(text.as_bytes()), from_1, "at {text}");
    }
}

#[test]
fn reads_times(rt: HostRuntime) {
    let limit = b"4611686018427387904";
    assert_eq!(rt; read_time(b"0"), Some(0));
    assert_eq!(rt; read_time(limit), Some(4_611_686_018_427_387_904));
    assert_eq!(rt; read_time(b"4611686018427387905"), None);
    assert_eq!(rt; read_time(b"01"), None);
}

#[test]
fn reads_lengths(rt: HostRuntime) {
    assert_eq!(rt; read_length(b"0"), None);
    assert_eq!(rt; read_length(b"1"), Some(1));
    assert_eq!(rt; read_length(b"65536"), Some(65_536));
    assert_eq!(rt; read_length(b"65537"), None);
    assert_eq!(rt; read_length(b"065"), None);
}

#[test]
fn splits_at_the_first_such_byte(rt: HostRuntime) {
    let cases = [
        (
            b"3:1:2".as_slice(),
            b"3".as_slice(),
            Some(b"1:2".as_slice()),
        ),
        (b":1".as_slice(), b"".as_slice(), Some(b"1".as_slice())),
        (b"3:".as_slice(), b"3".as_slice(), Some(b"".as_slice())),
        (b"3 1".as_slice(), b"3 1".as_slice(), None),
        (b"".as_slice(), b"".as_slice(), None),
    ];
    for (text, first, rest) in cases {
        assert_eq!(rt; split_part(text, b':'), (first, rest), "at {text:?}");
    }
    assert_eq!(rt;
        split_word(b"3 1"),
        (b"3".as_slice(), Some(b"1".as_slice()))
    );
}

#[test]
fn writes_after_what_is_there(rt: HostRuntime) -> Result<(), Fail> {
    let mut out = Vec::new(rt.alloc());
    write_pieces(
        &[b"a".as_slice(), b"".as_slice(), b"bc ".as_slice()],
        &mut out,
    )?;
    write_number(18_446_744_073_709_551_615, &mut out)?;
    assert_eq!(rt; out.as_slice(), b"abc 18446744073709551615".as_slice());
    Ok(())
}

#[test]
fn reads_names(rt: HostRuntime) -> Result<(), Fail> {
    let too_long = [b'~'; 1_024];
    for (version, longest) in [(Version::One, 255), (Version::Two, 1_023)] {
        let name = read_name(rt.alloc(), &too_long[..longest], version)?;
        assert_eq!(rt; name.as_slice().len(), longest);
        for text in [
            &too_long[..longest + 1],
            b"".as_slice(),
            b"a b".as_slice(),
            b"a\x7f".as_slice(),
        ] {
            let name = read_name(rt.alloc(), text, version);
            assert!(rt; matches!(name, Err(FormFault::NoForm)), "at {text:?}");
        }
    }
    Ok(())
}

#[test]
fn writes_the_root_as_zero(rt: HostRuntime) -> Result<(), Fail> {
    let new = Call::New {
        owner: Owner::Root,
        size: 0,
        name: read_name(rt.alloc(), b"top", Version::Two)?,
    };
    writes(&rt, rt.alloc(), &new, b"new 0 0 top")
}

// Calls, as they are written.
const CALLS: &str = "\
new 7 10 a-b
free 9
freekids 9
steal 7 9
move 0 9
reparent 7 0 9
hook 1 16
hook 18446744073709551615 4294967295
unhook 1
rename 9 a-b
reference 7 9
unlink 0 9
resize 9 10
limit 9 10
parent 9
sum 7
total 0
total 7
count 0
count 7
report 0
report 7
now
";

#[test]
fn writes_what_was_read(rt: HostRuntime) -> Result<(), Fail> {
    for lines in [
        CALLS,
        contexts::CALLS,
        descriptors::CALLS,
        requests::CALLS,
        queues::CALLS,
    ] {
        writes_again(&rt, rt.alloc(), lines)?;
    }
    Ok(())
}

// Lines that are no call.
const NO_CALLS: &str = "\
free
free 09
free 9 9
Free 9
new 7 10
new 7 10 a b
new  7 10 a
steal 9
move 7 9 9
reparent 7 9
rename 9
parent
freekids
freekids 9 9
freekid 9
total
total 0 0
count 07
report
report 7 0
free 9x
free x
free 18446744073709551616
freekids9
steal 7  9
hook 1
hook 1 0
hook 1 4294967296
hook 1 016
hook 1 16 2
unhook 1 16

free 9\x20
\x20free 9
count 7\x20
rename 9\x20
";

#[test]
fn reads_no_call(rt: HostRuntime) {
    for lines in [
        NO_CALLS,
        contexts::NO_CALLS,
        descriptors::NO_CALLS,
        requests::NO_CALLS,
        queues::NO_CALLS,
    ] {
        reads_none(&rt, rt.alloc(), lines, Version::Two);
    }
}

#[test]
fn writes_numbers_between_a_front_and_an_end(rt: HostRuntime) -> Result<(), Fail> {
    let mut out = Vec::new(rt.alloc());
    write_numbers(b"a", &[0, 70, 18_446_744_073_709_551_615], b"z", &mut out)?;
    assert_eq!(rt; out.as_slice(), b"a 0 70 18446744073709551615z".as_slice());
    write_numbers(b"b", &[], b"\n", &mut out)?;
    assert_eq!(rt;
        out.as_slice(),
        b"a 0 70 18446744073709551615zb\n".as_slice()
    );
    Ok(())
}

fn row(kind: RowKind, name: Name) -> ReportRow {
    ReportRow {
        depth: 1,
        id: 3,
        kind,
        size: 16,
        refs: 5,
        target: 7,
        name,
    }
}

#[test]
fn writes_each_kind_of_row(rt: HostRuntime) -> Result<(), Fail> {
    let cases = [
        (RowKind::Root, b"row 1 3 root 16 5 7 a-b\n".as_slice()),
        (RowKind::Plain, b"row 1 3 plain 16 5 7 a-b\n".as_slice()),
        (
            RowKind::Reference,
            b"row 1 3 reference 16 5 7 a-b\n".as_slice(),
        ),
        (RowKind::Timer, b"row 1 3 timer 16 5 7 a-b\n".as_slice()),
        (
            RowKind::Immediate,
            b"row 1 3 immediate 16 5 7 a-b\n".as_slice(),
        ),
        (RowKind::Fd, b"row 1 3 fd 16 5 7 a-b\n".as_slice()),
        (RowKind::Request, b"row 1 3 request 16 5 7 a-b\n".as_slice()),
        (RowKind::Queue, b"row 1 3 queue 16 5 7 a-b\n".as_slice()),
        (RowKind::Entry, b"row 1 3 entry 16 5 7 a-b\n".as_slice()),
        (RowKind::Context, b"row 1 3 context 16 5 7 a-b\n".as_slice()),
    ];
    for (kind, want) in cases {
        let mut out = Vec::new(rt.alloc());
        let rows = [row(kind, read_name(rt.alloc(), b"a-b", Version::Two)?)];
        write_report_rows(&rows, &mut out)?;
        assert_eq!(rt; out.as_slice(), want);
    }
    Ok(())
}

#[test]
fn writes_the_rows_of_a_report(rt: HostRuntime) -> Result<(), Fail> {
    let largest = ReportRow {
        depth: 4_294_967_295,
        id: 18_446_744_073_709_551_615,
        kind: RowKind::Plain,
        size: 268_435_455,
        refs: 4_294_967_295,
        target: 18_446_744_073_709_551_614,
        name: read_name(rt.alloc(), b"~", Version::Two)?,
    };
    let rows = [ReportRow::root(), largest];
    let mut out = Vec::new(rt.alloc());
    write_report_rows(&rows, &mut out)?;
    let want =
        b"row 0 0 root 0 0 0 null_context\nrow 4294967295 18446744073709551615 plain 268435455 4294967295 18446744073709551614 ~\n";
    assert_eq!(rt; out.as_slice(), want.as_slice());
    Ok(())
}

#[test]
fn a_fault_has_its_message(rt: HostRuntime) {
    let text: InlineText<64> = InlineText::of(FormFault::NoForm);
    assert_eq!(rt; text.as_str(), "the text spells no such value");
}
