use super::writes_each;
use std::alloc::Global;
use std::test::Fail;
use text_forms::{FormFault, read_octets, write_octets};
use tree_specs::{Call, Obj, Octets, Owner};

// Calls on descriptors, as they are written.
pub(super) const CALLS: &str = "\
fd 0 0 0 1 0 0
fd 18446744073709551615 4294967295 3 4294967295 18446744073709551615 0
fd 0 5 1 16 0 7
flags 9 0
flags 9 3
getflags 9
autoclose 9
close 0
accept 4294967295
read 0 1
read 5 65536
write 5 00
";

// Lines that are no call on a descriptor.
pub(super) const NO_CALLS: &str = "\
fd 0 5 1 16
fd 0 5 1 16 0
fd 0 5 1 16 0 01
fd 0 5 1 16 0 0 0
fd 0 5 4 16 0 0
fd 0 5 1 0 0 0
fd 0 4294967296 1 16 0 0
flags 9
flags 9 4
flags 9 03
getflags
getflags 9 1
autoclose 9 0
close
close 4294967296
accept 5 5
read 5
read 5 0
read 5 65537
write 5
write 5 0
write 5 0A
write 5 0g
write 5 00 11
write 00
write  00
write 5\x20
write 5 00\x20
";

fn octets(alloc: Global, bytes: &[u8]) -> Result<Octets, Fail> {
    let octets = Octets::make(Vec::from_slice(alloc, bytes)?).ok_or("no octets")?;
    Ok(octets)
}

#[test]
fn reads_bytes(rt: HostRuntime) -> Result<(), Fail> {
    let cases = [
        (b"00".as_slice(), b"\x00".as_slice()),
        (b"0aff".as_slice(), b"\x0a\xff".as_slice()),
        (b"3120390a".as_slice(), b"1 9\n".as_slice()),
    ];
    for (text, want) in cases {
        let bytes = read_octets(rt.alloc(), text)?;
        assert_eq!(rt; bytes.as_slice(), want, "at {text:?}");
    }
    let longest = vec![in rt.alloc(); b'7'; 131_072]?;
    let bytes = read_octets(rt.alloc(), longest.as_slice())?;
    assert_eq!(rt; bytes.as_slice().len(), 65_536);
    Ok(())
}

#[test]
fn reads_no_bytes(rt: HostRuntime) -> Result<(), Fail> {
    let too_long = vec![in rt.alloc(); b'7'; 131_074]?;
    let texts = [
        b"".as_slice(),
        b"0".as_slice(),
        b"00f".as_slice(),
        b"0A".as_slice(),
        b"aF".as_slice(),
        b"0g".as_slice(),
        b"0x00".as_slice(),
        b"00 ".as_slice(),
        b"00 11".as_slice(),
        too_long.as_slice(),
    ];
    for text in texts {
        let bytes = read_octets(rt.alloc(), text);
        assert!(rt; matches!(bytes, Err(FormFault::NoForm)), "at {text:?}");
    }
    Ok(())
}

#[test]
fn writes_bytes_between_a_front_and_an_end(rt: HostRuntime) -> Result<(), Fail> {
    let bytes = octets(rt.alloc(), b"1 \xff")?;
    let mut out = Vec::new(rt.alloc());
    write_octets(b"a", &[5, 70], &bytes, b"z", &mut out)?;
    write_octets(b"b", &[], &bytes, b"\n", &mut out)?;
    assert_eq!(rt; out.as_slice(), b"a 5 70 3120ffzb 3120ff\n".as_slice());
    Ok(())
}

#[test]
fn writes_calls(rt: HostRuntime) -> Result<(), Fail> {
    let fd = Call::Fd {
        owner: Owner::Of(Obj(7)),
        fd: 5,
        flags: 1,
        routine: 16,
        user: 42,
        context: Obj(8),
    };
    let bytes = octets(rt.alloc(), b"1 9\n")?;
    let flags = Call::Flags {
        x: Obj(9),
        flags: 2,
    };
    let cases = [
        (fd, b"fd 7 5 1 16 42 8".as_slice()),
        (flags, b"flags 9 2".as_slice()),
        (Call::Getflags { x: Obj(9) }, b"getflags 9".as_slice()),
        (Call::Autoclose { x: Obj(9) }, b"autoclose 9".as_slice()),
        (Call::Close { fd: 6 }, b"close 6".as_slice()),
        (Call::Accept { fd: 6 }, b"accept 6".as_slice()),
        (Call::Read { fd: 6, len: 64 }, b"read 6 64".as_slice()),
        (Call::Write { fd: 6, bytes }, b"write 6 3120390a".as_slice()),
    ];
    writes_each(&rt, rt.alloc(), &cases)
}
