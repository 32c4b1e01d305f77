ghost use Rattle.std.specs.Prelude.{◌≤◌};

use super::*;
use outside::{FineSink, Got, MemSink, Put, PutError, Sink, Source};
use std::test::Fail;

// What a load writes into memory.
fn lines(rt: &HostRuntime, number: u32, count: u32) -> Result<Vec<u8>, Fail>
    requires { count ≤ 1000000 }
{
    let mut out = FineSink::new(rt.alloc(), 0)?;
    load(rt.alloc(), number, count, &mut out)?;
    Ok(out.held().to_vec(rt.alloc())?)
}

#[test]
fn loads_schedules_of_some_calls_and_of_none(rt: HostRuntime) -> Result<(), Fail> {
    let four = lines(&rt, 1, 4)?;
    assert_eq!(rt;
        four.as_slice(),
        b"calls 4\nrefused 2\nfreed 0\ndropped 0\nlive 2\n".as_slice()
    );
    let none = lines(&rt, 0, 0)?;
    assert_eq!(rt;
        none.as_slice(),
        b"calls 0\nrefused 0\nfreed 0\ndropped 0\nlive 0\n".as_slice()
    );
    Ok(())
}

#[test]
fn two_runs_write_the_same(rt: HostRuntime) -> Result<(), Fail> {
    let first = lines(&rt, 7, 1000)?;
    let second = lines(&rt, 7, 1000)?;
    assert!(rt; first.starts_with(b"calls 1000\n"));
    assert_eq!(rt; first.as_slice(), second.as_slice());
    Ok(())
}

#[test]
fn a_failing_put_is_a_fault(rt: HostRuntime) -> Result<(), Fail> {
    let mut out = MemSink::new(rt.alloc(), 8, 0, [2u64].to_vec(rt.alloc())?)?;
    let loaded = load(rt.alloc(), 1, 4, &mut out);
    assert_eq!(rt; loaded, Err(PutError::Write));
    assert_eq!(rt; out.held(), b"calls 4\n".as_slice());
    Ok(())
}

#[test]
fn a_schedule_is_given_in_pieces_of_any_length(rt: HostRuntime) -> Result<(), Fail> {
    let mut source = LoadSource::new(1, 4);
    let mut given = Vec::new(rt.alloc());
    let mut buf = [0u8; 7];
    for _ in 0..15 {
        match source.read(&mut buf) {
            Got::Some(n) => given.extend_from_slice(&buf[..n as usize])?,
            _ => {}
        }
    }
    assert_eq!(rt;
        given.as_slice(),
        b"tv schedule 1 pool\ncall reference 0 1\ncall new 0 627 n\ncall new 1 212 n\ncall reference 1 3\ncall count 0\n".as_slice()
    );
    Ok(())
}

#[test]
fn a_put_takes_all_lines_that_end_in_it(rt: HostRuntime) -> Result<(), Fail> {
    let mut tally = Tally::new(rt.alloc());
    let whole = tally.put(b"reply 1\nreply no 2\nfreed 1 0\nrep");
    assert_eq!(rt; whole, Ok(Put::Took(29)));
    let begun = tally.put(b"rep");
    assert_eq!(rt; begun, Ok(Put::Took(3)));
    let ended = tally.put(b"ly 30\nunreferenced 2 1\n");
    assert_eq!(rt; ended, Ok(Put::Took(6)));
    let last = tally.put(b"unreferenced 2 1\nreply");
    assert_eq!(rt; last, Ok(Put::Took(17)));
    let text = tally.five_lines(rt.alloc(), 3)?;
    assert_eq!(rt;
        text.as_slice(),
        b"calls 3\nrefused 1\nfreed 1\ndropped 1\nlive 30\n".as_slice()
    );
    Ok(())
}
