ghost use Rattle.std.specs.Prelude.{◌≤◌, ◌<◌, length, IfOk};

use outside::{
    Accepted, Clock, Done, FineSink, FineSource, Got, Link, LinkRead, LinkWrote, MemClock, MemLink,
    MemRoutines, MemSink, MemSource, Put, PutError, Routines, Sink, Source, StdSink, StdSource,
    WallClock,
};
use std::alloc::Global;
use std::fmt::InlineText;
use std::io;
use std::io::{ErrorKind, Read, Write};
use std::process::Abort;
use std::test::Fail;
use tree_specs::{Act, Input, Memory, Moment, Obj, Want, Wants, What};

#[test]
fn a_source_in_memory_gives_its_bytes_and_fails_when_told(rt: HostRuntime) -> Result<(), Fail> {
    let bytes = [1u8, 2, 3].to_vec(rt.alloc())?;
    let fails = [2u64].to_vec(rt.alloc())?;
    let mut source = MemSource::new(bytes, 2, fails);
    let mut buf = [0u8; 8];
    assert_eq!(rt; source.read(&mut buf), Got::Some(2));
    assert_eq!(rt; buf, [1, 2, 0, 0, 0, 0, 0, 0]);
    assert_eq!(rt; source.read(&mut buf), Got::Failed);
    assert_eq!(rt; source.read(&mut buf), Got::Some(1));
    assert_eq!(rt; buf, [3, 2, 0, 0, 0, 0, 0, 0]);
    assert_eq!(rt; source.read(&mut buf), Got::End);
    Ok(())
}

#[test]
fn a_fine_source_gives_what_fits(rt: HostRuntime) -> Result<(), Fail> {
    let mut source = FineSource::new([1u8, 2, 3].to_vec(rt.alloc())?);
    let mut buf = [0u8; 2];
    assert_eq!(rt; source.read(&mut buf), Got::Some(2));
    assert_eq!(rt; source.read(&mut buf), Got::Some(1));
    assert_eq!(rt; buf, [3, 2]);
    assert_eq!(rt; source.read(&mut buf), Got::End);
    Ok(())
}

#[test]
fn a_sink_in_memory_keeps_bytes_and_fails_when_told(rt: HostRuntime) -> Result<(), Fail> {
    let fails = [1u64].to_vec(rt.alloc())?;
    let mut sink = MemSink::new(rt.alloc(), 2, 0, fails)?;
    assert_eq!(rt; sink.put(b"abc")?, Put::Failed);
    assert_eq!(rt; sink.held().len(), 0);
    assert_eq!(rt; sink.put(b"abc")?, Put::Took(2));
    assert_eq!(rt; sink.held(), b"ab".as_slice());
    Ok(())
}

#[test]
fn a_sink_with_room_takes_all_that_it_may(rt: HostRuntime) -> Result<(), Fail> {
    let fails = [2u64].to_vec(rt.alloc())?;
    let mut sink = MemSink::new(rt.alloc(), 8, 4, fails)?;
    assert_eq!(rt; sink.put(b"abc")?, Put::Took(3));
    assert_eq!(rt; sink.put(b"d")?, Put::Failed);
    assert_eq!(rt; sink.put(b"d")?, Put::Took(1));
    assert_eq!(rt; sink.held(), b"abcd".as_slice());
    Ok(())
}

#[test]
fn a_fine_sink_grows_past_its_room(rt: HostRuntime) -> Result<(), Fail> {
    let mut sink = FineSink::new(rt.alloc(), 1)?;
    assert_eq!(rt; sink.put(b"abc")?, Put::Took(3));
    assert_eq!(rt; sink.held(), b"abc".as_slice());
    Ok(())
}

// The calls as code over any source and any sink makes them.
fn read_from<S: Source>(source: &mut S, buf: &mut [u8]) -> Got
    requires { 0 < length buf.old }
{
    source.read(buf)
}

fn put_to<S: Sink>(sink: &mut S, bytes: &[u8]) -> Result<Put, Memory>
    requires { 0 < length bytes.now }
{
    sink.put(bytes)
}

#[test]
fn the_ends_of_std_pass_bytes_on(rt: HostRuntime) -> Result<(), Fail> {
    let bytes: &[u8] = &[1, 2, 3];
    let mut source = StdSource::new(bytes);
    let mut buf = [0u8; 2];
    assert_eq!(rt; read_from(&mut source, &mut buf), Got::Some(2));
    assert_eq!(rt; buf, [1, 2]);
    assert_eq!(rt; read_from(&mut source, &mut buf), Got::Some(1));
    assert_eq!(rt; read_from(&mut source, &mut buf), Got::End);

    let mut written = Vec::new(rt.alloc());
    let mut sink = StdSink::new(&mut written);
    assert_eq!(rt; put_to(&mut sink, b"ab")?, Put::Took(2));
    assert_eq!(rt; put_to(&mut sink, b"c")?, Put::Took(1));
    assert_eq!(rt; written.as_slice(), b"abc".as_slice());
    Ok(())
}

// A reader and a writer whose first call is interrupted, and whose second one fails.
#[derive(Drop)]
struct Rough {
    calls: u8,
}

impl Rough {
    fn answer(&mut self, len: usize) -> io::Result<usize>
        ensures { IfOk result (λ n. n ≤ len) }
    {
        self.calls = self.calls.saturating_add(1);
        match self.calls {
            1 => Err(io::Error::from(ErrorKind::Interrupted)),
            2 => Err(io::Error::from(ErrorKind::BrokenPipe)),
            _ => Ok(len.min(1)),
        }
    }
}

impl Read for Rough {
    fn read(&mut self, buf: &mut [u8]) -> io::Result<usize> {
        self.answer(buf.len())
    }
}

impl Write for Rough {
    fn write(&mut self, bytes: &[u8]) -> io::Result<usize> {
        self.answer(bytes.len())
    }

    fn flush(&mut self) -> io::Result<()> {
        Ok(())
    }
}

#[test]
fn an_interrupted_call_is_made_again_and_an_error_fails(rt: HostRuntime) -> Result<(), Fail> {
    let mut source = StdSource::new(Rough { calls: 0 });
    let mut buf = [0u8; 2];
    assert_eq!(rt; source.read(&mut buf), Got::Failed);
    assert_eq!(rt; source.read(&mut buf), Got::Some(1));

    let mut sink = StdSink::new(Rough { calls: 0 });
    assert_eq!(rt; sink.put(b"ab")?, Put::Failed);
    assert_eq!(rt; sink.put(b"ab")?, Put::Took(1));
    Ok(())
}

#[test]
fn a_writer_that_takes_nothing_fails(rt: HostRuntime) -> Result<(), Fail> {
    let mut full = [0u8; 0];
    let mut sink = StdSink::new(full.as_mut_slice());
    assert_eq!(rt; sink.put(b"ab")?, Put::Failed);
    Ok(())
}

#[test]
fn a_fault_has_its_message(rt: HostRuntime) {
    let text: InlineText<64> = InlineText::of(PutError::Write);
    assert_eq!(rt; text.as_str(), "a write failed");
}

fn ready(rt: &HostRuntime, list: &[Want]) -> Result<Input, Fail> {
    match Wants::make(list.to_vec(rt.alloc())?) {
        Some(wants) => Ok(Input::Ready(wants)),
        None => Ok(Input::Again),
    }
}

const LISTENER: [Want; 1] = [Want { fd: 0, flags: 1 }];

// A link's answers, and then the link, are lent to a function, so that they are dropped at one place and not at each way out.
fn push_some(rt: &HostRuntime, answers: &mut Vec<Input>) -> Result<(), Fail> {
    answers.push(ready(rt, &LISTENER)?)?;
    answers.push(Input::Took(1))?;
    answers.push(ready(rt, &[])?)?;
    answers.push(Input::Wrote(2))?;
    answers.push(Input::End)?;
    Ok(())
}

fn gives_in_order(rt: &impl Abort, alloc: Global, link: &mut MemLink) -> Result<(), Fail> {
    assert_eq!(rt; link.listen("/tmp/link")?, Done::Done);
    let mut found = Vec::new(alloc);
    assert_eq!(rt; link.wait(&LISTENER, 9, &mut found)?, Done::Done);
    assert_eq!(rt; found.as_slice(), LISTENER.as_slice());
    assert_eq!(rt; link.accept(0)?, Accepted::Took(1));
    assert_eq!(rt; link.wait(&LISTENER, 9, &mut found)?, Done::Done);
    assert_eq!(rt; found.len(), 0);
    assert_eq!(rt; link.write(1, b"abc"), LinkWrote::Wrote(2));
    assert_eq!(rt; link.read(1, &mut [0u8; 4]), LinkRead::End);
    assert_eq!(rt; link.read(1, &mut [0u8; 4]), LinkRead::Again);
    link.close(1);
    assert_eq!(rt; link.accept(0)?, Accepted::Again);
    Ok(())
}

#[test]
fn a_link_in_memory_gives_its_answers_in_order(rt: HostRuntime) -> Result<(), Fail> {
    let mut answers = Vec::new(rt.alloc());
    push_some(&rt, &mut answers)?;
    let mut link = MemLink::new(rt.alloc(), answers, Vec::new(rt.alloc()), 16, 16)?;
    gives_in_order(&rt, rt.alloc(), &mut link)
}

fn push_a_wait_and_a_write(rt: &HostRuntime, answers: &mut Vec<Input>) -> Result<(), Fail> {
    answers.push(ready(rt, &LISTENER)?)?;
    answers.push(Input::Wrote(2))?;
    Ok(())
}

fn gives_what_fits(rt: &impl Abort, alloc: Global, link: &mut MemLink) -> Result<(), Fail> {
    let mut found = Vec::new(alloc);
    assert_eq!(rt;
        link.wait(&[Want { fd: 5, flags: 1 }], 9, &mut found)?,
        Done::Done
    );
    assert_eq!(rt; found.len(), 0);
    assert_eq!(rt; link.write(1, b"abc"), LinkWrote::Again);
    assert_eq!(rt; link.wait(&LISTENER, 9, &mut found)?, Done::Done);
    assert_eq!(rt; found.as_slice(), LISTENER.as_slice());
    assert_eq!(rt; link.write(1, b"a"), LinkWrote::Again);
    assert_eq!(rt; link.write(1, b"abc"), LinkWrote::Wrote(2));
    Ok(())
}

#[test]
fn an_answer_that_does_not_fit_stays_the_next_one(rt: HostRuntime) -> Result<(), Fail> {
    let mut answers = Vec::new(rt.alloc());
    push_a_wait_and_a_write(&rt, &mut answers)?;
    let mut link = MemLink::new(rt.alloc(), answers, Vec::new(rt.alloc()), 16, 16)?;
    gives_what_fits(&rt, rt.alloc(), &mut link)
}

fn fails_at_its_second_call(
    rt: &impl Abort,
    alloc: Global,
    link: &mut MemLink,
) -> Result<(), Fail> {
    assert_eq!(rt; link.listen("/tmp/link")?, Done::Done);
    let mut ready = Vec::new(alloc);
    assert_eq!(rt; link.wait(&[], 9, &mut ready)?, Done::Failed);
    assert_eq!(rt; link.wait(&[], 9, &mut ready)?, Done::Done);
    Ok(())
}

#[test]
fn a_link_in_memory_fails_when_told(rt: HostRuntime) -> Result<(), Fail> {
    let fails = [2u64].to_vec(rt.alloc())?;
    let mut link = MemLink::new(rt.alloc(), Vec::new(rt.alloc()), fails, 4, 0)?;
    fails_at_its_second_call(&rt, rt.alloc(), &mut link)
}

fn returns_in_order(rt: &impl Abort, routines: &mut MemRoutines) -> Result<(), Fail> {
    for expected in [7, 0, 0] {
        let act = routines.answer(&moment())?;
        assert!(rt; matches!(act, Act::Ret(value) if value == expected));
    }
    Ok(())
}

#[test]
fn times_and_acts_in_memory_end_with_the_last_time_and_with_0(rt: HostRuntime) -> Result<(), Fail> {
    let mut clock = MemClock::new([3u64, 5].to_vec(rt.alloc())?);
    for expected in [3, 5, 5] {
        assert_eq!(rt; clock.now(), expected);
    }
    let mut acts = Vec::new(rt.alloc());
    acts.push(Act::Ret(7))?;
    let mut routines = MemRoutines::new(acts);
    returns_in_order(&rt, &mut routines)
}

fn moment() -> Moment {
    Moment {
        what: What::Hook,
        object: Obj(1),
        routine: 16,
        user: 0,
        now: 0,
        flags: 0,
        step: 0,
        last: None,
    }
}

#[test]
fn the_clock_of_the_runtime_is_past_2020(rt: HostRuntime) {
    let mut clock = WallClock::new(&rt);
    assert!(rt; clock.now() > 1_577_836_800_000_000);
}
