//! Tests of `serve PATH ANSWERS` over ends in memory.
use super::*;
use crate::tests::CLIENTS;
use outside::{FineSink, FineSource, MemClock, MemLink, MemRoutines, MemSink};
use std::process::Abort;
use std::test::Fail;
use tree_specs::{Input, Octets, Want, Wants};

fn serve_words(rt: &HostRuntime, answers: &str) -> Result<Vec<String>, Fail> {
    let mut words = Vec::new(rt.alloc());
    for text in ["serve", "p", answers] {
        words.push(text.to_string(rt.alloc())?)?;
    }
    Ok(words)
}

fn ready(rt: &HostRuntime, list: &[Want]) -> Result<Input, Fail> {
    match Wants::make(list.to_vec(rt.alloc())?) {
        Some(wants) => Ok(Input::Ready(wants)),
        None => Ok(Input::Again),
    }
}

fn got(rt: &HostRuntime, bytes: &[u8]) -> Result<Input, Fail> {
    match Octets::make(bytes.to_vec(rt.alloc())?) {
        Some(octets) => Ok(Input::Got(octets)),
        None => Ok(Input::Again),
    }
}

// One client connects, and nothing comes after it.
fn one_connects(rt: &HostRuntime, answers: &mut Vec<Input>) -> Result<(), Fail> {
    answers.push(ready(rt, &[Want { fd: 0, flags: 1 }])?)?;
    answers.push(Input::Took(1))?;
    answers.push(ready(rt, &[])?)?;
    Ok(())
}

// Two clients connect, and the first one sends a line, and a part of another.
fn two_connect(rt: &HostRuntime, answers: &mut Vec<Input>) -> Result<(), Fail> {
    answers.push(ready(rt, &[Want { fd: 0, flags: 1 }])?)?;
    answers.push(Input::Took(1))?;
    answers.push(ready(rt, &[Want { fd: 0, flags: 1 }])?)?;
    answers.push(Input::Took(2))?;
    answers.push(ready(rt, &[Want { fd: 1, flags: 1 }])?)?;
    answers.push(got(rt, b"1 new 0 5 a\n2 sle")?)?;
    answers.push(Input::Wrote(4))?;
    Ok(())
}

// A service is run over a link and a sink.
fn serves(
    rt: &HostRuntime,
    answers: &str,
    link: &mut MemLink,
    out: &mut MemSink,
    err: &mut FineSink,
) -> Result<Status, Fail> {
    let words = serve_words(rt, answers)?;
    let mut input = FineSource::new(Vec::new(rt.alloc()));
    let mut clock = MemClock::new(Vec::new(rt.alloc()));
    let mut routines = MemRoutines::new(Vec::new(rt.alloc()));
    Ok(host_main(
        rt.alloc(),
        &words,
        &mut input,
        out,
        err,
        link,
        &mut clock,
        &mut routines,
    ))
}

// It put this record, and said this.
fn ends(rt: &impl Abort, out: &MemSink, record: &[u8], err: &FineSink, said: &[u8]) {
    assert_eq!(rt; out.held(), record);
    assert_eq!(rt; err.held(), said);
}

#[test]
fn answers_are_put_on_record(rt: HostRuntime) -> Result<(), Fail> {
    let mut answers = Vec::new(rt.alloc());
    one_connects(&rt, &mut answers)?;
    let mut link = MemLink::new(rt.alloc(), answers, Vec::new(rt.alloc()), 8, 0)?;
    let mut out = MemSink::new(rt.alloc(), 4096, 0, Vec::new(rt.alloc()))?;
    let mut err = FineSink::new(rt.alloc(), 0)?;
    assert_eq!(rt;
        serves(&rt, "3", &mut link, &mut out, &mut err)?,
        Status::Done
    );
    let record = b"tv schedule 2 service\nready 0:1\ntook 1\nready\n";
    ends(&rt, &out, record, &err, b"");
    Ok(())
}

// That the record of this schedule replays to its transcript is a test of the replay.
#[test]
fn the_record_is_the_schedule_of_its_answers(rt: HostRuntime) -> Result<(), Fail> {
    let mut answers = Vec::new(rt.alloc());
    two_connect(&rt, &mut answers)?;
    let mut link = MemLink::new(rt.alloc(), answers, Vec::new(rt.alloc()), 16, 16)?;
    let mut out = MemSink::new(rt.alloc(), 4096, 0, Vec::new(rt.alloc()))?;
    let mut err = FineSink::new(rt.alloc(), 0)?;
    assert_eq!(rt;
        serves(&rt, "7", &mut link, &mut out, &mut err)?,
        Status::Done
    );
    ends(&rt, &out, CLIENTS, &err, b"");
    Ok(())
}

// What came of a service whose listening or wait fails, which is the link's call of this number.
#[derive(Drop)]
struct Failed {
    status: Status,
    out: MemSink,
    err: FineSink,
}

fn fails_at(rt: &HostRuntime, call: u64) -> Result<Failed, Fail> {
    let mut answers = Vec::new(rt.alloc());
    one_connects(rt, &mut answers)?;
    let mut link = MemLink::new(rt.alloc(), answers, [call].to_vec(rt.alloc())?, 8, 0)?;
    let mut out = MemSink::new(rt.alloc(), 4096, 0, Vec::new(rt.alloc()))?;
    let mut err = FineSink::new(rt.alloc(), 0)?;
    let status = serves(rt, "3", &mut link, &mut out, &mut err)?;
    Ok(Failed { status, out, err })
}

#[test]
fn a_link_that_fails_ends_it(rt: HostRuntime) -> Result<(), Fail> {
    let header = b"tv schedule 2 service\n".as_slice();
    let one = b"tv schedule 2 service\nready 0:1\ntook 1\n".as_slice();
    for (call, record) in [(1, b"".as_slice()), (2, header), (3, one)] {
        let failed = fails_at(&rt, call)?;
        assert_eq!(rt; failed.status, Status::LinkFault);
        ends(&rt, &failed.out, record, &failed.err, b"link fault\n");
    }
    Ok(())
}

#[test]
fn a_sink_that_fails_ends_it(rt: HostRuntime) -> Result<(), Fail> {
    let mut answers = Vec::new(rt.alloc());
    one_connects(&rt, &mut answers)?;
    let mut link = MemLink::new(rt.alloc(), answers, Vec::new(rt.alloc()), 8, 0)?;
    let mut out = MemSink::new(rt.alloc(), 4096, 0, [2u64].to_vec(rt.alloc())?)?;
    let mut err = FineSink::new(rt.alloc(), 0)?;
    assert_eq!(rt;
        serves(&rt, "3", &mut link, &mut out, &mut err)?,
        Status::WriteFault
    );
    ends(
        &rt,
        &out,
        b"tv schedule 2 service\n",
        &err,
        b"write fault\n",
    );
    Ok(())
}
