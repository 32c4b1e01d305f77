//! What each kind of failing end leaves of a replay.
use host_app::{Status, host_main};
use outside::{MemClock, MemLink, MemRoutines, MemSink, MemSource};
use std::alloc::Global;
use std::process::Abort;
use std::test::Fail;
use tree_specs::Reason;

mod schedules;
mod transcripts;

use schedules::{
    CHILD_REFUSES, EACH_OTHER, Exchange, HEIR_INSIDE, OWNER_FREED, REQUESTS, TWO_CLIENTS,
};
use transcripts::{Transcript, schedule, whole_lines};

/// How many bytes a read gives.
const READ_LEN: u32 = 7;

/// The calls that fail, counted from 1, of the ends that a replay is run over.
#[derive(Clone, Copy)]
struct Failing<'a> {
    reads: &'a [u64],
    puts: &'a [u64],
    says: &'a [u64],
}

/// No call fails.
const NONE: Failing<'static> = Failing {
    reads: &[],
    puts: &[],
    says: &[],
};

/// What a replay answered, wrote and said.
#[derive(Drop)]
struct Answer {
    status: Status,
    out: MemSink,
    err: MemSink,
}

// Bytes are read a few at a time, and each put takes one.
fn replays(alloc: Global, bytes: &[u8], failing: Failing) -> Result<Answer, Fail> {
    let words = ["replay".to_string(alloc)?];
    let mut input = MemSource::new(bytes.to_vec(alloc)?, READ_LEN, failing.reads.to_vec(alloc)?);
    let mut out = MemSink::new(alloc, 1, 0, failing.puts.to_vec(alloc)?)?;
    let mut err = MemSink::new(alloc, 1, 0, failing.says.to_vec(alloc)?)?;
    let mut link = MemLink::new(alloc, Vec::new(alloc), Vec::new(alloc), 0, 0)?;
    let mut clock = MemClock::new(Vec::new(alloc));
    let mut routines = MemRoutines::new(Vec::new(alloc));
    let status = host_main(
        alloc,
        &words,
        &mut input,
        &mut out,
        &mut err,
        &mut link,
        &mut clock,
        &mut routines,
    );
    Ok(Answer { status, out, err })
}

// A replay ended so, and wrote and said these bytes.
fn ends(rt: &impl Abort, answer: &Answer, status: Status, out: &[u8], err: &[u8]) {
    assert_eq!(rt; answer.status, status);
    assert_eq!(rt; answer.out.held(), out, "at {status:?}");
    assert_eq!(rt; answer.err.held(), err, "at {status:?}");
}

// The transcript of the first lines of a table, as it is where the schedule ends behind them.
fn ended(alloc: Global, table: &[Exchange], lines: usize) -> Result<Transcript, Fail> {
    let mut transcript = Transcript::of(alloc, table, lines)?;
    transcript.end()?;
    Ok(transcript)
}

// The schedules whose reads and puts fail.
const TABLES: [&[Exchange]; 5] = [
    CHILD_REFUSES,
    EACH_OTHER,
    HEIR_INSIDE,
    REQUESTS,
    TWO_CLIENTS,
];

// Each read fails in turn, up to the one that would find the end.
fn fails_each_read(rt: &impl Abort, alloc: Global, table: &[Exchange]) -> Result<(), Fail> {
    let bytes = schedule(alloc, table, table.len())?;
    for before in 0..=bytes.len().div_ceil(READ_LEN as usize) {
        let given = before.saturating_mul(READ_LEN as usize).min(bytes.len());
        let told = Transcript::of(alloc, table, whole_lines(&bytes[..given]))?;
        let failing = Failing {
            reads: &[(before as u64).saturating_add(1)],
            ..NONE
        };
        let answer = replays(alloc, &bytes, failing)?;
        ends(rt, &answer, Status::ReadFault, told.text(), b"read fault\n");
    }
    Ok(())
}

#[test]
fn each_read_that_fails_leaves_what_whole_lines_tell(rt: HostRuntime) -> Result<(), Fail> {
    for table in TABLES {
        fails_each_read(&rt, rt.alloc(), table)?;
    }
    Ok(())
}

// Each put fails in turn, and each takes one byte. At last none does.
fn fails_each_put(rt: &impl Abort, alloc: Global, table: &[Exchange]) -> Result<(), Fail> {
    let bytes = schedule(alloc, table, table.len())?;
    let transcript = ended(alloc, table, table.len())?;
    let whole = transcript.text();
    for before in 0..whole.len() {
        let failing = Failing {
            puts: &[(before as u64).saturating_add(1)],
            ..NONE
        };
        let answer = replays(alloc, &bytes, failing)?;
        ends(
            rt,
            &answer,
            Status::WriteFault,
            &whole[..before],
            b"write fault\n",
        );
    }
    let answer = replays(alloc, &bytes, NONE)?;
    ends(rt, &answer, Status::Done, whole, b"");
    Ok(())
}

#[test]
fn each_put_that_fails_leaves_what_was_put_before(rt: HostRuntime) -> Result<(), Fail> {
    for table in TABLES {
        fails_each_put(&rt, rt.alloc(), table)?;
    }
    Ok(())
}

#[test]
fn a_schedule_that_is_cut_ends_with_a_line_or_is_refused_there(
    rt: HostRuntime,
) -> Result<(), Fail> {
    let bytes = schedule(rt.alloc(), OWNER_FREED, OWNER_FREED.len())?;
    for cut in 0..=bytes.len() {
        let front = &bytes[..cut];
        let answer = replays(rt.alloc(), front, NONE)?;
        cut_ends(&rt, rt.alloc(), front, &answer)?;
    }
    Ok(())
}

// The answer to the front of a schedule whose lines are all right.
fn cut_ends(rt: &impl Abort, alloc: Global, front: &[u8], answer: &Answer) -> Result<(), Fail> {
    let lines = whole_lines(front);
    let told = ended(alloc, OWNER_FREED, lines)?;
    if front.last() == Some(&b'\n') {
        ends(rt, answer, Status::Done, told.text(), b"");
        return Ok(());
    }
    let line = (lines as u64).saturating_add(1);
    let status = Status::BadSchedule {
        line,
        reason: Reason::Form,
    };
    let said = format!(in alloc; "line {line}: form\n")?;
    let out = if lines == 0 {
        b"".as_slice()
    } else {
        told.text()
    };
    ends(rt, answer, status, out, said.as_bytes());
    Ok(())
}

// What comes of a `fault` in the place of each line of the two clients' schedule that tells of a connection's bytes or end,
// and the question that is open then. The connection's session is freed, with all that is inside.
const FAULTS: &[(&str, &str)] = &[
    // nothing was made yet
    (
        "freed 5 0\nclosed 1\nmoved 4 1\nfreed 3 0\nfreed 4 0\n",
        "wait 30000000",
    ),
    (
        "freed 9 0\nfreed 5 0\nclosed 1\nmoved 4 1\nfreed 3 0\nfreed 4 0\n",
        "wait 30000000",
    ),
    (
        "freed 9 0\nfreed 5 0\nclosed 1\nmoved 4 1\nfreed 3 0\nfreed 4 0\n",
        "wait 30000000",
    ),
    // the first client sleeps, and its object has a destructor
    ("state 10 6\nfreed 11 0\nfreed 10 0\n", "hook 9 17 0 0 0 0"),
    // it is the second client's connection, and the first one's sleep is the next that comes
    (
        "freed 8 0\nclosed 2\nmoved 7 1\nfreed 6 0\nfreed 7 0\n",
        "clock",
    ),
    (
        "freed 8 0\nclosed 2\nmoved 7 1\nfreed 6 0\nfreed 7 0\n",
        "clock",
    ),
    ("", "hook 9 17 0 0 0 0"),
    ("", "hook 9 17 0 0 0 0"),
    (
        "freed 8 0\nclosed 2\nmoved 7 1\nfreed 6 0\nfreed 7 0\n",
        "wait 30000000",
    ),
    // the second client sleeps
    (
        "state 13 6\nfreed 14 0\nfreed 13 0\nfreed 8 0\nclosed 2\nmoved 7 1\nfreed 6 0\nfreed 7 0\n",
        "wait 30000000",
    ),
];

// The connection fails in the place of the line behind the first ones of the two clients' schedule, which ends there.
fn fails_at(
    rt: &impl Abort,
    alloc: Global,
    lines: usize,
    told: &str,
    question: &'static str,
) -> Result<(), Fail> {
    let mut bytes = schedule(alloc, TWO_CLIENTS, lines)?;
    bytes.extend_from_slice(b"fault\n")?;
    let mut transcript = Transcript::of(alloc, TWO_CLIENTS, lines)?;
    transcript.add(told, question)?;
    transcript.end()?;
    let answer = replays(alloc, &bytes, NONE)?;
    ends(rt, &answer, Status::Done, transcript.text(), b"");
    Ok(())
}

// Whether a line tells of a connection's bytes or end.
fn is_of_connection(line: &str) -> bool {
    line.starts_with("got ") || line.starts_with("wrote ") || line == "end"
}

#[test]
fn a_connection_that_fails_is_freed_with_its_session(rt: HostRuntime) -> Result<(), Fail> {
    let mut faults = FAULTS.iter();
    for (before, (line, _, _)) in TWO_CLIENTS.iter().enumerate() {
        if is_of_connection(line) {
            let (told, question) = faults.next().expect(&rt, "a fault for each line");
            fails_at(&rt, rt.alloc(), before, told, question)?;
        }
    }
    assert!(rt; faults.next().is_none(), "a line for each fault");
    Ok(())
}

// Each byte that is said of a refused line fails in turn. At last none does.
fn fails_each_say(
    rt: &impl Abort,
    alloc: Global,
    bytes: &[u8],
    status: Status,
    out: &[u8],
    said: &[u8],
) -> Result<(), Fail> {
    for before in 0..said.len() {
        let failing = Failing {
            says: &[(before as u64).saturating_add(1)],
            ..NONE
        };
        let answer = replays(alloc, bytes, failing)?;
        ends(rt, &answer, status, out, &said[..before]);
    }
    let answer = replays(alloc, bytes, NONE)?;
    ends(rt, &answer, status, out, said);
    Ok(())
}

fn refused(line: u64, reason: Reason) -> Status {
    Status::BadSchedule { line, reason }
}

const NOTHING: &[u8] = b"tv transcript 1\nend quiet\n";

#[test]
fn a_fault_of_what_is_said_leaves_the_line_refused(rt: HostRuntime) -> Result<(), Fail> {
    let cases = [
        (
            b"".as_slice(),
            refused(1, Reason::Form),
            b"".as_slice(),
            b"line 1: form\n".as_slice(),
        ),
        (
            b"tv schedule 1 pool\ncall new 0 0 a\ncall fre",
            refused(3, Reason::Form),
            b"tv transcript 1\nreply 1\nend quiet\n",
            b"line 3: form\n",
        ),
        (
            b"tv schedule 1 pool\ncall new 0 01 a\n",
            refused(2, Reason::Form),
            NOTHING,
            b"line 2: form\n",
        ),
        (
            b"tv schedule 1 pool\nret 0\n",
            refused(2, Reason::NotAsked),
            NOTHING,
            b"line 2: not asked\n",
        ),
        (
            b"tv schedule 1 pool\ncall turn\nready 0:4\n",
            refused(3, Reason::Form),
            b"tv transcript 1\nend wait 30000000\n",
            b"line 3: form\n",
        ),
        (
            b"tv schedule 1 pool\ncall accept 0\ntook 5\ncall accept 0\ntook 5\n",
            refused(5, Reason::Token),
            b"tv transcript 1\nask accept 0\nreply 5\nend accept 0\n",
            b"line 5: token\n",
        ),
    ];
    for (bytes, status, out, said) in cases {
        fails_each_say(&rt, rt.alloc(), bytes, status, out, said)?;
    }
    Ok(())
}

#[test]
fn a_fault_of_what_is_said_leaves_a_long_line_refused(rt: HostRuntime) -> Result<(), Fail> {
    let mut bytes = b"tv schedule 1 pool\n".as_slice().to_vec(rt.alloc())?;
    bytes.resize(19 + 262_145, b'x')?;
    let status = refused(2, Reason::Limit);
    fails_each_say(&rt, rt.alloc(), &bytes, status, NOTHING, b"line 2: limit\n")
}
