ghost use Rattle.std.specs.Prelude.{◌≤◌};

use super::*;
use outside::{
    FineSink, FineSource, MemClock, MemLink, MemRoutines, MemSink, MemSource, Sink, Source,
    StdSink, StdSource,
};
use std::process::Abort;
use std::test::Fail;
use tree_specs::Reason;

const CHILDREN: &[u8] =
    b"tv schedule 1 pool\ncall new 0 0 a\ncall new 1 10 b\ncall new 1 20 c\ncall new 1 30 d\ncall free 1\ncall free 1\n";

const CHILDREN_FREED: &[u8] =
    b"tv transcript 1\nreply 1\nreply 2\nreply 3\nreply 4\nfreed 4 0\nfreed 3 0\nfreed 2 0\nfreed 1 0\nreply ok\nreply no 1 1\nend quiet\n";

// A destructor has a report made, and does one more call before it returns.
const REPORTING: &[u8] =
    b"tv schedule 1 pool\ncall new 0 8 a\ncall hook 1 16\ncall free 1\nact report 0\nact total 0\nret 0\n";

const REPORTED: &[u8] =
    b"tv transcript 1\nreply 1\nreply ok\nask hook 1 16 0 0 0 0\nrow 0 0 root 0 0 0 null_context\nrow 1 1 plain 8 0 0 a\nreply rows 2\nask hook 1 16 0 0 0 1\nreply 8\nask hook 1 16 0 0 0 2\naccepted 1\nfreed 1 16\nreply ok\nend quiet\n";

// Two clients connect to the line service, and the first one sends a line, and a part of another.
pub(crate) const CLIENTS: &[u8] =
    b"tv schedule 2 service\nready 0:1\ntook 1\nready 0:1\ntook 2\nready 1:1\ngot 31206e65772030203520610a3220736c65\nwrote 4\n";

const CLIENTS_SERVED: &[u8] =
    b"tv transcript 1\nask wait 30000000\nfired fd 2 1\nask accept 0\nask wait 30000000\nfired fd 2 1\nask accept 0\nask wait 30000000\nfired fd 4 2\nask read 1 4096\nask write 1 3120390a\nend wait 30000000\n";

/// A run: what it answered, wrote and said.
#[derive(Drop)]
struct Answer {
    status: Status,
    out: Vec<u8>,
    err: Vec<u8>,
}

impl Answer {
    fn new(rt: &HostRuntime, status: Status, out: &[u8], err: &[u8]) -> Result<Answer, Fail> {
        Ok(Answer {
            status,
            out: out.to_vec(rt.alloc())?,
            err: err.to_vec(rt.alloc())?,
        })
    }
}

// These words are run over an outside that nobody is to ask.
fn run_alone<S: Source, K: Sink, E: Sink>(
    rt: &HostRuntime,
    words: &[String],
    input: &mut S,
    out: &mut K,
    err: &mut E,
) -> Result<Status, Fail> {
    let mut link = MemLink::new(rt.alloc(), Vec::new(rt.alloc()), Vec::new(rt.alloc()), 0, 0)?;
    let mut clock = MemClock::new(Vec::new(rt.alloc()));
    let mut routines = MemRoutines::new(Vec::new(rt.alloc()));
    Ok(host_main(
        rt.alloc(),
        words,
        input,
        out,
        err,
        &mut link,
        &mut clock,
        &mut routines,
    ))
}

fn word(rt: &HostRuntime, text: &str) -> Result<Vec<String>, Fail> {
    let mut words = Vec::new(rt.alloc());
    words.push(text.to_string(rt.alloc())?)?;
    Ok(words)
}

// What this command does with bytes that come a few at a time, from a source and to a sink that fail at these calls.
fn run_with(
    rt: &HostRuntime,
    command: &str,
    bytes: &[u8],
    most: u32,
    reads_fail: &[u64],
    puts_fail: &[u64],
) -> Result<Answer, Fail>
    requires { 1 ≤ most }
{
    let words = word(rt, command)?;
    let mut input = MemSource::new(
        bytes.to_vec(rt.alloc())?,
        most,
        reads_fail.to_vec(rt.alloc())?,
    );
    let mut out = MemSink::new(rt.alloc(), most, 0, puts_fail.to_vec(rt.alloc())?)?;
    let mut err = FineSink::new(rt.alloc(), 0)?;
    let status = run_alone(rt, &words, &mut input, &mut out, &mut err)?;
    Answer::new(rt, status, out.held(), err.held())
}

// It ended so, and wrote and said these bytes.
fn ends(rt: &impl Abort, told: &Answer, status: Status, out: &[u8], err: &[u8]) {
    assert_eq!(rt; told.status, status);
    assert_eq!(rt; told.out.as_slice(), out, "at {status:?}");
    assert_eq!(rt; told.err.as_slice(), err, "at {status:?}");
}

fn refused(line: u64, reason: Reason) -> Status {
    Status::BadSchedule { line, reason }
}

const NOTHING: &[u8] = b"tv transcript 1\nend quiet\n";

#[test]
fn each_schedule_has_its_transcript_or_its_first_refused_line(rt: HostRuntime) -> Result<(), Fail> {
    let form = Reason::Form;
    let cases = [
        (
            b"tv schedule 1 pool\n".as_slice(),
            Status::Done,
            NOTHING,
            b"".as_slice(),
        ),
        (CHILDREN, Status::Done, CHILDREN_FREED, b""),
        (REPORTING, Status::Done, REPORTED, b""),
        (b"", refused(1, form), b"", b"line 1: form\n"),
        (
            b"tv schedule 1 pool\ncall new 0 0 a\ncall fre",
            refused(3, form),
            b"tv transcript 1\nreply 1\nend quiet\n",
            b"line 3: form\n",
        ),
        (
            b"tv schedule 1 pool\ncall free 01\ncall free 1\n",
            refused(2, form),
            NOTHING,
            b"line 2: form\n",
        ),
        // no destructor runs that could return
        (
            b"tv schedule 1 pool\nret 0\n",
            refused(2, Reason::NotAsked),
            NOTHING,
            b"line 2: not asked\n",
        ),
        (CLIENTS, Status::Done, CLIENTS_SERVED, b""),
        // a service begins its turns itself
        (
            b"tv schedule 1 service\ncall turn\n",
            refused(2, Reason::NotAsked),
            b"tv transcript 1\nend wait 30000000\n",
            b"line 2: not asked\n",
        ),
    ];
    for (bytes, status, out, err) in cases {
        let told = run_with(&rt, "replay", bytes, 4096, &[], &[])?;
        ends(&rt, &told, status, out, err);
    }
    Ok(())
}

// A timer is armed, and a turn fires it.
const TIMED: &[u8] = b"tv schedule 1 pool\ncall timer 0 0 16 1\ncall turn\nret 0\nclock 5\n";

const TIMED_IN_CONTEXT: &[u8] =
    b"tv schedule 2 pool\ncall timer 0 0 16 1 0\ncall turn 0\nret 0\nclock 5\n";

const TIMED_FIRED: &[u8] =
    b"tv transcript 1\nreply 1\nfired timer 1 16\nask timer 1 16 1 0 0 0\nfreed 1 0\nreply 1\nend quiet\n";

#[test]
fn a_schedule_is_converted_and_replays_as_before(rt: HostRuntime) -> Result<(), Fail> {
    for bytes in [TIMED, TIMED_IN_CONTEXT] {
        let converted = run_with(&rt, "convert", bytes, 7, &[], &[])?;
        ends(&rt, &converted, Status::Done, TIMED_IN_CONTEXT, b"");
        let replayed = run_with(&rt, "replay", bytes, 7, &[], &[])?;
        let late = refused(5, Reason::NotAsked);
        ends(&rt, &replayed, late, TIMED_FIRED, b"line 5: not asked\n");
    }
    Ok(())
}

#[test]
fn a_conversion_ends_at_a_line_of_the_other_version(rt: HostRuntime) -> Result<(), Fail> {
    let cases = [
        (
            b"tv schedule 1 pool\ncall turn\ncall turn 0\ncall turn\n".as_slice(),
            refused(3, Reason::Form),
            b"tv schedule 2 pool\ncall turn 0\n".as_slice(),
            b"line 3: form\n".as_slice(),
        ),
        (
            b"tv schedule 2 pool\ncall turn\n",
            refused(2, Reason::Form),
            b"tv schedule 2 pool\n",
            b"line 2: form\n",
        ),
        (
            b"tv schedule 3 pool\n",
            refused(1, Reason::Form),
            b"",
            b"line 1: form\n",
        ),
    ];
    for (bytes, status, out, err) in cases {
        let told = run_with(&rt, "convert", bytes, 4096, &[], &[])?;
        ends(&rt, &told, status, out, err);
    }
    Ok(())
}

#[test]
fn takes_bytes_one_by_one(rt: HostRuntime) -> Result<(), Fail> {
    let told = run_with(&rt, "replay", CHILDREN, 1, &[], &[])?;
    ends(&rt, &told, Status::Done, CHILDREN_FREED, b"");
    Ok(())
}

#[test]
fn refuses_a_line_past_the_limit(rt: HostRuntime) -> Result<(), Fail> {
    let mut bytes = b"tv schedule 1 pool\n".as_slice().to_vec(rt.alloc())?;
    bytes.resize(19 + 262_145, b'x')?;
    let told = run_with(&rt, "replay", &bytes, 4096, &[], &[])?;
    ends(
        &rt,
        &told,
        refused(2, Reason::Limit),
        NOTHING,
        b"line 2: limit\n",
    );
    Ok(())
}

#[test]
fn a_fault_leaves_what_whole_lines_tell(rt: HostRuntime) -> Result<(), Fail> {
    let at_once = run_with(&rt, "replay", CHILDREN, 4096, &[1], &[])?;
    ends(&rt, &at_once, Status::ReadFault, b"", b"read fault\n");
    let later = run_with(&rt, "replay", CHILDREN, 20, &[3], &[])?;
    let whole = b"tv transcript 1\nreply 1\n";
    ends(&rt, &later, Status::ReadFault, whole, b"read fault\n");
    let unwritten = run_with(&rt, "replay", CHILDREN, 4096, &[], &[1])?;
    ends(&rt, &unwritten, Status::WriteFault, b"", b"write fault\n");
    Ok(())
}

fn broken(line: u64, rule: u32) -> Status {
    Status::Broken { line, rule }
}

#[test]
fn each_transcript_is_orderly_or_has_its_first_flaw(rt: HostRuntime) -> Result<(), Fail> {
    let cases = [
        (
            NOTHING,
            Status::Done,
            b"orderly 2\n".as_slice(),
            b"".as_slice(),
        ),
        (CHILDREN_FREED, Status::Done, b"orderly 12\n", b""),
        (REPORTED, Status::Done, b"orderly 14\n", b""),
        (b"", broken(1, 0), b"", b"line 1: form\n"),
        (CHILDREN, broken(1, 0), b"", b"line 1: form\n"),
        (
            b"tv transcript 1\nend qui",
            broken(2, 0),
            b"",
            b"line 2: form\n",
        ),
        (
            b"tv transcript 1\naccepted 4\nfreed 4 16\nfired timer 4 16\nend quiet\n",
            broken(4, 3),
            b"",
            b"line 4: rule 3\n",
        ),
    ];
    for (bytes, status, out, err) in cases {
        let told = run_with(&rt, "audit", bytes, 4096, &[], &[])?;
        ends(&rt, &told, status, out, err);
    }
    Ok(())
}

#[test]
fn a_fault_leaves_a_front_of_what_an_audit_writes(rt: HostRuntime) -> Result<(), Fail> {
    let unread = run_with(&rt, "audit", NOTHING, 16, &[2], &[])?;
    ends(&rt, &unread, Status::ReadFault, b"", b"read fault\n");
    let unwritten = run_with(&rt, "audit", NOTHING, 8, &[], &[2])?;
    ends(
        &rt,
        &unwritten,
        Status::WriteFault,
        b"orderly ",
        b"write fault\n",
    );
    Ok(())
}

// A run of these words: what it answered, wrote and said.
fn run_words(rt: &HostRuntime, texts: &[&str]) -> Result<Answer, Fail> {
    let mut words = Vec::new(rt.alloc());
    for text in texts {
        words.push(text.to_string(rt.alloc())?)?;
    }
    let mut input = FineSource::new(CHILDREN.to_vec(rt.alloc())?);
    let mut out = FineSink::new(rt.alloc(), 0)?;
    let mut err = FineSink::new(rt.alloc(), 0)?;
    let status = run_alone(rt, &words, &mut input, &mut out, &mut err)?;
    Answer::new(rt, status, out.held(), err.held())
}

const UNKNOWN: &[u8] = b"error: unrecognized subcommand 'replays'

  tip: a similar subcommand exists: 'replay'

Usage: tvhost <COMMAND>

For more information, try '--help'.
";

#[test]
fn other_words_are_refused_with_what_to_type(rt: HostRuntime) -> Result<(), Fail> {
    let told = run_words(&rt, &["replays"])?;
    ends(&rt, &told, Status::Usage, b"", UNKNOWN);
    let none = run_words(&rt, &[])?;
    assert_eq!(rt; none.status, Status::Usage);
    let short = run_words(&rt, &["load", "1"])?;
    assert_eq!(rt; short.status, Status::Usage);
    Ok(())
}

#[test]
fn loads_a_schedule_made_from_a_number(rt: HostRuntime) -> Result<(), Fail> {
    let told = run_words(&rt, &["load", "1", "4"])?;
    let lines = b"calls 4\nrefused 2\nfreed 0\ndropped 0\nlive 2\n";
    ends(&rt, &told, Status::Done, lines, b"");
    Ok(())
}

#[test]
fn a_fault_of_what_is_said_changes_no_status(rt: HostRuntime) -> Result<(), Fail> {
    let words = word(&rt, "replay")?;
    let mut input = MemSource::new(Vec::new(rt.alloc()), 4096, Vec::new(rt.alloc()));
    let mut out = FineSink::new(rt.alloc(), 0)?;
    let mut err = MemSink::new(rt.alloc(), 4, 0, [2u64].to_vec(rt.alloc())?)?;
    let status = run_alone(&rt, &words, &mut input, &mut out, &mut err)?;
    assert_eq!(rt;
        status,
        Status::BadSchedule {
            line: 1,
            reason: Reason::Form
        }
    );
    assert_eq!(rt; err.held(), b"line".as_slice());
    Ok(())
}

#[test]
fn replays_from_a_reader_to_a_writer(rt: HostRuntime) -> Result<(), Fail> {
    let words = word(&rt, "replay")?;
    let mut written = Vec::new(rt.alloc());
    let mut said = Vec::new(rt.alloc());
    let mut input = StdSource::new(CHILDREN);
    let mut out = StdSink::new(&mut written);
    let mut err = StdSink::new(&mut said);
    let status = run_alone(&rt, &words, &mut input, &mut out, &mut err)?;
    assert_eq!(rt; status, Status::Done);
    assert_eq!(rt; written.as_slice(), CHILDREN_FREED);
    assert_eq!(rt; said.len(), 0);
    Ok(())
}
