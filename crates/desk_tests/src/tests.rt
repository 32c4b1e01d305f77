ghost use Rattle.std.specs.Prelude.{IsTrue};
ghost use Rattle.tree_specs.specs.Words.Ranges.{is_sound_call};

use service_desk::{Desk, Front};
use service_rules::{Serving, Task};
use std::alloc::Global;
use std::process::Abort;
use std::test::Fail;
use text_forms::write_call;
use tree_specs::{Call, Event, Moment, Obj, Octets, Reply, What};

// The session of the tests, its event and a request of it.
const SESSION: Obj = Obj(3);

const EVENT: Obj = Obj(4);

const REQUEST: Obj = Obj(9);

// The routine of the listener is asked.
fn listening(last: Option<Reply>) -> Moment {
    Moment {
        what: What::Descriptor,
        object: Obj(2),
        routine: 1,
        user: 0,
        now: 0,
        flags: 1,
        step: 0,
        last,
    }
}

// That of the connection's event is asked.
fn serving(last: Option<Reply>) -> Moment {
    Moment {
        what: What::Descriptor,
        object: EVENT,
        routine: 2,
        user: SESSION.0,
        now: 0,
        flags: 1,
        step: 0,
        last,
    }
}

// That of the request's callback is asked.
fn notifying(last: Option<Reply>) -> Moment {
    Moment {
        what: What::Callback,
        object: REQUEST,
        routine: 3,
        user: SESSION.0,
        now: 0,
        flags: 0,
        step: 0,
        last,
    }
}

// The call has this text in version 2.
fn is_written(rt: &impl Abort, alloc: Global, call: &Call, want: &str) -> Result<(), Fail>
    requires { IsTrue (is_sound_call call.now) }
{
    let mut text = Vec::new(alloc);
    write_call(call, &mut text)?;
    assert_eq!(rt; text.as_slice(), want.as_bytes());
    Ok(())
}

// What is due does this call.
fn does(rt: &impl Abort, alloc: Global, desk: &mut Desk, want: &str) -> Result<(), Fail> {
    let due = desk.due().ok_or("nothing is due")?;
    let call = desk.call(due)?.ok_or("nothing is called")?;
    is_written(rt, alloc, &call, want)?;
    desk.reserve_run()?;
    desk.called(due);
    Ok(())
}

// The routine that is asked at this moment does this call.
fn calls(
    rt: &impl Abort,
    alloc: Global,
    desk: &mut Desk,
    moment: Moment,
    want: &str,
) -> Result<(), Fail> {
    desk.ask(&moment)?;
    does(rt, alloc, desk, want)
}

// The routine that is asked at this moment returns.
fn returns(rt: &impl Abort, desk: &mut Desk, moment: Moment) -> Result<(), Fail> {
    desk.ask(&moment)?;
    let due = desk.due().ok_or("nothing is due")?;
    assert!(rt; desk.call(due)?.is_none());
    desk.returned();
    assert!(rt; desk.due().is_none());
    Ok(())
}

// The routine that is asked at this moment does the lines of the session.
fn does_lines(rt: &impl Abort, desk: &mut Desk, moment: Moment) -> Result<(), Fail> {
    desk.ask(&moment)?;
    let due = desk.due().ok_or("nothing is due")?;
    let lines = matches!(
        due,
        Task::Serve {
            session: SESSION,
            at: Serving::Lines
        }
    );
    assert!(rt; lines);
    Ok(())
}

// The session connects, with the descriptor 5.
fn connects(rt: &impl Abort, alloc: Global, desk: &mut Desk) -> Result<(), Fail> {
    calls(rt, alloc, desk, listening(None), "accept 0")?;
    let accepted = listening(Some(Reply::Number(5)));
    calls(rt, alloc, desk, accepted, "new 1 0 session")?;
    let made = listening(Some(Reply::Number(SESSION.0)));
    calls(rt, alloc, desk, made, "fd 3 5 1 2 3 0")?;
    let watched = listening(Some(Reply::Number(EVENT.0)));
    calls(rt, alloc, desk, watched, "autoclose 4")?;
    calls(rt, alloc, desk, listening(Some(Reply::Ok)), "queue 3 jobs")?;
    returns(rt, desk, listening(Some(Reply::Number(6))))
}

// These bytes are read.
fn reads(rt: &impl Abort, alloc: Global, desk: &mut Desk, bytes: &[u8]) -> Result<(), Fail> {
    calls(rt, alloc, desk, serving(None), "read 5 4096")?;
    let octets = Octets::make(Vec::from_slice(alloc, bytes)?).ok_or("no bytes")?;
    does_lines(rt, desk, serving(Some(Reply::Bytes(octets))))
}

// The line in front is answered, which names this object and may not.
fn refuses(rt: &impl Abort, desk: &mut Desk, want: u32, x: Obj) -> Result<(), Fail> {
    match desk.front(SESSION)? {
        Front::Order { length, tag, .. } => {
            assert_eq!(rt; tag, want);
            desk.refuse_name(SESSION, length, tag, x)?;
            Ok(())
        }
        _ => Err("no order".into()),
    }
}

// The line in front asks for this call.
fn orders(rt: &impl Abort, alloc: Global, desk: &mut Desk, want: &str) -> Result<(), Fail> {
    match desk.front(SESSION)? {
        Front::Order { length, tag, order } => {
            let (call, at) = desk.order_call(SESSION, order);
            is_written(rt, alloc, &call, want)?;
            desk.reserve_run()?;
            desk.line_called(SESSION, length, tag, at);
            Ok(())
        }
        _ => Err("no order".into()),
    }
}

// The line in front is answered at once.
fn answers(rt: &impl Abort, desk: &mut Desk) -> Result<(), Fail> {
    assert!(rt; matches!(desk.front(SESSION)?, Front::Done));
    Ok(())
}

// No line is left.
fn ends_lines(desk: &mut Desk) -> Result<(), Fail> {
    match desk.front(SESSION)? {
        Front::Missing => {
            desk.lines_done(SESSION);
            Ok(())
        }
        _ => Err("a line is left".into()),
    }
}

// The connection is kept until the session is freed.
fn is_kept(rt: &impl Abort, alloc: Global, desk: &mut Desk) -> Result<(), Fail> {
    connects(rt, alloc, desk)?;
    assert!(rt; desk.connection(SESSION).is_some());
    let freed = Event::Freed {
        object: SESSION,
        hook: 0,
    };
    assert!(rt; desk.shows(&freed));
    desk.hear_event(&freed);
    assert!(rt; desk.connection(SESSION).is_none());
    Ok(())
}

#[test]
fn keeps_whoever_connects(rt: HostRuntime) -> Result<(), Fail> {
    let mut desk = Desk::new(rt.alloc());
    is_kept(&rt, rt.alloc(), &mut desk)
}

// The session connects, three lines come, and are answered in their order.
fn does_three_lines(rt: &impl Abort, alloc: Global, desk: &mut Desk) -> Result<(), Fail> {
    connects(rt, alloc, desk)?;
    reads(rt, alloc, desk, b"7 free 0\nx\n8 total 0\n")?;
    refuses(rt, desk, 7, Obj(0))?;
    answers(rt, desk)?;
    orders(rt, alloc, desk, "total 3")?;
    does_lines(rt, desk, serving(Some(Reply::Number(0))))?;
    ends_lines(desk)?;
    // The text of "7 no 1 0", "- form" and "8 0", each with its LF.
    let text = "write 5 37206e6f203120300a2d20666f726d0a3820300a";
    does(rt, alloc, desk, text)?;
    returns(rt, desk, serving(Some(Reply::Number(20))))
}

#[test]
fn answers_lines_in_their_order(rt: HostRuntime) -> Result<(), Fail> {
    let mut desk = Desk::new(rt.alloc());
    does_three_lines(&rt, rt.alloc(), &mut desk)
}

// A sleep begins.
fn falls_asleep(rt: &impl Abort, alloc: Global, desk: &mut Desk) -> Result<(), Fail> {
    reads(rt, alloc, desk, b"8 sleep 5\n")?;
    orders(rt, alloc, desk, "req 3 0 sleep")?;
    let made = serving(Some(Reply::Number(REQUEST.0)));
    calls(rt, alloc, desk, made, "now")?;
    let told = serving(Some(Reply::Number(100)));
    calls(rt, alloc, desk, told, "endtime 9 105 0")?;
    calls(rt, alloc, desk, serving(Some(Reply::Ok)), "callback 9 3 3")?;
    does_lines(rt, desk, serving(Some(Reply::Ok)))?;
    ends_lines(desk)
}

// It is over, and its line is answered.
fn wakes(rt: &impl Abort, alloc: Global, desk: &mut Desk) -> Result<(), Fail> {
    calls(rt, alloc, desk, notifying(None), "iserror 9")?;
    let ended = notifying(Some(Reply::Pair(4, 0)));
    calls(rt, alloc, desk, ended, "received 9")?;
    calls(rt, alloc, desk, notifying(Some(Reply::Ok)), "free 9")?;
    calls(rt, alloc, desk, notifying(Some(Reply::Ok)), "flags 4 3")?;
    returns(rt, desk, notifying(Some(Reply::Ok)))
}

// It begins, and is over.
fn sleeps(rt: &impl Abort, alloc: Global, desk: &mut Desk) -> Result<(), Fail> {
    connects(rt, alloc, desk)?;
    falls_asleep(rt, alloc, desk)?;
    wakes(rt, alloc, desk)
}

#[test]
fn answers_a_sleep_when_it_is_over(rt: HostRuntime) -> Result<(), Fail> {
    let mut desk = Desk::new(rt.alloc());
    sleeps(&rt, rt.alloc(), &mut desk)
}

// A reply is shown while a routine of the outside runs.
fn shows_while_open(rt: &impl Abort, desk: &mut Desk, replied: &Event) -> Result<(), Fail> {
    assert!(rt; !desk.shows(replied));
    desk.reserve_run()?;
    desk.open_outside();
    assert!(rt; desk.shows(replied));
    desk.close_run();
    assert!(rt; !desk.shows(replied));
    Ok(())
}

#[test]
fn shows_the_replies_of_the_outside(rt: HostRuntime) -> Result<(), Fail> {
    let mut desk = Desk::new(rt.alloc());
    shows_while_open(&rt, &mut desk, &Event::Replied(Reply::Ok))
}
