//! Tests of the loop: a small machine over ends in memory.
ghost use Rattle.std.specs.Prelude.{◌≡◌, ℕ, Bool, None, List};
ghost use Rattle.tree_specs.specs.declared.question.Ask.TheVariants as ask;
ghost use Rattle.serving.specs.Doorman.{listener, door_course, door_question, due_after as due_is};

use super::*;
use host_core::OfferFault;
use outside::{MemClock, MemLink, MemRoutines, MemSink};
use std::alloc::Global;
use std::process::Abort;
use std::test::Fail;
use tree_specs::{Ask, Event, Input, Memory, Want, Wants};

// It waits for its listener and accepts in turn, and closes at once what it has accepted.
#[derive(Drop)]
struct Doorman {
    wait: Ask,
    accept: Ask,
    waits: bool,
    due: Option<u32>,
    ghost wait_is: { wait ≡ ask.Wait 5 },
    ghost accept_is: { accept ≡ ask.Accept 0 },
}

impl Doorman {
    fn new() -> Doorman
        ensures { result.due ≡ None }
    {
        Doorman {
            wait: Ask::Wait(5),
            accept: Ask::Accept(0),
            waits: true,
            due: None,
        }
    }
}

// The descriptor that is to be closed after an answer.
fn due_after(waits: bool, input: &Input) -> Option<u32>
    ensures { result ≡ due_is waits input.now }
{
    if waits {
        return None;
    }
    match input {
        Input::Took(fd) => Some(*fd),
        _ => None,
    }
}

impl Machine for Doorman {
    ghost course = { λ m. door_course m.waits m.due };

    ghost asked = { λ m. door_question m.waits m.due };

    ghost wanted = { λ m. listener };

    fn question(&self) -> Option<&Ask> {
        if self.due.is_some() {
            return None;
        }
        if self.waits {
            Some(&self.wait)
        } else {
            Some(&self.accept)
        }
    }

    fn wants(&self, out: &mut Vec<Want>) -> Result<(), Memory> {
        out.clear();
        out.push(Want { fd: 0, flags: 1 })?;
        Ok(())
    }

    fn next(&mut self) -> Result<Option<Event>, Memory> {
        match self.due {
            Some(fd) => {
                self.due = None;
                Ok(Some(Event::Closed(fd)))
            }
            None => Ok(None),
        }
    }

    fn offer(&mut self, input: Input) -> Result<(), OfferFault> {
        if self.due.is_some() {
            return Err(OfferFault::NotAsked);
        }
        self.due = due_after(self.waits, &input);
        self.waits = !self.waits;
        Ok(())
    }
}

fn ready(rt: &HostRuntime, list: &[Want]) -> Result<Input, Fail> {
    match Wants::make(list.to_vec(rt.alloc())?) {
        Some(wants) => Ok(Input::Ready(wants)),
        None => Ok(Input::Again),
    }
}

// The answers and the ends are lent to functions, so that they are dropped at one place.
fn push_answers(rt: &HostRuntime, answers: &mut Vec<Input>) -> Result<(), Fail> {
    answers.push(ready(rt, &[Want { fd: 0, flags: 1 }])?)?;
    answers.push(Input::Took(7))?;
    answers.push(ready(rt, &[])?)?;
    Ok(())
}

// A doorman is given four answers over this link, which are put on record in this sink.
fn serves_a_doorman(
    alloc: Global,
    link: &mut MemLink,
    out: &mut MemSink,
) -> Result<Result<(), Stop>, Fail> {
    let mut machine = Doorman::new();
    let mut clock = MemClock::new([3u64].to_vec(alloc)?);
    let mut routines = MemRoutines::new(Vec::new(alloc));
    Ok(serve(
        alloc,
        "/tmp/door",
        4,
        &mut machine,
        link,
        &mut clock,
        &mut routines,
        out,
    ))
}

#[test]
fn a_doorman_is_served_and_put_on_record(rt: HostRuntime) -> Result<(), Fail> {
    let mut answers = Vec::new(rt.alloc());
    push_answers(&rt, &mut answers)?;
    let mut link = MemLink::new(rt.alloc(), answers, Vec::new(rt.alloc()), 16, 0)?;
    let mut out = MemSink::new(rt.alloc(), 4, 0, Vec::new(rt.alloc()))?;
    assert_eq!(rt; serves_a_doorman(rt.alloc(), &mut link, &mut out)?, Ok(()));
    assert_eq!(rt;
        out.held(),
        b"tv schedule 2 service\nready 0:1\ntook 7\nready\nagain\n".as_slice()
    );
    Ok(())
}

#[test]
fn a_failed_wait_leaves_the_answers_before_it(rt: HostRuntime) -> Result<(), Fail> {
    let mut answers = Vec::new(rt.alloc());
    push_answers(&rt, &mut answers)?;
    let fails = [3u64].to_vec(rt.alloc())?;
    let mut link = MemLink::new(rt.alloc(), answers, fails, 16, 0)?;
    let mut out = MemSink::new(rt.alloc(), 64, 0, Vec::new(rt.alloc()))?;
    assert_eq!(rt;
        serves_a_doorman(rt.alloc(), &mut link, &mut out)?,
        Err(Stop::Link)
    );
    assert_eq!(rt;
        out.held(),
        b"tv schedule 2 service\nready 0:1\ntook 7\n".as_slice()
    );
    Ok(())
}

#[test]
fn a_failed_write_leaves_a_part_of_a_line(rt: HostRuntime) -> Result<(), Fail> {
    let mut answers = Vec::new(rt.alloc());
    push_answers(&rt, &mut answers)?;
    let mut link = MemLink::new(rt.alloc(), answers, Vec::new(rt.alloc()), 16, 0)?;
    let fails = [9u64].to_vec(rt.alloc())?;
    let mut out = MemSink::new(rt.alloc(), 5, 0, fails)?;
    assert_eq!(rt;
        serves_a_doorman(rt.alloc(), &mut link, &mut out)?,
        Err(Stop::Write)
    );
    assert_eq!(rt;
        out.held(),
        b"tv schedule 2 service\nready 0:1\ntook ".as_slice()
    );
    Ok(())
}
