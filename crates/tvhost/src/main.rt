//! `tvhost replay` reads a schedule from standard input and writes its transcript to standard output, `tvhost audit` reads a
//! transcript and says whether its story is orderly, `tvhost serve PATH ANSWERS` serves lines at a Unix socket and writes the
//! schedule that it served, and `tvhost load NUMBER COUNT` writes five lines on a schedule that is made from a number.
#![tactic(auto)]

use host_app::{Status, host_main};
use mio_link::MioLink;
use outside::{StdSink, StdSource, WallClock};
use shelf::{Adopt, Chain, Gentle, Routine, Shelf, Spawn, Stubborn};
use std::alloc::AllocError;
use std::io::{ErrorKind, StdinLock};
use std::process::ExitCode;
use std::{env, io};

/// The status number of the program for its words that the runtime refuses.
const NO_WORDS: u8 = 8;

/// The words after the program's name.
// What this takes of the call stack is given up before the words are done: a replay is to do with 64 KiB.
#[inline(never)]
fn words(rt: &HostRuntime) -> io::Result<Vec<String>> {
    let words = env::args(rt)?;
    Ok(words.skip(1).collect::<Vec<String>>(rt.alloc())?)
}

/// Standard input. What it has read ahead stands on the heap, and not on the call stack.
#[inline(never)]
fn input(rt: &HostRuntime) -> Result<Box<StdSource<StdinLock>>, AllocError> {
    Ok(Box::new(rt.alloc(), StdSource::new(rt.reader()))?)
}

/// Does what the words say over the real ends: standard input, output and error, sockets, and the system's clock. The
/// routines that an object may name have the numbers from 16 upwards, in the order in which they stand here.
fn run(rt: &HostRuntime, words: &[String]) -> Result<Status, AllocError> {
    let alloc = rt.alloc();
    let mut routines: Vec<Box<dyn Routine>> = Vec::new(alloc);
    routines.push(Box::new(alloc, Gentle)?)?;
    routines.push(Box::new(alloc, Stubborn { left: 3 })?)?;
    routines.push(Box::new(alloc, Chain)?)?;
    routines.push(Box::new(alloc, Adopt)?)?;
    routines.push(Box::new(alloc, Spawn)?)?;
    let mut routines = Shelf { routines };
    let mut input = input(rt)?;
    let mut out = StdSink::new(io::writer(rt));
    let mut err = StdSink::new(rt.stderr());
    let mut link = MioLink::new(rt, alloc);
    let mut clock = WallClock::new(rt);
    Ok(host_main(
        alloc,
        words,
        &mut *input,
        &mut out,
        &mut err,
        &mut link,
        &mut clock,
        &mut routines,
    ))
}

/// Says that there was no memory to begin with.
fn no_memory(rt: &HostRuntime) -> ExitCode {
    let _ = rt.eprintln("no memory");
    ExitCode::from(Status::NoMemory.number())
}

fn main(rt: HostRuntime) -> ExitCode {
    let words = match words(&rt) {
        Ok(words) => words,
        Err(why) if why.kind() == ErrorKind::OutOfMemory => return no_memory(&rt),
        Err(_) => {
            let _ = rt.eprintln("no words");
            return ExitCode::from(NO_WORDS);
        }
    };
    match run(&rt, &words) {
        Ok(status) => ExitCode::from(status.number()),
        Err(AllocError) => no_memory(&rt),
    }
}
