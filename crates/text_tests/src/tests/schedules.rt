use schedule_text::{read_line, write_event};
use std::alloc::Global;
use std::process::Abort;
use std::test::Fail;
use text_forms::FormFault;
use tree_specs::{Event, Octets, Reply, Version};

mod events;
mod heard;
mod lines;
mod questions;
mod refusals;
mod replies;

// Each event is written as these bytes, after what is there.
fn writes(rt: &impl Abort, alloc: Global, cases: &[(Event, &[u8])]) -> Result<(), Fail> {
    for (event, want) in cases {
        let mut out = Vec::new(alloc);
        write_event(event, &mut out)?;
        assert_eq!(rt; out.as_slice(), *want);
    }
    Ok(())
}

// The line is no input in version 2.
fn reads_none(rt: &impl Abort, alloc: Global, line: &str) {
    let input = read_line(alloc, line.as_bytes(), Version::Two);
    assert!(rt; matches!(input, Err(FormFault::NoForm)), "at {line:?}");
}

fn replied(reply: Reply) -> Event {
    Event::Replied(reply)
}

fn octets(alloc: Global, bytes: &[u8]) -> Result<Octets, Fail> {
    let octets = Octets::make(Vec::from_slice(alloc, bytes)?).ok_or("no octets")?;
    Ok(octets)
}
