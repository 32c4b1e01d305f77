//! Waiting for what comes, and finding what is ready.
ghost use Rattle.std.specs.Prelude.{◌≡◌, ◌≤◌, true, IfSome};
ghost use Rattle.tree_specs.specs.Words.Wants.{is_want};
ghost use Rattle.outside.specs.Links.{is_part, is_wanted};

use crate::listening::Polling;
use crate::standing::{BOTH, READ, Standing, WRITE};
use mio::Events;
use mio::event::Event;
use std::io;
use std::time::Duration;
use tree_specs::Want;

/// What an event makes a descriptor ready for. One that has ended or failed is ready for both: the next call finds out.
fn flags_of(event: &Event) -> u8 {
    if event.is_error() || event.is_read_closed() || event.is_write_closed() {
        return BOTH;
    }
    let read = if event.is_readable() { READ } else { 0 };
    let write = if event.is_writable() { WRITE } else { 0 };
    read | write
}

/// Notes what has come.
fn note(events: &Events, standing: &mut Standing) {
    for event in events {
        standing.add(event.token().0, flags_of(event));
    }
}

/// Waits for anything to come, at most `limit` microseconds, and notes it. A signal ends the wait with nothing.
pub(crate) fn poll_for(
    polling: &mut Polling,
    standing: &mut Standing,
    limit: u64,
) -> io::Result<()> {
    let timeout = Duration::from_micros(limit);
    polling.poll.poll(&mut polling.events, Some(timeout))?;
    note(&polling.events, standing);
    Ok(())
}

/// What a descriptor is ready for, as it stands, of what is wanted of it.
#[tactic(auto, using(crate::proofs::SocketLaws::part_wanted))]
fn part_of(standing: u32, want: Want) -> Option<Want>
    requires { standing ≤ 3 }
    ensures whole { IfSome result (λ ready. is_want ready ≡ true) }
    ensures part { IfSome result (λ ready. is_part ready want ≡ true) }
{
    let flags = standing & want.flags;
    if flags == 0 {
        return None;
    }
    Some(Want { fd: want.fd, flags })
}

/// The first descriptor that is ready for something that is wanted of it.
pub(crate) fn first_ready(wants: &[Want], standing: &Standing) -> Option<Want>
    ensures whole { IfSome result (λ ready. is_want ready ≡ true) }
    ensures wanted { IfSome result (λ ready. is_wanted wants.now ready ≡ true) }
{
    for want in wants {
        if let Some(ready) = part_of(standing.of(want.fd), *want) {
            return Some(ready);
        }
    }
    None
}
