//! What a prepared answer is to a call of a link, and whether it fits.
ghost use Rattle.std.specs.Prelude.{◌≡◌, ◌≤◌, [], true, length, take, Some, OnOk, OnErr};
ghost use Rattle.std.specs.List.{list_all};
ghost use Rattle.std.specs.Option.{option_copied};
ghost use Rattle.tree_specs.specs.Words.Wants.{is_wants};
ghost use Rattle.outside.specs.Links.{ReadsWithin, WritesWithin, is_part, is_wanted};
ghost use Rattle.outside.specs.LinkCalls.{read_input, write_input, accept_input};
ghost use Rattle.outside.specs.Scripts.{fits_wait, fits_accept, fits_read, fits_write, given, ready_of, CanOpen};

use crate::link::{Accepted, LinkRead, LinkWrote};
use crate::open_set::OpenSet;
use tree_specs::{Input, Memory, Want};

/// Whether all that the descriptor is ready for is wanted of it.
fn is_part(ready: Want, want: Want) -> bool
    ensures { result ≡ is_part ready want }
{
    ready.fd == want.fd && (want.flags & ready.flags) == ready.flags
}

/// Whether that is wanted of some descriptor.
fn is_wanted(wants: &[Want], ready: Want) -> bool
    ensures { result ≡ is_wanted wants.now ready }
{
    wants.iter().any(|want| is_part(ready, *want))
}

/// Whether each of these is wanted.
fn are_wanted(wants: &[Want], ready: &[Want]) -> bool
    ensures { result ≡ list_all (λ r. is_wanted wants.now r) ready.now }
{
    ready.iter().all(|one| is_wanted(wants, *one))
}

/// Whether the answer fits a wait for these.
pub(crate) fn fits_wait(wants: &[Want], answer: Option<&Input>) -> bool
    ensures { result ≡ fits_wait wants.now (option_copied answer.entry) }
{
    match answer {
        Some(Input::Ready(ready)) => are_wanted(wants, ready.as_slice()),
        _ => false,
    }
}

/// Whether the answer fits an accept while these are open.
pub(crate) fn fits_accept(set: &OpenSet, answer: Option<&Input>) -> bool
    ensures { result ≡ fits_accept set.now (option_copied answer.entry) }
{
    match answer {
        Some(Input::Took(fd)) => 1 <= *fd && !set.contains(*fd),
        Some(Input::Again | Input::Fault) => true,
        _ => false,
    }
}

/// Whether the answer fits a read into so much room.
pub(crate) fn fits_read(room: usize, answer: Option<&Input>) -> bool
    ensures { result ≡ fits_read room (option_copied answer.entry) }
{
    match answer {
        Some(Input::Got(bytes)) => bytes.as_slice().len() <= room,
        Some(Input::End | Input::Again | Input::Fault) => true,
        _ => false,
    }
}

/// Whether the answer fits a write of so many bytes.
pub(crate) fn fits_write(len: usize, answer: Option<&Input>) -> bool
    ensures { result ≡ fits_write len (option_copied answer.entry) }
{
    match answer {
        Some(Input::Wrote(n)) => 1 <= *n && *n as usize <= len,
        Some(Input::Again | Input::Fault) => true,
        _ => false,
    }
}

/// Puts what the answer says to be ready into an empty list, where it fits.
pub(crate) fn copy_ready(
    answer: Option<&Input>,
    fits: bool,
    ready: &mut Vec<Want>,
) -> Result<(), Memory>
    requires { ready.old.items ≡ [] }
    ensures ready { OnOk result (ready.new.items ≡ ready_of (given fits (option_copied answer.entry))) }
    ensures nothing { OnErr result (ready.new.items ≡ []) }
    ensures rising { is_wants ready.new.items ≡ true }
{
    if let Some(Input::Ready(list)) = answer
        && fits
    {
        ready.extend_from_slice(list.as_slice())?;
    }
    Ok(())
}

/// What this answer is to an accept, where it fits, and otherwise that nobody waits.
pub(crate) fn accept_of(answer: Option<&Input>, set: &OpenSet) -> Accepted
    ensures same { accept_input result ≡ given (fits_accept set.now (option_copied answer.entry)) (option_copied answer.entry) }
    ensures vacant { CanOpen set.now result }
{
    match answer {
        Some(Input::Took(fd)) if 1 <= *fd && !set.contains(*fd) => Accepted::Took(*fd),
        Some(Input::Fault) => Accepted::Fault,
        _ => Accepted::Again,
    }
}

/// Copies all of these bytes to the front of the buffer.
fn copy_front(bytes: &[u8], buf: &mut [u8])
    requires { length bytes.now ≤ length buf.old }
    ensures { take (length bytes.now) buf.new ≡ bytes.now }
{
    buf[..bytes.len()].copy_from_slice(bytes);
}

/// What this answer is to a read, whose buffer gets the bytes.
pub(crate) fn read_of(answer: &Input, buf: &mut [u8]) -> LinkRead
    requires { fits_read (length buf.old) (Some answer.now) ≡ true }
    ensures same { answer.now ≡ read_input result buf.new }
    ensures within { ReadsWithin result (length buf.new) }
{
    match answer {
        Input::Got(bytes) => {
            let bytes = bytes.as_slice();
            copy_front(bytes, buf);
            LinkRead::Got(bytes.len() as u32)
        }
        Input::End => LinkRead::End,
        Input::Fault => LinkRead::Fault,
        _ => LinkRead::Again,
    }
}

/// What this answer is to a write of so many bytes.
pub(crate) fn write_of(answer: &Input, len: usize) -> LinkWrote
    requires { fits_write len (Some answer.now) ≡ true }
    ensures same { answer.now ≡ write_input result }
    ensures within { WritesWithin result len }
{
    match answer {
        Input::Wrote(n) => LinkWrote::Wrote(*n),
        Input::Fault => LinkWrote::Fault,
        _ => LinkWrote::Again,
    }
}
