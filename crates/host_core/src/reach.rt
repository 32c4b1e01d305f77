//! Questions to the outside: a call asks the clock or a descriptor, and the answer is its reply.
ghost use Rattle.std.specs.Prelude.{◌≡◌, IfOk, is_some, true};
ghost use Rattle.tree_specs.specs.Calls.Given.{given_to, bytes_read, bytes_written};
ghost use Rattle.tree_specs.specs.declared.reply.Reply.TheVariants.{Bytes as BytesReply};
ghost use Rattle.host_core.specs.Reaches.{remembered, is_bytes, IsShortAnswer, short_answer, pool_heard};
ghost use Rattle.tree_specs.specs.declared.question.Input.TheVariants as inputs;

use crate::owned_reply::OwnedReply;
use crate::short_reply::ShortReply;
use object_pool::ObjectPool;
use std::alloc::Global;
use tree_specs::{Ask, Input, Memory, Octets, Reply};

/// Whether so many bytes are no more than were asked for.
fn is_within(bytes: &Octets, most: u32) -> bool
    ensures { result ≡ is_some (bytes_read most bytes.now) }
{
    bytes.as_slice().len() <= most as usize
}

/// Whether some of the bytes were written, or all of them.
fn is_part(bytes: &Octets, n: u32) -> bool
    ensures { result ≡ is_some (bytes_written bytes.now n) }
{
    1 <= n && n as usize <= bytes.as_slice().len()
}

/// Whether an input is an answer to a question.
pub fn takes(ask: &Ask, input: &Input) -> bool
    ensures { result ≡ is_some (given_to ask.now input.now) }
{
    match (ask, input) {
        (Ask::Quiet, Input::Call(_))
        | (Ask::Routine(_), Input::Act(_))
        | (Ask::Clock, Input::Clock(_))
        | (Ask::Wait(_), Input::Ready(_))
        | (Ask::Accept(_), Input::Took(_) | Input::Again | Input::Fault)
        | (Ask::Read(..), Input::End | Input::Again | Input::Fault)
        | (Ask::Write(..), Input::Again | Input::Fault) => true,
        (Ask::Read(_, most), Input::Got(bytes)) => is_within(bytes, *most),
        (Ask::Write(_, bytes), Input::Wrote(n)) => is_part(bytes, *n),
        _ => false,
    }
}

/// Hears an answer of the outside that takes no memory, and gives the reply to the call that asked. A descriptor that
/// was accepted is open from then on.
pub fn heard(input: Input, objects: &mut ObjectPool) -> ShortReply
    requires short { IsShortAnswer input }
    requires room { objects.old.ready ≡ true }
    ensures reply { result ≡ short_answer input }
    ensures pool { objects.new ≡ record objects.old { pool = pool_heard input objects.old.pool; ready = objects.new.ready } }
{
    match input {
        Input::Clock(time) => ShortReply::Number(time),
        Input::Took(fd) => {
            objects.open(fd);
            ShortReply::Number(u64::from(fd))
        }
        Input::Wrote(n) => ShortReply::Number(u64::from(n)),
        Input::Again => ShortReply::Again,
        Input::Fault => ShortReply::Fault,
        Input::End => ShortReply::End,
        _ => unreachable!(),
    }
}

/// Whether these are bytes that were read: the one answer of the outside that owns memory.
pub fn is_bytes(input: &Input) -> bool
    ensures { result ≡ is_bytes input.now }
{
    matches!(input, Input::Got(_))
}

/// The bytes that were read.
pub fn bytes_in(input: Input) -> Octets
    requires { is_bytes input ≡ true }
    ensures { input ≡ inputs.Got result }
{
    match input {
        Input::Got(bytes) => bytes,
        _ => unreachable!(),
    }
}

/// A copy of bytes that were read, where a routine is to remember them.
fn copy_of(alloc: Global, caller: &Ask, bytes: &Octets) -> Result<Option<Reply>, Memory>
    ensures { IfOk result (λ copy. copy ≡ remembered caller.now (BytesReply bytes.now)) }
{
    let Ask::Routine(_) = caller else {
        return Ok(None);
    };
    let copy = Vec::from_slice(alloc, bytes.as_slice())?;
    Ok(Octets::make(copy).map(Reply::Bytes))
}

/// The reply to the call that asked for bytes, which were read, with the copy that a routine remembers.
pub fn made_bytes(alloc: Global, caller: &Ask, bytes: Octets) -> Result<OwnedReply, Memory>
    ensures { IfOk result (λ r. r ≡ record { reply = BytesReply bytes; copy = remembered caller.now (BytesReply bytes) }) }
{
    let copy = copy_of(alloc, caller, &bytes)?;
    Ok(OwnedReply {
        reply: Reply::Bytes(bytes),
        copy,
    })
}
