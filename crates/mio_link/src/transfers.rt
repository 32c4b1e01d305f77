//! One read or write of a connection. A call that a signal interrupts is made again.
ghost use Rattle.std.specs.Prelude.{◌<◌, length};
ghost use Rattle.outside.specs.Links.{ReadsWithin, WritesWithin};

use mio::net::UnixStream;
use outside::{LinkRead, LinkWrote};
use std::io::{ErrorKind, Read, Write};
use tree_specs::OCTETS_LIMIT;

/// How often a call that a signal interrupted is made again, before the descriptor counts as not ready.
const RETRIES: usize = 64;

/// Reads some bytes to the front of `buf`. A connection that was reset has failed; one whose peer sends no more has
/// ended.
pub(crate) fn read_some(mut stream: &UnixStream, buf: &mut [u8]) -> LinkRead
    requires { 0 < length buf.old }
    ensures { ReadsWithin result (length buf.new) }
{
    let most = buf.len().min(OCTETS_LIMIT);
    for _ in 0..RETRIES {
        match stream.read(&mut buf[..most]) {
            Ok(0) => return LinkRead::End,
            Ok(n) => return LinkRead::Got(n as u32),
            Err(why) if why.kind() == ErrorKind::Interrupted => {}
            Err(why) if why.kind() == ErrorKind::WouldBlock => return LinkRead::Again,
            Err(_) => return LinkRead::Fault,
        }
    }
    LinkRead::Again
}

/// Writes some bytes from the front. A connection whose peer reads no more has failed.
pub(crate) fn write_some(mut stream: &UnixStream, bytes: &[u8]) -> LinkWrote
    requires { 0 < length bytes.now }
    ensures { WritesWithin result (length bytes.now) }
{
    let most = bytes.len().min(OCTETS_LIMIT);
    for _ in 0..RETRIES {
        match stream.write(&bytes[..most]) {
            Ok(0) => return LinkWrote::Fault,
            Ok(n) => return LinkWrote::Wrote(n as u32),
            Err(why) if why.kind() == ErrorKind::Interrupted => {}
            Err(why) if why.kind() == ErrorKind::WouldBlock => return LinkWrote::Again,
            Err(_) => return LinkWrote::Fault,
        }
    }
    LinkWrote::Again
}
