//! Connecting one who waits.
use mio::net::{UnixListener, UnixStream};
use std::io::ErrorKind;

/// How often a call is made again that a signal interrupted, or that found one who has gone meanwhile.
const RETRIES: usize = 64;

/// What a listener answers.
#[derive(Drop)]
pub(crate) enum Connecting {
    /// The connection.
    Took(UnixStream),
    /// Nobody waits.
    Nobody,
    /// The system has no descriptor left, or too little of something else.
    Starved,
}

/// Connects the first who waits.
pub(crate) fn accept_one(listener: &UnixListener) -> Connecting {
    for _ in 0..RETRIES {
        match listener.accept() {
            Ok((stream, _)) => return Connecting::Took(stream),
            Err(why) if why.kind() == ErrorKind::Interrupted => {}
            Err(why) if why.kind() == ErrorKind::ConnectionAborted => {}
            Err(why) if why.kind() == ErrorKind::WouldBlock => return Connecting::Nobody,
            Err(_) => return Connecting::Starved,
        }
    }
    Connecting::Nobody
}
