//! A socket that listens, with its file and the poll that reports on it and on its connections.
use crate::socket_file::SocketFile;
use mio::net::{UnixListener, UnixStream};
use mio::{Events, Interest, Poll, Token};
use std::alloc::Global;
use std::fs::Files;
use std::io;
use std::net::Net;
use tree_specs::Memory;

/// The listener's descriptor, and its token.
pub(crate) const LISTENER: u32 = 0;

/// How many events one poll takes from the system at most. What is left comes with the next.
const EVENTS: usize = 1024;

/// A poll, and where its events go.
#[derive(Drop)]
pub(crate) struct Polling {
    pub(crate) poll: Poll,
    pub(crate) events: Events,
}

/// A socket that listens. Its file goes before it does: while the socket is open the system gives the file's number to
/// no other file.
#[derive(Drop)]
pub(crate) struct Listener<R: Files + Drop> {
    file: SocketFile<R>,
    pub(crate) socket: UnixListener,
}

/// Room for the events of one poll.
pub(crate) fn room_for_events(alloc: Global) -> Result<Events, Memory> {
    Ok(Events::with_capacity(alloc, EVENTS)?)
}

/// Listens at the path, and has a poll report on it.
pub(crate) fn listen_at<R: Files + Net + Drop>(
    runtime: R,
    path: String,
    events: Events,
) -> io::Result<(Polling, Listener<R>)> {
    let poll = Poll::new(&runtime)?;
    let mut socket = UnixListener::bind(&runtime, path.as_str())?;
    let file = SocketFile::made(runtime, path);
    poll.registry()
        .register(&mut socket, Token(LISTENER as usize), Interest::READABLE)?;
    Ok((Polling { poll, events }, Listener { file, socket }))
}

impl Polling {
    /// Has the poll report on a connection. Answers whether the system let it.
    pub(crate) fn watch(&self, stream: &mut UnixStream, fd: u32) -> bool {
        let interests = Interest::READABLE | Interest::WRITABLE;
        self.poll
            .registry()
            .register(stream, Token(fd as usize), interests)
            .is_ok()
    }
}
