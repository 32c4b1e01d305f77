//! A link over sockets with a client of its own, in the same thread.
ghost use Rattle.std.specs.Prelude.{◌≡◌, ◌<◌, ◌≤◌, [], ◌∷◌, length, None, OnErr};
ghost use Rattle.outside.specs.Causes.{HasCause};
ghost use Rattle.outside.specs.Descriptors.{SameOpen, Closes};
ghost use Rattle.outside.specs.Links.{AreReady, AcceptsOpen, ReadsWithin, WritesWithin, has_failed};
ghost use Rattle.outside.specs.LinkCalls.{listen_calls, wait_calls, accept_calls, read_input, write_input};
ghost use Rattle.outside.specs.LinkCalls.LinkCall.{Read, Write, Close};
ghost use Rattle.outside.specs.Tellings.{Tells};

use mio::net::UnixStream;
use mio_link::MioLink;
use outside::{Accepted, Done, Link, LinkRead, LinkWrote};
use std::fs::Files;
use std::io::{Read, Write};
use std::net::Net;
use tree_specs::{Memory, Want};

/// The longest that a wait takes, in microseconds.
const LONGEST_WAIT: u64 = 1_000;

/// A link over sockets. Before its first wait a client connects to it and sends a line, and each wait is short, so that
/// nobody else is needed.
#[derive(Drop)]
pub struct WithClient<'a, R: Files + Net> {
    runtime: &'a R,
    link: MioLink<&'a R>,
    path: &'a str,
    client: Option<UnixStream>,
}

impl<'a, R: Files + Net> WithClient<'a, R> {
    /// A link whose client will connect at this path and send a line.
    pub fn new(runtime: &'a R, link: MioLink<&'a R>, path: &'a str) -> WithClient<'a, R> {
        WithClient {
            runtime,
            link,
            path,
            client: None,
        }
    }

    /// The client connects and sends its line, where it hasn't yet.
    fn begin(&mut self)
        ensures { self.new.link ≡ self.old.link }
    {
        if self.client.is_some() {
            return;
        }
        if let Ok(mut client) = UnixStream::connect(self.runtime, self.path) {
            let _ = client.write_all(b"1 new 0 5 a\n");
            self.client = Some(client);
        }
    }

    /// Reads what the client was answered to the front of `answer`. Answers how many bytes came.
    pub fn read_answer(&mut self, answer: &mut [u8]) -> usize
        ensures { result ≤ length answer.new }
    {
        match &mut self.client {
            Some(client) => client.read(answer).unwrap_or(0),
            None => 0,
        }
    }
}

impl<'a, R: Files + Net> Link for WithClient<'a, R> {
    ghost use Rattle.mio_link.specs.Sockets.{link_faults, has_open};

    ghost told = { λ _. None };

    ghost faults = { λ l. link_faults l.link };

    ghost is_open = { λ l. has_open l.link };

    fn listen(&mut self, path: &str) -> Result<Done, Memory> {
        self.link.listen(path)
    }

    fn wait(&mut self, wants: &[Want], limit: u64, ready: &mut Vec<Want>) -> Result<Done, Memory> {
        self.begin();
        self.link.wait(wants, limit.min(LONGEST_WAIT), ready)
    }

    fn accept(&mut self, fd: u32) -> Result<Accepted, Memory> {
        self.link.accept(fd)
    }

    fn read(&mut self, fd: u32, buf: &mut [u8]) -> LinkRead {
        self.link.read(fd, buf)
    }

    fn write(&mut self, fd: u32, bytes: &[u8]) -> LinkWrote {
        self.link.write(fd, bytes)
    }

    fn close(&mut self, fd: u32) {
        self.link.close(fd)
    }
}
