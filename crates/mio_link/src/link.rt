//! The link: its listener, its connections, and what each of them is ready for.
ghost use Rattle.std.specs.Prelude.{◌≡◌, ◌<◌, ℕ, [], ◌∷◌, length, None, false, true, IfOk, IfSome, OnErr};
ghost use Rattle.tree_specs.specs.Words.Wants.{is_want};
ghost use Rattle.outside.specs.Causes.{HasCause};
ghost use Rattle.outside.specs.Descriptors.{SameOpen, Closes};
ghost use Rattle.outside.specs.Links.{AreReady, AcceptsOpen, ReadsWithin, WritesWithin, has_failed, is_wanted};
ghost use Rattle.outside.specs.LinkCalls.{listen_calls, wait_calls, accept_calls, read_input, write_input};
ghost use Rattle.outside.specs.LinkCalls.LinkCall.{Read, Write, Close};
ghost use Rattle.outside.specs.Tellings.{Tells};

use crate::accepting::{Connecting, accept_one};
use crate::listening::{LISTENER, Listener, Polling, listen_at, room_for_events};
use crate::polling::{first_ready, poll_for};
use crate::standing::{BOTH, READ, Standing, WRITE};
use crate::transfers::{read_some, write_some};
use mio::net::UnixStream;
use outside::{Accepted, Done, Link, LinkRead, LinkWrote};
use slab::Slab;
use std::alloc::Global;
use std::fs::Files;
use std::io;
use std::io::ErrorKind;
use std::net::Net;
use tree_specs::{Memory, Want};

/// A link over non-blocking Unix sockets (unix(7)). It tells nothing of its calls.
///
/// It opens nothing before it listens, and it listens once. The file that `listen` made is removed where the link is
/// dropped or its descriptor 0 is closed. No other file ever is: one that stands at the path already fails `listen`.
///
/// The system reports once that a descriptor has become ready (EPOLLET of epoll(7)). It counts as ready from then on,
/// until a call of it answers `Again`.
#[derive(Drop)]
pub struct MioLink<R: Files + Net + Clone + Drop> {
    runtime: R,
    alloc: Global,
    polling: Option<Polling>,
    listener: Option<Listener<R>>,
    /// The connection under key 0 has descriptor 1, and so on. A descriptor is its token in the poll too.
    streams: Slab<UnixStream>,
    standing: Standing,
    /// An accept has failed, as for want of a descriptor. It is tried again when one is closed.
    starved: bool,
    faults: u64,
}

impl<R: Files + Net + Clone + Drop> MioLink<R> {
    ghost use Rattle.mio_link.specs.Sockets.{link_faults, has_open};

    /// A link that doesn't listen yet.
    pub fn new(runtime: R, alloc: Global) -> MioLink<R>
        ensures faults { link_faults result ≡ 0 }
        ensures none_open { (fd : ℕ) → has_open result fd ≡ false }
    {
        MioLink {
            runtime,
            alloc,
            polling: None,
            listener: None,
            streams: Slab::new(alloc),
            standing: Standing::new(alloc),
            starved: false,
            faults: 0,
        }
    }

    /// Counts a fault.
    fn fail(&mut self) -> Done
        ensures counted { HasCause (link_faults self.old) (link_faults self.new) true }
        ensures failed { result ≡ Done.Failed }
        ensures open { SameOpen (has_open self.old) (has_open self.new) }
    {
        self.faults = self.faults.saturating_add(1);
        Done::Failed
    }

    /// Waits for anything to come, at most `limit` microseconds, and notes it.
    fn poll(&mut self, limit: u64) -> io::Result<()>
        ensures faults { link_faults self.new ≡ link_faults self.old }
        ensures open { SameOpen (has_open self.old) (has_open self.new) }
    {
        match &mut self.polling {
            Some(polling) => poll_for(polling, &mut self.standing, limit),
            None => Err(io::Error::from(ErrorKind::NotConnected)),
        }
    }

    /// The first descriptor that is ready for something that is wanted of it. It waits where there is none.
    fn find_ready(&mut self, wants: &[Want], limit: u64) -> io::Result<Option<Want>>
        ensures whole { IfOk result (λ found. IfSome found (λ ready. is_want ready ≡ true)) }
        ensures wanted { IfOk result (λ found. IfSome found (λ ready. is_wanted wants.now ready ≡ true)) }
        ensures faults { link_faults self.new ≡ link_faults self.old }
        ensures open { SameOpen (has_open self.old) (has_open self.new) }
    {
        self.poll(0)?;
        let first = first_ready(wants, &self.standing);
        if first.is_some() || limit == 0 {
            return Ok(first);
        }
        self.poll(limit)?;
        Ok(first_ready(wants, &self.standing))
    }

    /// Connects the first who waits. Where it doesn't listen, nobody does.
    fn connect(&self) -> Connecting {
        match &self.listener {
            Some(listener) => accept_one(&listener.socket),
            None => Connecting::Nobody,
        }
    }

    /// Has the system report on a connection. Answers whether it does.
    fn watch(&self, stream: &mut UnixStream, fd: u32) -> bool {
        match &self.polling {
            Some(polling) => polling.watch(stream, fd),
            None => false,
        }
    }

    /// The key of a connection's descriptor.
    fn key_of(fd: u32) -> Option<usize> {
        (fd as usize).checked_sub(1)
    }
}

impl<R: Files + Net + Clone + Drop> Link for MioLink<R> {
    ghost use Rattle.mio_link.specs.Sockets.{link_faults, has_open};

    ghost told = { λ _. None };

    ghost faults = { link_faults };

    ghost is_open = { has_open };

    /// It fails where anything is at the path already, where the path is longer than the 107 bytes of unix(7), where no
    /// file can be made there, and where the link listens or has listened.
    fn listen(&mut self, path: &str) -> Result<Done, Memory>
        ensures cause { HasCause (link_faults self.old) (link_faults self.new) (has_failed result) }
        ensures no_fault { OnErr result (link_faults self.new ≡ link_faults self.old) }
        ensures open { SameOpen (has_open self.old) (has_open self.new) }
        ensures told { Tells None None (listen_calls path.now result) }
    {
        if self.polling.is_some() {
            return Ok(self.fail());
        }
        self.standing.make_place(LISTENER)?;
        let events = room_for_events(self.alloc)?;
        let runtime = self.runtime.clone()?;
        let kept = String::from_str(self.alloc, path)?;
        let Ok((polling, listener)) = listen_at(runtime, kept, events) else {
            return Ok(self.fail());
        };
        self.polling = Some(polling);
        self.listener = Some(listener);
        Ok(Done::Done)
    }

    /// What has come is noted first, without waiting, so that no descriptor is kept from its turn by another one that
    /// is always ready. Then the first that is ready, in the order of `wants`, is left in `ready`, and no other: a turn
    /// takes the first of its rotation that is ready. The system counts in milliseconds, so a wait of less takes one,
    /// and the longest is 24 days. A signal ends a wait with nothing ready.
    fn wait(&mut self, wants: &[Want], limit: u64, ready: &mut Vec<Want>) -> Result<Done, Memory>
        ensures ready { AreReady wants.now ready.new.items }
        ensures cause { HasCause (link_faults self.old) (link_faults self.new) (has_failed result) }
        ensures no_fault { OnErr result (link_faults self.new ≡ link_faults self.old) }
        ensures open { SameOpen (has_open self.old) (has_open self.new) }
        ensures told { Tells None None (wait_calls wants.now limit result ready.new.items) }
        ensures one { length ready.new.items < 2 }
    {
        ready.clear();
        ready.reserve(1)?;
        let found = match self.find_ready(wants, limit) {
            Ok(found) => found,
            Err(_) => return Ok(self.fail()),
        };
        if let Some(first) = found {
            ready.push_reserved(first);
        }
        Ok(Done::Done)
    }

    /// Only descriptor 0 listens; of any other it is a fault. So is each error of accept(2) but that nobody waits, as
    /// EMFILE, that there is no descriptor left: then the listener isn't ready until a connection is closed or somebody
    /// else comes.
    fn accept(&mut self, fd: u32) -> Result<Accepted, Memory>
        ensures open { AcceptsOpen (has_open self.old) (has_open self.new) result }
        ensures faults { link_faults self.new ≡ link_faults self.old }
        ensures told { Tells None None (accept_calls fd result) }
    {
        let key = self.streams.vacant_key();
        if fd != LISTENER || key >= u32::MAX as usize {
            return Ok(Accepted::Fault);
        }
        let taken = key as u32 + 1;
        self.standing.make_place(taken)?;
        self.streams.reserve(1)?;
        let mut stream = match self.connect() {
            Connecting::Took(stream) => stream,
            Connecting::Nobody => {
                self.standing.clear(LISTENER, READ);
                return Ok(Accepted::Again);
            }
            Connecting::Starved => {
                self.standing.clear(LISTENER, READ);
                self.starved = true;
                return Ok(Accepted::Fault);
            }
        };
        if !self.watch(&mut stream, taken) {
            return Ok(Accepted::Fault);
        }
        self.standing.clear(taken, BOTH);
        self.streams.insert_reserved(stream);
        Ok(Accepted::Took(taken))
    }

    /// A connection that isn't open has failed, and so has one that the peer closed while bytes for it were unread.
    fn read(&mut self, fd: u32, buf: &mut [u8]) -> LinkRead
        requires { 0 < length buf.old }
        ensures within { ReadsWithin result (length buf.new) }
        ensures faults { link_faults self.new ≡ link_faults self.old }
        ensures open { SameOpen (has_open self.old) (has_open self.new) }
        ensures told { Tells None None (Read fd (length buf.new) (read_input result buf.new) ∷ []) }
    {
        let Some(key) = MioLink::<R>::key_of(fd) else {
            return LinkRead::Fault;
        };
        let Some(stream) = self.streams.get(key) else {
            return LinkRead::Fault;
        };
        let answer = read_some(stream, buf);
        if answer == LinkRead::Again {
            self.standing.clear(fd, READ);
        }
        answer
    }

    /// A connection that isn't open has failed, and so has one whose peer has closed it. No SIGPIPE comes of that.
    fn write(&mut self, fd: u32, bytes: &[u8]) -> LinkWrote
        requires { 0 < length bytes.now }
        ensures within { WritesWithin result (length bytes.now) }
        ensures faults { link_faults self.new ≡ link_faults self.old }
        ensures open { SameOpen (has_open self.old) (has_open self.new) }
        ensures told { Tells None None (Write fd bytes.now (write_input result) ∷ []) }
    {
        let Some(key) = MioLink::<R>::key_of(fd) else {
            return LinkWrote::Fault;
        };
        let Some(stream) = self.streams.get(key) else {
            return LinkWrote::Fault;
        };
        let answer = write_some(stream, bytes);
        if answer == LinkWrote::Again {
            self.standing.clear(fd, WRITE);
        }
        answer
    }

    /// Descriptor 0 closes the listener, and removes its file. Where an accept was starved, it is tried again.
    #[tactic(auto, using(crate::proofs::SocketLaws::key_closed, crate::proofs::SocketLaws::listener_closed))]
    fn close(&mut self, fd: u32)
        ensures faults { link_faults self.new ≡ link_faults self.old }
        ensures open { Closes (has_open self.old) (has_open self.new) fd }
        ensures told { Tells None None (Close fd ∷ []) }
    {
        if fd == LISTENER {
            self.listener = None;
            return;
        }
        drop(self.streams.try_remove(fd as usize - 1));
        self.standing.clear(fd, BOTH);
        if self.starved {
            self.starved = false;
            self.standing.add(LISTENER as usize, READ);
        }
    }
}
