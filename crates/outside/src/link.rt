//! A listener, and the connections that it accepts.
ghost use Rattle.std.specs.Prelude.{◌≡◌, ℕ, ◌<◌, Bool, List, [], ◌∷◌, length, Option, OnErr};
ghost use Rattle.outside.specs.Causes.{HasCause};
ghost use Rattle.outside.specs.Descriptors.{SameOpen, Closes};
ghost use Rattle.outside.specs.Links.{AreReady, AcceptsOpen, ReadsWithin, WritesWithin, has_failed};
ghost use Rattle.outside.specs.LinkCalls.{LinkCall, listen_calls, wait_calls, accept_calls, read_input, write_input};
ghost use Rattle.outside.specs.LinkCalls.LinkCall.{Read, Write, Close};
ghost use Rattle.outside.specs.Tellings.{Tells};

use crate::sink::Done;
use tree_specs::{Memory, Want};

/// What an accept answers.
#[derive(Clone, Copy, Debug, PartialEq, Eq)]
pub enum Accepted {
    /// This descriptor is open now. It is 1 or above.
    Took(u32),
    /// Nobody waits to be connected.
    Again,
    /// The accept has failed. Nothing is open that wasn't.
    Fault,
}

/// What a read of a connection answers.
#[derive(Clone, Copy, Debug, PartialEq, Eq)]
pub enum LinkRead {
    /// So many bytes stand at the buffer's front: at least 1, and at most its length.
    Got(u32),
    /// No more bytes come.
    End,
    /// No bytes have come yet.
    Again,
    /// The connection has failed.
    Fault,
}

/// What a write to a connection answers.
#[derive(Clone, Copy, Debug, PartialEq, Eq)]
pub enum LinkWrote {
    /// So many bytes were taken from the front: at least 1, and at most all.
    Wrote(u32),
    /// There is no room for any bytes yet.
    Again,
    /// The connection has failed.
    Fault,
}

/// A listener at a path, and the connections that it has accepted, as of a Unix socket (unix(7)). The listener's
/// descriptor is 0, and those of connections are from 1 upwards. What a descriptor is wanted or ready for are tevent's
/// flags: 1 for reading, 2 for writing. Only `wait` waits.
pub trait Link {
    /// The calls with their answers so far, where the link tells them. Of a call that found no memory it tells nothing.
    ghost told: { Self → Option (List LinkCall) };

    /// How often `listen` or `wait` has failed. It never falls, and a counter of 64 bits stays at its last value.
    ghost faults: { Self → ℕ };

    /// Whether a descriptor was accepted and not closed since. It is always told.
    ghost is_open: { Self → ℕ → Bool };

    /// Listens at the path, as bind(2) and listen(2) do. `Failed` comes only where the count of faults rose in this
    /// call.
    ///
    /// # Errors
    ///
    /// `Memory` where memory isn't found. No fault is counted then, and nothing is told.
    fn listen(&mut self, path: &str) -> Result<Done, Memory>
        ensures cause { HasCause (faults self.old) (faults self.new) (has_failed result) }
        ensures no_fault { OnErr result (faults self.new ≡ faults self.old) }
        ensures open { SameOpen (is_open self.old) (is_open self.new) }
        ensures told { Tells (told self.old) (told self.new) (listen_calls path.now result) };

    /// Waits until one of these is ready, at most `limit` microseconds, as poll(2) does, and leaves in `ready` which
    /// are, the least first, in place of what was there. It may leave fewer than are ready. `Failed` comes only where
    /// the count of faults rose in this call.
    ///
    /// # Errors
    ///
    /// `Memory` where memory isn't found. No fault is counted then, and nothing is told.
    fn wait(&mut self, wants: &[Want], limit: u64, ready: &mut Vec<Want>) -> Result<Done, Memory>
        ensures ready { AreReady wants.now ready.new.items }
        ensures cause { HasCause (faults self.old) (faults self.new) (has_failed result) }
        ensures no_fault { OnErr result (faults self.new ≡ faults self.old) }
        ensures open { SameOpen (is_open self.old) (is_open self.new) }
        ensures told { Tells (told self.old) (told self.new) (wait_calls wants.now limit result ready.new.items) };

    /// Connects one who waits at the listener of this descriptor, as accept(2) does. The connection's descriptor is 1
    /// or above, and wasn't open.
    ///
    /// # Errors
    ///
    /// `Memory` where memory isn't found. Nothing is told then.
    fn accept(&mut self, fd: u32) -> Result<Accepted, Memory>
        ensures open { AcceptsOpen (is_open self.old) (is_open self.new) result }
        ensures faults { faults self.new ≡ faults self.old }
        ensures told { Tells (told self.old) (told self.new) (accept_calls fd result) };

    /// Reads some bytes to the front of `buf`, which isn't empty, as read(2) does.
    fn read(&mut self, fd: u32, buf: &mut [u8]) -> LinkRead
        requires { 0 < length buf.old }
        ensures within { ReadsWithin result (length buf.new) }
        ensures faults { faults self.new ≡ faults self.old }
        ensures open { SameOpen (is_open self.old) (is_open self.new) }
        ensures told { Tells (told self.old) (told self.new) (Read fd (length buf.new) (read_input result buf.new) ∷ []) };

    /// Writes some bytes from the front of `bytes`, which isn't empty, as write(2) does.
    fn write(&mut self, fd: u32, bytes: &[u8]) -> LinkWrote
        requires { 0 < length bytes.now }
        ensures within { WritesWithin result (length bytes.now) }
        ensures faults { faults self.new ≡ faults self.old }
        ensures open { SameOpen (is_open self.old) (is_open self.new) }
        ensures told { Tells (told self.old) (told self.new) (Write fd bytes.now (write_input result) ∷ []) };

    /// Closes a connection, or the listener. What isn't open stays so.
    fn close(&mut self, fd: u32)
        ensures faults { faults self.new ≡ faults self.old }
        ensures open { Closes (is_open self.old) (is_open self.new) fd }
        ensures told { Tells (told self.old) (told self.new) (Close fd ∷ []) };
}
