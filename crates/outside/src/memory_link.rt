//! A link that gives answers that were prepared.
ghost use Rattle.std.specs.Prelude.{◌≡◌, ◌<◌, [], ◌∷◌, length, OnErr, OnOk, IfOk, IsOk};
ghost use Rattle.outside.specs.Causes.{HasCause};
ghost use Rattle.outside.specs.Descriptors.{SameOpen, Closes, is_among};
ghost use Rattle.outside.specs.InMemory.{new_link};
ghost use Rattle.outside.specs.Links.{AreReady, AcceptsOpen, ReadsWithin, WritesWithin, has_failed};
ghost use Rattle.outside.specs.LinkCalls.{listen_calls, wait_calls, accept_calls, read_input, write_input, accept_input};
ghost use Rattle.outside.specs.LinkCalls.LinkCall.{Read, Write, Close};
ghost use Rattle.outside.specs.Notes.{noted_with, noted_after};
ghost use Rattle.outside.specs.Pacings.{after_call, fails_next};
ghost use Rattle.outside.specs.Scripts.{Gives, GivesReady, fits_accept, fits_read, fits_write};
ghost use Rattle.outside.specs.Tellings.{Tells};

use crate::link::{Accepted, Link, LinkRead, LinkWrote};
use crate::notes::{Note, Notes};
use crate::open_set::OpenSet;
use crate::pace::Pace;
use crate::prepared::{
    accept_of, copy_ready, fits_accept, fits_read, fits_wait, fits_write, read_of, write_of,
};
use crate::script::Script;
use crate::sink::Done;
use std::alloc::Global;
use std::marker::Model;
use tree_specs::{Input, Memory, Want};

/// A link that gives answers that were prepared, and whose listening and waiting fail when it is told to. An answer
/// that doesn't fit the call stays the next one; then, and once the answers are used up, nothing is ready and nobody
/// connects.
///
/// Contracts see the answers that are left, how it goes, what is open, and the calls, for as long as there was room to
/// note them.
#[derive(Drop)]
pub struct MemLink {
    alloc: Global,
    script: Script,
    pace: Pace,
    fds: OpenSet,
    notes: Notes,
}

impl Model for MemLink {
    ghost use Rattle.outside.specs.InMemory.{LinkInMemory};

    ghost Value = { LinkInMemory };

    ghost view = { λ l. record { answers = l.script; pace = l.pace; fds = l.fds; noted = l.notes } };
}

impl MemLink {
    /// A link that gives these answers, and has room to tell `calls` calls and `written` bytes that it is given to
    /// write. `fails` are the numbers of those calls of `listen` and `wait` that fail, counted from 1 over both.
    ///
    /// # Errors
    ///
    /// `Memory` where memory for that room isn't found.
    pub fn new(
        alloc: Global,
        answers: Vec<Input>,
        fails: Vec<u64>,
        calls: usize,
        written: usize,
    ) -> Result<MemLink, Memory>
        ensures { IfOk result (λ link. link ≡ new_link answers.items fails.items calls written) }
    {
        Ok(MemLink {
            alloc,
            script: Script::new(answers),
            pace: Pace::new(1, fails),
            fds: OpenSet::new(alloc),
            notes: Notes::with_room(alloc, calls, written)?,
        })
    }
}

#[tactic(auto, using(crate::proofs::TellingLaws::tells_same, crate::proofs::LinkLaws::tells_noted, crate::proofs::LinkLaws::given_read, crate::proofs::LinkLaws::given_write))]
impl Link for MemLink {
    ghost told = { λ l. l.noted.told };

    ghost faults = { λ l. l.pace.faults };

    ghost is_open = { λ l fd. is_among fd l.fds };

    fn listen(&mut self, path: &str) -> Result<Done, Memory>
        ensures cause { HasCause self.old.pace.faults self.new.pace.faults (has_failed result) }
        ensures no_fault { OnErr result (self.new.pace.faults ≡ self.old.pace.faults) }
        ensures open { SameOpen (λ fd. is_among fd self.old.fds) (λ fd. is_among fd self.new.fds) }
        ensures told { Tells self.old.noted.told self.new.noted.told (listen_calls path.now result) }
        ensures noted { self.new.noted ≡ noted_after self.old.noted (listen_calls path.now result) }
        ensures fails { OnOk result (has_failed result ≡ fails_next self.old.pace) }
        ensures pace { OnOk result (self.new.pace ≡ after_call self.old.pace) }
        ensures kept { OnErr result (self.new ≡ self.old) }
    {
        let path = path.as_bytes().to_vec(self.alloc)?;
        let answer = if self.pace.begin_call() {
            Done::Failed
        } else {
            Done::Done
        };
        self.notes.add(Note::Listen(path, answer));
        Ok(answer)
    }

    fn wait(&mut self, wants: &[Want], limit: u64, ready: &mut Vec<Want>) -> Result<Done, Memory>
        ensures ready { AreReady wants.now ready.new.items }
        ensures cause { HasCause self.old.pace.faults self.new.pace.faults (has_failed result) }
        ensures no_fault { OnErr result (self.new.pace.faults ≡ self.old.pace.faults) }
        ensures open { SameOpen (λ fd. is_among fd self.old.fds) (λ fd. is_among fd self.new.fds) }
        ensures told { Tells self.old.noted.told self.new.noted.told (wait_calls wants.now limit result ready.new.items) }
        ensures noted { self.new.noted ≡ noted_after self.old.noted (wait_calls wants.now limit result ready.new.items) }
        ensures answer { GivesReady wants.now self.old.answers self.new.answers result ready.new.items }
        ensures fails { OnOk result (has_failed result ≡ fails_next self.old.pace) }
        ensures pace { OnOk result (self.new.pace ≡ after_call self.old.pace) }
        ensures kept { OnErr result (self.new ≡ self.old) }
    {
        ready.clear();
        let wanted = wants.to_vec(self.alloc)?;
        let fits = fits_wait(wants, self.script.front());
        copy_ready(self.script.front(), fits, ready)?;
        if self.pace.begin_call() {
            ready.clear();
            self.notes.add(Note::FailedWait(wanted, limit));
            return Ok(Done::Failed);
        }
        let answer = self.script.give(fits);
        self.notes.add(Note::Wait(wanted, limit, answer));
        Ok(Done::Done)
    }

    fn accept(&mut self, fd: u32) -> Result<Accepted, Memory>
        ensures open { AcceptsOpen (λ d. is_among d self.old.fds) (λ d. is_among d self.new.fds) result }
        ensures faults { self.new.pace.faults ≡ self.old.pace.faults }
        ensures told { Tells self.old.noted.told self.new.noted.told (accept_calls fd result) }
        ensures noted { self.new.noted ≡ noted_after self.old.noted (accept_calls fd result) }
        ensures answer { IfOk result (λ a. Gives (fits_accept self.old.fds) self.old.answers self.new.answers (accept_input a)) }
        ensures pace { self.new.pace ≡ self.old.pace }
        ensures kept { OnErr result (self.new ≡ self.old) }
    {
        let fits = fits_accept(&self.fds, self.script.front());
        let result = accept_of(self.script.front(), &self.fds);
        self.fds.open_for(result)?;
        let answer = self.script.give(fits);
        self.notes.add(Note::Accept(fd, answer));
        Ok(result)
    }

    fn read(&mut self, fd: u32, buf: &mut [u8]) -> LinkRead
        requires { 0 < length buf.old }
        ensures within { ReadsWithin result (length buf.new) }
        ensures faults { self.new.pace.faults ≡ self.old.pace.faults }
        ensures open { SameOpen (λ d. is_among d self.old.fds) (λ d. is_among d self.new.fds) }
        ensures told { Tells self.old.noted.told self.new.noted.told (Read fd (length buf.new) (read_input result buf.new) ∷ []) }
        ensures noted { self.new.noted ≡ noted_with self.old.noted (Read fd (length buf.new) (read_input result buf.new)) }
        ensures answer { Gives (fits_read (length buf.old)) self.old.answers self.new.answers (read_input result buf.new) }
        ensures pace { self.new.pace ≡ self.old.pace }
    {
        let fits = fits_read(buf.len(), self.script.front());
        let answer = self.script.give(fits);
        let result = read_of(&answer, buf);
        self.notes.add(Note::Read(fd, buf.len(), answer));
        result
    }

    fn write(&mut self, fd: u32, bytes: &[u8]) -> LinkWrote
        requires { 0 < length bytes.now }
        ensures within { WritesWithin result (length bytes.now) }
        ensures faults { self.new.pace.faults ≡ self.old.pace.faults }
        ensures open { SameOpen (λ d. is_among d self.old.fds) (λ d. is_among d self.new.fds) }
        ensures told { Tells self.old.noted.told self.new.noted.told (Write fd bytes.now (write_input result) ∷ []) }
        ensures noted { self.new.noted ≡ noted_with self.old.noted (Write fd bytes.now (write_input result)) }
        ensures answer { Gives (fits_write (length bytes.now)) self.old.answers self.new.answers (write_input result) }
        ensures pace { self.new.pace ≡ self.old.pace }
    {
        let fits = fits_write(bytes.len(), self.script.front());
        let answer = self.script.give(fits);
        let result = write_of(&answer, bytes.len());
        self.notes
            .add_with(Note::Write(fd, bytes.len(), answer), bytes);
        result
    }

    fn close(&mut self, fd: u32)
        ensures faults { self.new.pace.faults ≡ self.old.pace.faults }
        ensures open { Closes (λ d. is_among d self.old.fds) (λ d. is_among d self.new.fds) fd }
        ensures told { Tells self.old.noted.told self.new.noted.told (Close fd ∷ []) }
        ensures noted { self.new.noted ≡ noted_with self.old.noted (Close fd) }
        ensures answers { self.new.answers ≡ self.old.answers }
        ensures pace { self.new.pace ≡ self.old.pace }
    {
        self.fds.remove(fd);
        self.notes.add(Note::Close(fd));
    }
}
