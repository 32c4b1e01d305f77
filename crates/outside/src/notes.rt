//! The calls of a link in memory, as they are noted.
ghost use Rattle.std.specs.Prelude.{◌≡◌, ◌≤◌, ◌+◌, ◌-◌, ◌&&◌, ◌++◌, [], true, nat_le, Some, None, length, vec_len, IfOk};
ghost use Rattle.std.specs.Vec.{vec_capacity};
ghost use Rattle.outside.specs.Notes.{bytes_of, call_of, noted_with, told_with};

use crate::sink::Done;
use std::alloc::Global;
use std::marker::Model;
use tree_specs::{Input, Memory, Want};

/// A call with its answer. The bytes of a write stand beside the note.
#[derive(Drop)]
pub(crate) enum Note {
    /// The path.
    Listen(Vec<u8>, Done),
    /// What was wanted, and for how many microseconds at most it waited. The answer says what is ready.
    Wait(Vec<Want>, u64, Input),
    /// What was wanted, and for how many microseconds at most.
    FailedWait(Vec<Want>, u64),
    /// The listener's descriptor.
    Accept(u32, Input),
    /// The descriptor, and how many bytes had room.
    Read(u32, usize, Input),
    /// The descriptor, and how many bytes there were.
    Write(u32, usize, Input),
    /// The descriptor.
    Close(u32),
}

/// The calls that were noted, while there was room for them. Contracts see the calls, and the room that is left.
#[derive(Drop)]
pub(crate) struct Notes {
    notes: Vec<Note>,
    /// The bytes of the writes among them, one after another.
    written: Vec<u8>,
    calls_left: usize,
    bytes_left: usize,
    /// Whether there was room for all calls so far.
    tells: bool,
}

impl Model for Notes {
    ghost use Rattle.std.specs.Prelude.{◌≡◌, ◌+◌, ◌≤◌, length, vec_len, Some, None, if◌then◌else◌};
    ghost use Rattle.std.specs.Vec.{vec_capacity};
    ghost use Rattle.outside.specs.Notes.{Noted, calls_in, bytes_in};

    ghost Value = { Noted };

    ghost view = { λ n. record {
      told = if n.tells then Some (calls_in n.notes.items n.written.items) else None;
      calls_left = n.calls_left;
      bytes_left = n.bytes_left;
    } };

    ghost invariant = { λ n. (n.calls_left + vec_len n.notes ≤ vec_capacity n.notes)
        × (n.bytes_left + vec_len n.written ≤ vec_capacity n.written)
        × (bytes_in n.notes.items ≡ length n.written.items) };
}

impl Notes {
    /// No calls yet, and room for so many, with so many bytes of writes.
    ///
    /// # Errors
    ///
    /// `Memory` where memory for them isn't found.
    pub(crate) fn with_room(alloc: Global, calls: usize, bytes: usize) -> Result<Notes, Memory>
        ensures { IfOk result (λ n. n ≡ record { told = Some []; calls_left = calls; bytes_left = bytes }) }
    {
        Ok(Notes {
            notes: Vec::with_capacity(alloc, calls)?,
            written: Vec::with_capacity(alloc, bytes)?,
            calls_left: calls,
            bytes_left: bytes,
            tells: true,
        })
    }

    /// Notes a call that isn't a write.
    pub(crate) fn add(&mut self, note: Note)
        requires { bytes_of note ≡ 0 }
        ensures { self.new ≡ noted_with self.old (call_of note []) }
    {
        self.add_with(note, &[]);
    }

    /// Notes a call that was given these bytes to write.
    #[tactic(auto, using(crate::proofs::NoteLaws::noted_kept, crate::proofs::NoteLaws::noted_stopped))]
    pub(crate) fn add_with(&mut self, note: Note, bytes: &[u8])
        requires { bytes_of note ≡ length bytes.now }
        ensures { self.new ≡ noted_with self.old (call_of note bytes.now) }
    {
        if self.has_room(bytes.len()) {
            self.keep(note, bytes);
        } else {
            self.stop(note);
        }
    }

    /// Whether there is room for a call with so many bytes.
    fn has_room(&self, bytes: usize) -> bool
        ensures { result ≡ (nat_le 1 self.now.calls_left && nat_le bytes self.now.bytes_left) }
    {
        1 <= self.calls_left && bytes <= self.bytes_left
    }

    /// Keeps the note and the bytes, for which there is room.
    fn keep(&mut self, note: Note, bytes: &[u8])
        requires room { (nat_le 1 self.old.calls_left && nat_le (length bytes.now) self.old.bytes_left) ≡ true }
        requires same { bytes_of note ≡ length bytes.now }
        ensures { self.new ≡ record {
          told = told_with self.old.told (call_of note bytes.now);
          calls_left = self.old.calls_left - 1;
          bytes_left = self.old.bytes_left - length bytes.now;
        } }
    {
        self.notes.push_reserved(note);
        append_reserved(&mut self.written, bytes);
        self.calls_left -= 1;
        self.bytes_left -= bytes.len();
    }

    /// Tells nothing from now on, as there is no room for this one.
    fn stop(&mut self, _note: Note)
        ensures { self.new ≡ record self.old { told = None } }
    {
        self.tells = false;
    }
}

/// Appends bytes for which there is room.
fn append_reserved(list: &mut Vec<u8>, more: &[u8])
    requires { vec_len list.old + length more.now ≤ vec_capacity list.old }
    ensures items { list.new.items ≡ list.old.items ++ more.now }
    ensures len { vec_len list.new ≡ vec_len list.old + length more.now }
    ensures capacity { vec_capacity list.old ≤ vec_capacity list.new }
{
    list.extend_from_slice(more).unwrap();
}
