//! A sink that counts lines.
ghost use Rattle.std.specs.Prelude.{◌≡◌, ◌≢◌, ◌<◌, ◌≤◌, ◌+◌, ◌++◌, [], ◌∷◌, length, take, drop, Some, true, IfOk, OnOk, OnErr};
ghost use Rattle.std.proofs.Common.{refl};
ghost use Rattle.outside.specs.Causes.{HasCause};
ghost use Rattle.outside.specs.Puts.{PutsTo, KeepsRoom, has_failed};
ghost use Rattle.tree_specs.specs.Texts.Load.{five_lines, named};
ghost use Rattle.line_pieces.specs.Cuts.{has_no_lf};
ghost use Rattle.load_schedule.specs.Tallies.{five_of, later_reply, noted};

use crate::told::{Counts, reply_of, told_by};
use http_server::Log;
use itoa::Buffer;
use line_pieces::line_end;
use outside::{Put, Sink};
use std::alloc::{AllocError, Global};
use std::marker::Model;
use tree_specs::Memory;

/// Keeps these bytes in place of those that were held.
fn replace(held: &mut Vec<u8>, bytes: &[u8]) -> Result<(), AllocError>
    ensures replaced { OnOk result (held.new.items ≡ bytes.now) }
    ensures kept { OnErr result (held.new.items ≡ held.old.items) }
{
    let copy = bytes.to_vec(*held.allocator())?;
    *held = copy;
    Ok(())
}

/// Adds what later lines tell to the counts and the last reply. It fails where there is no memory, or where a count is
/// past the greatest number, and then nothing is added.
fn add(counts: &mut Counts, last: &mut Vec<u8>, later: Counts, reply: &[u8]) -> Result<(), Memory>
    ensures refused { OnOk result (counts.new.refused ≡ counts.old.refused + later.refused) }
    ensures freed { OnOk result (counts.new.freed ≡ counts.old.freed + later.freed) }
    ensures dropped { OnOk result (counts.new.dropped ≡ counts.old.dropped + later.dropped) }
    ensures last { OnOk result (last.new.items ≡ later_reply last.old.items reply.now) }
    ensures counts_kept { OnErr result (counts.new ≡ counts.old) }
    ensures last_kept { OnErr result (last.new.items ≡ last.old.items) }
{
    let Some(sum) = counts.plus(later) else {
        return Err(Memory);
    };
    if !reply.is_empty() {
        replace(last, reply)?;
    }
    *counts = sum;
    Ok(())
}

/// Adds these bytes to a history. Nothing is done for it at run time.
fn add_all(history: &mut Log<u8, ()>, bytes: &[u8])
    ensures { noted history.new.items ≡ noted history.old.items ++ bytes.now }
{
    for byte in bytes {
        *history = history.and(byte, &());
    }
}

/// What a reply has after `reply `.
fn number_of(reply: &[u8]) -> &[u8]
    ensures { result.now ≡ drop 6 reply.now }
{
    &reply[reply.len().min(6)..]
}

/// Appends a name and a value as a line.
fn add_line(text: &mut Vec<u8>, name: &[u8], value: &[u8]) -> Result<(), AllocError>
    ensures { OnOk result (text.new.items ≡ text.old.items ++ named name.now value.now) }
{
    text.extend_from_slice(name)?;
    text.extend_from_slice(value)?;
    text.push(b'\n')?;
    Ok(())
}

/// The five lines of these counts and this reply, the last one.
fn five_lines(alloc: Global, count: u32, counts: Counts, last: &[u8]) -> Result<Vec<u8>, Memory>
    ensures { IfOk result (λ text. text.items ≡ five_of count counts.refused counts.freed counts.dropped last.now) }
{
    let mut digits = Buffer::new();
    let mut text = Vec::new(alloc);
    add_line(&mut text, b"calls ", digits.format(count).as_bytes())?;
    add_line(
        &mut text,
        b"refused ",
        digits.format(counts.refused).as_bytes(),
    )?;
    add_line(&mut text, b"freed ", digits.format(counts.freed).as_bytes())?;
    add_line(
        &mut text,
        b"dropped ",
        digits.format(counts.dropped).as_bytes(),
    )?;
    add_line(&mut text, b"live ", number_of(last))?;
    Ok(text)
}

/// A sink that keeps of the lines that are put to it how many there were of some kinds, and the last reply. Contracts
/// see the bytes that were put; of the lines that have ended these exist in proofs alone, as `ended`.
#[derive(Drop)]
pub struct Tally {
    counts: Counts,
    /// The last line that is a reply.
    last: Vec<u8>,
    /// The present line so far.
    line: Vec<u8>,
    /// The bytes of the lines that have ended. Only proofs read it, and it takes no memory.
    ended: Log<u8, ()>,
}

impl Model for Tally {
    ghost use Rattle.std.specs.Prelude.{ℕ, List, ◌++◌, ◌≡◌, true};
    ghost use Rattle.line_pieces.specs.Cuts.{has_no_lf};
    ghost use Rattle.load_schedule.specs.Tallies.{noted, Sums};

    ghost Value = { List ℕ };

    ghost view = { λ t. noted t.ended.items ++ t.line.items };

    ghost invariant = { λ t. Sums (noted t.ended.items) t.counts.refused t.counts.freed t.counts.dropped t.last.items × (has_no_lf t.line.items ≡ true) };
}

impl Tally {
    /// A tally of no bytes.
    pub fn new(alloc: Global) -> Tally
        ensures { result ≡ [] }
    {
        Tally {
            counts: Counts::NONE,
            last: Vec::new(alloc),
            line: Vec::new(alloc),
            ended: Log::new(),
        }
    }

    /// Takes bytes of the present line.
    fn lengthen(&mut self, run: &[u8]) -> Result<(), AllocError>
        requires { has_no_lf run.now ≡ true }
        ensures taken { OnOk result (self.new ≡ self.old ++ run.now) }
        ensures kept { OnErr result (self.new ≡ self.old) }
    {
        self.line.extend_from_slice(run)
    }

    /// Takes the lines at the front of these bytes that end there, and says how many bytes they are: none where a line
    /// has begun.
    fn take_lines(&mut self, bytes: &[u8]) -> Result<usize, Memory>
        ensures within { IfOk result (λ n. n ≤ length bytes.now) }
        ensures taken { IfOk result (λ n. self.new ≡ self.old ++ take n bytes.now) }
        ensures kept { OnErr result (self.new ≡ self.old) }
    {
        if !self.line.is_empty() {
            return Ok(0);
        }
        let told = told_by(bytes);
        let reply = &bytes[told.reply_at..told.reply_at + told.reply_len];
        add(&mut self.counts, &mut self.last, told.counts, reply)?;
        add_all(&mut self.ended, &bytes[..told.len]);
        Ok(told.len)
    }

    /// Takes the rest of the present line and its LF.
    fn end_line(&mut self, rest: &[u8]) -> Result<(), Memory>
        requires { has_no_lf rest.now ≡ true }
        ensures taken { OnOk result (self.new ≡ self.old ++ rest.now ++ 10 ∷ []) }
        ensures kept { OnErr result (self.new ≡ self.old) }
    {
        let begun = self.line.len();
        self.line.extend_from_slice(rest)?;
        let reply = reply_of(&self.line);
        let later = Counts::NONE.with(&self.line);
        if add(&mut self.counts, &mut self.last, later, reply).is_err() {
            self.line.truncate(begun);
            return Err(Memory);
        }
        add_all(&mut self.ended, &self.line);
        add_all(&mut self.ended, b"\n");
        self.line.clear();
        Ok(())
    }

    /// The five lines of all that was put: what follows the last LF is a line too.
    pub fn five_lines(mut self, alloc: Global, count: u32) -> Result<Vec<u8>, Memory>
        ensures { IfOk result (λ text. text.items ≡ five_lines count self) }
    {
        if self.line.is_empty() {
            return five_lines(alloc, count, self.counts, &self.last);
        }
        self.end_line(&[])?;
        five_lines(alloc, count, self.counts, &self.last)
    }
}

impl Sink for Tally {
    ghost held = { λ t. Some t };

    ghost room = { λ _. Some 0 };

    ghost faults = { λ _. 0 };

    ghost tells = { λ t told. refl };

    /// Takes all lines that end in these bytes; where a line has begun before or none ends, up to the next LF and with
    /// it. It tells no room, so it may need memory for a reply and for a line that has begun.
    fn put(&mut self, bytes: &[u8]) -> Result<Put, Memory>
        requires { 0 < length bytes.now }
        ensures bytes { PutsTo (Some self.old) (Some self.new) result bytes.now }
        ensures room { KeepsRoom (Some 0) (Some 0) result bytes.now }
        ensures cause { HasCause 0 0 (has_failed result) }
        ensures never_fails { result ≢ Ok Put.Failed }
    {
        let bytes = &bytes[..bytes.len().min(u32::MAX as usize)];
        let n = self.take_lines(bytes)?;
        if n > 0 {
            return Ok(Put::Took(n as u32));
        }
        match line_end(bytes) {
            Some(end) => {
                self.end_line(&bytes[..end])?;
                Ok(Put::Took(end as u32 + 1))
            }
            None => {
                self.lengthen(bytes)?;
                Ok(Put::Took(bytes.len() as u32))
            }
        }
    }
}
