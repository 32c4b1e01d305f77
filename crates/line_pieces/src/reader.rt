//! Reading a text, piece by piece.
ghost use Rattle.std.specs.Prelude.{◌≡◌, ◌<◌, ◌≤◌, ◌+◌, [], ◌∷◌, ◌++◌, IfOk, OnOk, IsTrue, ◌↔◌, length};
ghost use Rattle.tree_specs.specs.Texts.Lines.{lines_limit};
ghost use Rattle.line_pieces.specs.Cuts.{has_no_lf};
ghost use Rattle.line_pieces.specs.Readings.{begun_by, Feeds, found_now, IsBetweenBytes, room_left, Takes};
ghost use Rattle.line_pieces.specs.Takings.{EndsWith};

use crate::cutting::line_end;
use crate::taker::TakesLines;
use std::alloc::Global;
use std::mem;
use tree_specs::{LINE_LIMIT, LINES_LIMIT};

/// Cuts pieces of bytes into lines, and gives these to what takes them.
///
/// A line that stands whole in a piece is given as it stands there; only one that a piece's end has cut is copied.
#[derive(Drop)]
pub struct LineReader<T> {
    pub taker: T,
    /// Number of the current line, from 1.
    number: u64,
    /// Its bytes so far.
    line: Vec<u8>,
}

impl<T: TakesLines> LineReader<T> {
    ghost use Rattle.line_pieces.specs.States.{reading_of};

    /// A reader before the first byte. It takes no memory.
    pub fn new(alloc: Global, taker: T) -> LineReader<T>
        ensures begun { reading_of result ≡ begun_by taker }
        ensures ready { T.ready taker 1 → IsBetweenBytes T.ready (reading_of result) }
    {
        LineReader {
            taker,
            number: 1,
            line: Vec::new(alloc),
        }
    }

    /// Whether the line that has begun is one too many.
    fn is_late(&self) -> bool
        ensures { IsTrue result ↔ (lines_limit < self.now.number) }
    {
        self.number > LINES_LIMIT
    }

    /// Takes bytes of the line that has begun.
    fn lengthen(&mut self, run: &[u8]) -> Result<(), T::Stop>
        requires ready { IsBetweenBytes T.ready (reading_of self.old) }
        requires plain { IsTrue (has_no_lf run.now) }
        ensures taken { Takes T.comes T.stops (reading_of self.old) run.now (reading_of self.new) result }
        ensures ready { OnOk result (IsBetweenBytes T.ready (reading_of self.new)) }
        ensures progress { OnOk result (room_left (reading_of self.new) + length run.now ≤ room_left (reading_of self.old)) }
    {
        if run.is_empty() {
            return Ok(());
        }
        if self.is_late() {
            return Err(self.taker.refuse_limit(self.number));
        }
        if run.len() > LINE_LIMIT - self.line.len() {
            return Err(self.taker.refuse_limit(self.number));
        }
        if self.line.extend_from_slice(run).is_err() {
            return Err(self.taker.want_memory());
        }
        Ok(())
    }

    /// Takes the LF of the line that has begun.
    fn end_line(&mut self) -> Result<(), T::Stop>
        requires { IsBetweenBytes T.ready (reading_of self.old) }
        ensures taken { Takes T.comes T.stops (reading_of self.old) (10 ∷ []) (reading_of self.new) result }
        ensures ready { OnOk result (IsBetweenBytes T.ready (reading_of self.new)) }
        ensures progress { OnOk result (room_left (reading_of self.new) + 1 ≤ room_left (reading_of self.old)) }
    {
        if self.is_late() {
            return Err(self.taker.refuse_limit(self.number));
        }
        self.taker.take_line(self.number, &self.line)?;
        self.line.clear();
        self.number += 1;
        Ok(())
    }

    /// Takes a line that stands whole in the piece, where none has begun.
    #[inline(always)]
    fn take_here(&mut self, line: &[u8]) -> Result<(), T::Stop>
        requires ready { IsBetweenBytes T.ready (reading_of self.old) }
        requires none { self.old.line.items ≡ [] }
        requires plain { IsTrue (has_no_lf line.now) }
        ensures taken { Takes T.comes T.stops (reading_of self.old) (line.now ++ 10 ∷ []) (reading_of self.new) result }
        ensures ready { OnOk result (IsBetweenBytes T.ready (reading_of self.new)) }
        ensures progress { OnOk result (room_left (reading_of self.new) + length line.now + 1 ≤ room_left (reading_of self.old)) }
    {
        if self.is_late() {
            return Err(self.taker.refuse_limit(self.number));
        }
        if line.len() > LINE_LIMIT {
            return Err(self.taker.refuse_limit(self.number));
        }
        self.taker.take_line(self.number, line)?;
        self.number += 1;
        Ok(())
    }

    /// Takes the rest of a line, and its LF.
    fn take_rest(&mut self, run: &[u8]) -> Result<(), T::Stop>
        requires ready { IsBetweenBytes T.ready (reading_of self.old) }
        requires plain { IsTrue (has_no_lf run.now) }
        ensures taken { Takes T.comes T.stops (reading_of self.old) (run.now ++ 10 ∷ []) (reading_of self.new) result }
        ensures ready { OnOk result (IsBetweenBytes T.ready (reading_of self.new)) }
        ensures progress { OnOk result (room_left (reading_of self.new) + length run.now + 1 ≤ room_left (reading_of self.old)) }
    {
        if self.line.is_empty() {
            return self.take_here(run);
        }
        self.lengthen(run)?;
        self.end_line()
    }

    /// Takes the next bytes, up to the end of the piece or of a line that makes the taker full. What is left of the piece
    /// is to be given next.
    pub fn feed_until_full<'a>(&mut self, piece: &'a [u8]) -> Result<&'a [u8], T::Stop>
        requires { IsBetweenBytes T.ready (reading_of self.old) }
        ensures taken { Feeds T.comes T.stops (reading_of self.old) piece.now (reading_of self.new) result }
        ensures ready { OnOk result (IsBetweenBytes T.ready (reading_of self.new)) }
        ensures progress { IfOk result (λ rest. room_left (reading_of self.new) + length piece.now ≤ room_left (reading_of self.old) + length rest.now) }
        ensures shorter { IfOk result (λ rest. 0 < length piece.now → length rest.now < length piece.now) }
    {
        let mut rest = piece;
        'lines: while let Some(end) = line_end(rest) {
            self.take_rest(&rest[..end])?;
            rest = &rest[end + 1..];
            if self.taker.is_full() {
                return Ok(rest);
            }
        }
        self.lengthen(rest)?;
        Ok(&[])
    }

    /// Takes the next bytes, all of them.
    pub fn feed(&mut self, piece: &[u8]) -> Result<(), T::Stop>
        requires { IsBetweenBytes T.ready (reading_of self.old) }
        ensures taken { Takes T.comes T.stops (reading_of self.old) piece.now (reading_of self.new) result }
        ensures ready { OnOk result (IsBetweenBytes T.ready (reading_of self.new)) }
        ensures progress { OnOk result (room_left (reading_of self.new) + length piece.now ≤ room_left (reading_of self.old)) }
    {
        let mut rest = piece;
        'runs: while !rest.is_empty() {
            rest = self.feed_until_full(rest)?;
        }
        Ok(())
    }

    /// Takes the end of the text.
    pub fn finish(&mut self) -> Result<(), T::Stop>
        requires { IsBetweenBytes T.ready (reading_of self.old) }
        ensures { EndsWith T.stops T.ends self.new.taker result (found_now T.comes (reading_of self.old)) }
    {
        self.taker.finish(self.number, !self.line.is_empty())
    }
}
