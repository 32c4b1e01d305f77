//! The bytes of a connection that came and belong to no line that was done.
ghost use Rattle.line_pieces.specs.Cuts.{EndsFirst};
ghost use Rattle.service_lines.specs.Cuts.{IsCut, resumed};
ghost use Rattle.service_rules.specs.Lines.{long_limit};
ghost use Rattle.std.specs.Prelude.{◌≡◌, ◌++◌, ◌≤◌, ◌<◌, [], OnOk, OnErr, false, true, take, drop as dropped, length as length_of, ◌+◌};

use bytes::BytesMut;
use line_pieces::line_end;
use service_rules::LENGTH_LIMIT;
use std::alloc::Global;
use std::marker::Model;
use tree_specs::Memory;

/// What stands in front of the bytes that came.
#[derive(Clone, Copy)]
pub enum Cut {
    /// A whole line of so many bytes, and then its LF.
    Line(usize),
    /// More bytes than a line has, and no LF among them.
    Long,
    /// No whole line as yet.
    Part,
}

/// What stands in front of these bytes, whose first LF stands here.
#[tactic(auto, using(crate::proofs::Cutting::line_in_front, crate::proofs::Cutting::part_in_front, crate::proofs::Cutting::long_open))]
fn cut_at(end: Option<usize>, bytes: &[u8]) -> Cut
    requires { EndsFirst bytes.now end }
    ensures { IsCut result bytes.now }
{
    match end {
        Some(end) => {
            if end <= LENGTH_LIMIT {
                Cut::Line(end)
            } else {
                Cut::Long
            }
        }
        None => {
            if bytes.len() <= LENGTH_LIMIT {
                Cut::Part
            } else {
                Cut::Long
            }
        }
    }
}

/// The bytes that came and belong to no line that was done.
#[derive(Drop)]
pub struct Incoming {
    bytes: BytesMut,
    /// They go on with a line that was too long, of which nothing is kept.
    skips: bool,
}

impl Model for Incoming {
    ghost use Rattle.service_lines.specs.Cuts.{Came};

    ghost Value = { Came };

    ghost view = { λ i. record { came = i.bytes.items; dropping = i.skips } };
}

impl Incoming {
    /// Nothing came as yet. It takes no memory.
    pub fn new(alloc: Global) -> Incoming
        ensures came { result.came ≡ [] }
        ensures dropping { result.dropping ≡ false }
    {
        Incoming {
            bytes: BytesMut::new(alloc),
            skips: false,
        }
    }

    /// More bytes came. If memory runs out, none did.
    pub fn append(&mut self, bytes: &[u8]) -> Result<(), Memory>
        ensures ok { OnOk result (self.new ≡ record self.old { came = self.old.came ++ bytes.now }) }
        ensures err { OnErr result (self.new ≡ self.old) }
    {
        self.bytes.extend_from_slice(bytes)?;
        Ok(())
    }

    /// Drops what came of a line that was too long, with its LF. Whether anything was dropped.
    #[tactic(auto, using(crate::proofs::Cutting::skipped_line, crate::proofs::Cutting::after_none))]
    pub fn skip(&mut self) -> bool
        ensures resumed { self.new ≡ resumed self.old }
        ensures kept { result ≡ false → self.new ≡ self.old }
        ensures fewer { result ≡ true → length_of self.new.came < length_of self.old.came }
    {
        if !self.skips {
            return false;
        }
        if self.bytes.is_empty() {
            return false;
        }
        match line_end(self.bytes.as_slice()) {
            Some(end) => {
                self.bytes.advance(end + 1);
                self.skips = false;
            }
            None => self.bytes.clear(),
        }
        true
    }

    /// What stands in front.
    pub fn cut(&self) -> Cut
        ensures { IsCut result self.now.came }
    {
        let bytes = self.bytes.as_slice();
        cut_at(line_end(bytes), bytes)
    }

    /// The line of so many bytes that stands in front.
    pub fn line(&self, length: usize) -> &[u8]
        requires { length < length_of self.now.came }
        ensures { result.now ≡ take length self.now.came }
    {
        &self.bytes.as_slice()[..length]
    }

    /// The line of so many bytes that stands in front is done.
    pub fn end_line(&mut self, length: usize)
        requires { length < length_of self.old.came }
        ensures { self.new ≡ record self.old { came = dropped (length + 1) self.old.came } }
    {
        let _came = self.bytes.len();
        self.bytes.advance(length + 1);
    }

    /// The line in front is too long: nothing of it is kept.
    pub fn end_long(&mut self)
        requires { long_limit ≤ length_of self.old.came }
        ensures { self.new ≡ record { came = dropped long_limit self.old.came; dropping = true } }
    {
        self.bytes.advance(LENGTH_LIMIT + 1);
        self.skips = true;
    }
}
