//! A schedule that is made while it is read.
ghost use Rattle.std.specs.Prelude.{◌≡◌, ◌≢◌, ◌<◌, ◌≤◌, ◌+◌, ◌++◌, [], length, take, drop, Some, false};
ghost use Rattle.outside.specs.Causes.{HasCause};
ghost use Rattle.outside.specs.Reads.{ReadsFrom, has_failed};
ghost use Rattle.tree_specs.specs.Texts.Load.{load_schedule};
ghost use Rattle.load_schedule.specs.Sources.{text_to_come};

use crate::line::Line;
use crate::place::Place;
use outside::{Got, Source};
use std::marker::Model;

/// Writes the next line, of a call or the one that counts.
fn next_line(place: &mut Place, left: &mut u32, is_over: &mut bool, line: &mut Line)
    requires more { is_over.old ≡ false }
    requires room { place.old.made + left.old ≤ u32.MAX }
    ensures bytes { text_to_come is_over.old left.old place.old ≡ line.new ++ text_to_come is_over.new left.new place.new }
    ensures some { 0 < length line.new }
    ensures room { place.new.made + left.new ≤ u32.MAX }
{
    if *left == 0 {
        *is_over = true;
        line.write(b"call count 0\n");
        return;
    }
    *left -= 1;
    place.next_line(line);
}

/// The schedule of so many calls that is made from a number. Each line is made when it is to be given, so none is held
/// but that one. Contracts see the bytes that are left.
#[derive(Drop)]
pub struct LoadSource {
    place: Place,
    /// How many calls are still to be drawn.
    left: u32,
    /// Whether the last line has been made.
    is_over: bool,
    /// What is left of the line that is given.
    line: Line,
}

impl Model for LoadSource {
    ghost use Rattle.std.specs.Prelude.{◌≡◌, ℕ, ◌≤◌, ◌<◌, ◌+◌, ◌^◌, ◌++◌, List, drop, length, false};
    ghost use Rattle.load_schedule.specs.Sources.{text_to_come};

    ghost Value = { List ℕ };

    ghost view = { λ s. s.line ++ text_to_come s.is_over s.left s.place };

    ghost invariant = { λ s. (s.place.made + s.left < 2 ^ 32) × (s.is_over ≡ false → 0 < length s.line) };
}

impl LoadSource {
    /// The schedule that is made from this number, with so many calls before the last.
    pub fn new(number: u32, count: u32) -> LoadSource
        ensures { result ≡ load_schedule number count }
    {
        let mut line = Line::new();
        line.write(b"tv schedule 1 pool\n");
        LoadSource {
            place: Place::new(number),
            left: count,
            is_over: false,
            line,
        }
    }

    /// Gives the next bytes of the present line, as many as there is room for; none only where nothing is left.
    fn give(&mut self, buf: &mut [u8]) -> usize
        ensures bytes { self.old ≡ take result buf.new ++ self.new }
        ensures within { result ≤ length buf.old }
        ensures end { 0 < length buf.old → result ≡ 0 → self.new ≡ [] }
    {
        let n = self.line.give(buf);
        if self.line.len() > 0 || self.is_over {
            return n;
        }
        next_line(
            &mut self.place,
            &mut self.left,
            &mut self.is_over,
            &mut self.line,
        );
        n
    }

    /// Gives bytes to the buffer's front until it is full or nothing is left.
    fn fill(&mut self, buf: &mut [u8]) -> usize
        ensures bytes { self.old ≡ take result buf.new ++ self.new }
        ensures within { result ≤ length buf.old }
        ensures end { result < length buf.old → self.new ≡ [] }
    {
        let mut filled = 0;
        'fills: while filled < buf.len() {
            let n = self.give(&mut buf[filled..]);
            if n == 0 {
                return filled;
            }
            filled += n;
        }
        filled
    }
}

impl Source for LoadSource {
    ghost left = { λ s. Some s };

    ghost faults = { λ _. 0 };

    /// Fills `buf` with what is left of the present line and with those behind it, up to `u32::MAX` bytes.
    fn read(&mut self, buf: &mut [u8]) -> Got
        requires { 0 < length buf.old }
        ensures bytes { ReadsFrom (Some self.old) (Some self.new) result buf.new }
        ensures cause { HasCause 0 0 (has_failed result) }
        ensures never_fails { result ≢ Got.Failed }
    {
        let most = buf.len().min(u32::MAX as usize);
        match self.fill(&mut buf[..most]) {
            0 => Got::End,
            n => Got::Some(n as u32),
        }
    }
}
