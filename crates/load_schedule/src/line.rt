//! A line of a schedule, as it is made and given.
ghost use Rattle.std.specs.Prelude.{◌≡◌, ◌<◌, ◌≤◌, ◌+◌, ◌++◌, [], length, take, codes};
ghost use Rattle.std.specs.Fmt.{decimal};

use itoa::write_digits;
use std::marker::Model;

/// Bytes enough for the longest line, which has two numbers of ten digits and 17 bytes beside them.
const ROOM: usize = 40;

/// A line with its LF, or what is left of one. It is made from its end, as the digits of a number are. Contracts see
/// its bytes.
#[derive(Drop)]
pub(crate) struct Line {
    bytes: [u8; ROOM],
    /// Where it begins; it ends with the bytes.
    start: usize,
}

impl Model for Line {
    ghost use Rattle.std.specs.Prelude.{ℕ, List, drop, ◌≤◌};

    ghost Value = { List ℕ };

    ghost view = { λ l. drop l.start l.bytes };

    ghost invariant = { λ l. l.start ≤ 40 };
}

impl Line {
    /// No line.
    pub(crate) fn new() -> Line
        ensures { result ≡ [] }
    {
        Line {
            bytes: [0; ROOM],
            start: ROOM,
        }
    }

    /// How many bytes are left of it.
    pub(crate) fn len(&self) -> usize
        ensures { result ≡ length self.now }
    {
        ROOM - self.start
    }

    /// Takes what there is away.
    fn clear(&mut self)
        ensures { self.new ≡ [] }
    {
        self.start = ROOM;
    }

    /// Sets a word before what there is.
    // Always inlined, as are its callers that take words, so that it copies a constant number of bytes.
    #[inline(always)]
    fn prepend(&mut self, word: &[u8])
        requires { length word.now + length self.old ≤ 40 }
        ensures { self.new ≡ word.now ++ self.old }
    {
        let start = self.start - word.len();
        self.bytes[start..self.start].copy_from_slice(word);
        self.start = start;
    }

    /// Sets a number before what there is.
    #[inline(always)]
    fn prepend_number(&mut self, number: u32)
        requires { 10 + length self.old ≤ 40 }
        ensures digits { self.new ≡ decimal number ++ self.old }
        ensures short { length self.new ≤ 10 + length self.old }
    {
        self.start = write_digits(u64::from(number), &mut self.bytes, self.start);
    }

    /// Makes a line of these words.
    #[inline(always)]
    pub(crate) fn write(&mut self, words: &[u8])
        requires { length words.now ≤ 40 }
        ensures { self.new ≡ words.now }
    {
        self.clear();
        self.prepend(words);
    }

    /// Makes a line of these words, which end in a space, and two numbers.
    #[inline(always)]
    pub(crate) fn write_pair(&mut self, words: &[u8], first: u32, second: u32)
        requires { length words.now ≤ 16 }
        ensures { self.new ≡ words.now ++ decimal first ++ codes " " ++ decimal second ++ codes "\n" }
    {
        self.clear();
        self.prepend(b"\n");
        self.prepend_number(second);
        self.prepend(b" ");
        self.prepend_number(first);
        self.prepend(words);
    }

    /// Makes the line that makes an object with this owner and this size.
    pub(crate) fn write_new(&mut self, owner: u32, size: u32)
        ensures { self.new ≡ codes "call new " ++ decimal owner ++ codes " " ++ decimal size ++ codes " n\n" }
    {
        self.clear();
        self.prepend(b" n\n");
        self.prepend_number(size);
        self.prepend(b" ");
        self.prepend_number(owner);
        self.prepend(b"call new ");
    }

    /// Makes the line that frees this object.
    pub(crate) fn write_free(&mut self, object: u32)
        ensures { self.new ≡ codes "call free " ++ decimal object ++ codes "\n" }
    {
        self.clear();
        self.prepend(b"\n");
        self.prepend_number(object);
        self.prepend(b"call free ");
    }

    /// Gives bytes from its front, as many as there is room for, and says how many.
    pub(crate) fn give(&mut self, buf: &mut [u8]) -> usize
        ensures bytes { self.old ≡ take result buf.new ++ self.new }
        ensures within { result ≤ length buf.old }
        ensures some { 0 < length self.old → 0 < length buf.old → 0 < result }
    {
        let rest = &self.bytes[self.start..];
        let n = rest.len().min(buf.len());
        buf[..n].copy_from_slice(&rest[..n]);
        self.start += n;
        n
    }
}
