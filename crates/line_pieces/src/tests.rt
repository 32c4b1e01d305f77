//! Texts that come in pieces, at something small that takes lines.

use super::*;
use std::alloc::Global;
use std::test::Fail;

/// Why the lines were not all joined.
#[derive(Clone, Copy, Debug, PartialEq, Eq)]
enum Cause {
    Limit(u64),
    Cut(u64),
    Memory,
}

/// Lines, each with a bar behind it. Of so many bytes it is full.
#[derive(Drop)]
struct Joined {
    text: Vec<u8>,
    most: usize,
}

impl TakesLines for Joined {
    type Stop = Cause;

    ghost Found = { Unit {0} };

    ghost comes = { λ _ _ _. tt };

    ghost ready = { λ _ _. Unit {0} };

    ghost stops = { λ _ _ _. Unit {0} };

    ghost ends = { λ _ _. Unit {0} };

    fn take_line(&mut self, _number: u64, line: &[u8]) -> Result<(), Cause> {
        if self.text.extend_from_slice(line).is_err() || self.text.push(b'|').is_err() {
            return Err(Cause::Memory);
        }
        Ok(())
    }

    fn is_full(&self) -> bool {
        self.text.len() >= self.most
    }

    fn refuse_limit(&mut self, number: u64) -> Cause {
        Cause::Limit(number)
    }

    fn want_memory(&self) -> Cause {
        Cause::Memory
    }

    fn finish(&mut self, number: u64, cut: bool) -> Result<(), Cause> {
        if cut { Err(Cause::Cut(number)) } else { Ok(()) }
    }
}

fn read_both(alloc: Global, first: &[u8], second: &[u8]) -> Result<Vec<u8>, Cause> {
    let taker = Joined {
        text: Vec::new(alloc),
        most: 100,
    };
    let mut reader = LineReader::new(alloc, taker);
    reader.feed(first)?;
    reader.feed(second)?;
    reader.finish()?;
    Ok(reader.taker.text)
}

#[test]
fn pieces_are_cut_into_lines(rt: HostRuntime) -> Result<(), Fail> {
    let text = read_both(rt.alloc(), b"ab\nc", b"d\n\ne\n");
    assert!(rt; text.is_ok_and(|text| text.as_slice() == b"ab|cd||e|".as_slice()));
    assert_eq!(rt;
        read_both(rt.alloc(), b"a\n", b"b\nc").err(),
        Some(Cause::Cut(3))
    );
    Ok(())
}

#[test]
fn what_is_left_of_a_piece_comes_back_where_the_taker_is_full(rt: HostRuntime) -> Result<(), Fail> {
    let taker = Joined {
        text: Vec::new(rt.alloc()),
        most: 3,
    };
    let mut reader = LineReader::new(rt.alloc(), taker);
    let rest = reader.feed_until_full(b"a\nb\nc\nd").ok();
    assert_eq!(rt; rest, Some(b"c\nd".as_slice()));
    assert_eq!(rt; reader.taker.text.as_slice(), b"a|b|".as_slice());
    Ok(())
}

#[test]
fn a_line_ends_at_its_first_line_feed(rt: HostRuntime) -> Result<(), Fail> {
    assert_eq!(rt; line_end(b"ab\nc\n"), Some(2));
    assert_eq!(rt; line_end(b"ab"), None);
    Ok(())
}
