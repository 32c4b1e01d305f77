//! What plays the lines of a schedule.
ghost use Rattle.std.specs.Prelude.{◌≡◌, ◌≤◌, ◌+◌, ℕ, List, IsTrue, OnOk, length};
ghost use Rattle.tree_specs.specs.Texts.Lines.{Line, line_limit, lines_limit};
ghost use Rattle.line_pieces.specs.Takings.{TakesLine, RefusesLimit, TakesEnd};
ghost use Rattle.schedule_replay.specs.Replays.{Replayed};
ghost use Rattle.schedule_replay.specs.Players.{ends, IsEmptied, IsInFront, stops};

use crate::stop::Stop;
use line_pieces::TakesLines;
use std::marker::Model;

/// With so many bytes to be written, no more lines are taken before they are.
const FULL: usize = 65_536;

/// What plays the lines of a schedule: it takes one after another, and has text to be written of them.
///
/// Contracts see what is played where some lines still come: all that is to be written, and the first line that is
/// rejected.
pub trait Player: Drop {
    /// What is played where these lines still come, of which the first has this number.
    ghost plays: { Self → ℕ → List Line → Replayed };

    /// What is to be written next.
    ghost text_in: { Self → List ℕ };

    /// It can take the line with this number.
    ghost ready: { Self → ℕ → Type 0 };

    /// What is to be written next.
    fn text(&self) -> &[u8]
        ensures text { result.now ≡ text_in self.now }
        ensures front { IsInFront plays text_in self.now };

    /// It was written.
    fn clear_text(&mut self)
        ensures { IsEmptied plays text_in ready self.old self.new };

    /// Takes a line, without its LF, and its number, from 1.
    fn take_line(&mut self, number: u64, line: &[u8]) -> Result<(), Stop>
        requires ready { ready self.old number }
        requires first { 1 ≤ number }
        requires last { number ≤ lines_limit }
        requires short { length line.now ≤ line_limit }
        ensures taken { TakesLine plays (stops text_in) self.old number line.now self.new result }
        ensures ready { OnOk result (ready self.new (number + 1)) };

    /// The line with this number is over a limit.
    fn refuse_limit(&mut self, number: u64) -> Stop
        requires { ready self.old number }
        ensures { RefusesLimit plays (stops text_in) self.old number self.new result };

    /// The schedule ends before the line with this number, or within it where it is `cut`.
    fn finish(&mut self, number: u64, cut: bool) -> Result<(), Stop>
        requires ready { ready self.old number }
        requires first { 1 ≤ number }
        requires within { IsTrue cut → number ≤ lines_limit }
        ensures { TakesEnd plays (stops text_in) (ends text_in) self.old number cut self.new result };
}

/// A player, as what takes the lines of a text.
#[derive(Drop)]
pub struct Taker<P> {
    pub player: P,
}

impl<P> Model for Taker<P> {
    ghost Value = { P };

    ghost view = { λ taker. taker.player };
}

impl<P: Player> TakesLines for Taker<P> {
    type Stop = Stop;

    ghost Found = { Replayed };

    ghost comes = { P.plays };

    ghost ready = { P.ready };

    ghost stops = { stops P.text_in };

    ghost ends = { ends P.text_in };

    #[inline(always)]
    fn take_line(&mut self, number: u64, line: &[u8]) -> Result<(), Stop> {
        self.player.take_line(number, line)
    }

    #[inline(always)]
    fn is_full(&self) -> bool {
        self.player.text().len() >= FULL
    }

    fn refuse_limit(&mut self, number: u64) -> Stop {
        self.player.refuse_limit(number)
    }

    fn want_memory(&self) -> Stop {
        let _text = self.player.text();
        Stop::Memory
    }

    fn finish(&mut self, number: u64, cut: bool) -> Result<(), Stop> {
        self.player.finish(number, cut)
    }
}
