//! What takes the lines of a text.
ghost use Rattle.std.specs.Prelude.{◌≤◌, ◌+◌, ℕ, List, IsTrue, OnOk, length};
ghost use Rattle.tree_specs.specs.Texts.Lines.{Line, line_limit, lines_limit};
ghost use Rattle.line_pieces.specs.Takings.{TakesLine, RefusesLimit, WantsMemory, TakesEnd};

/// What takes the lines of a text, one after another.
///
/// What it finds of a whole text is said as a value of its own kind, `Found`. Each method says of the state before it
/// what is found where some lines still come, and how this follows from the state after it. So whoever cuts a text
/// into lines knows what is found of all its bytes.
pub trait TakesLines: Drop {
    /// Why it ends before its text does.
    type Stop: Drop;

    /// What is found of a whole text.
    ghost Found: { Type 0 };

    /// What is found where these lines still come, of which the first has this number.
    ghost comes: { Self → ℕ → List Line → Found };

    /// It can take the line with this number.
    ghost ready: { Self → ℕ → Type 0 };

    /// It ended for this cause, stands so, and this is found.
    ghost stops: { Self.Stop → Self → Found → Type 0 };

    /// It ended with its text, stands so, and this is found.
    ghost ends: { Self → Found → Type 0 };

    /// Takes a line, without its LF, and its number, from 1.
    fn take_line(&mut self, number: u64, line: &[u8]) -> Result<(), Self::Stop>
        requires ready { ready self.old number }
        requires first { 1 ≤ number }
        requires last { number ≤ lines_limit }
        requires short { length line.now ≤ line_limit }
        ensures taken { TakesLine comes stops self.old number line.now self.new result }
        ensures ready { OnOk result (ready self.new (number + 1)) };

    /// Whether it wants to be looked at before it takes more lines, as what it keeps of them has become large. Nothing is
    /// found otherwise by it.
    fn is_full(&self) -> bool;

    /// The line with this number is over a limit: it is too long, or there are too many lines.
    fn refuse_limit(&mut self, number: u64) -> Self::Stop
        requires { ready self.old number }
        ensures { RefusesLimit comes stops self.old number self.new result };

    /// Why it ends where there is no memory for a line.
    fn want_memory(&self) -> Self::Stop
        ensures { WantsMemory comes stops self.now result };

    /// The text ends before the line with this number, or within it where it is `cut`.
    fn finish(&mut self, number: u64, cut: bool) -> Result<(), Self::Stop>
        requires ready { ready self.old number }
        requires first { 1 ≤ number }
        requires within { IsTrue cut → number ≤ lines_limit }
        ensures { TakesEnd comes stops ends self.old number cut self.new result };
}
