//! What holds of lines and their texts.
ghost use Rattle.std.specs.Prelude.{◌≡◌, ◌≤◌, ℕ, List, Some, IsTrue, length};
ghost use Rattle.tree_specs.specs.Texts.Lines.{line_limit};
ghost use Rattle.transcript_lines.specs.Lines.{Line, is_sound_line, is_line, line_text, line_of, plain};

/// A line is read from its text. The reply to a routine's last call isn't on its line.
#[tactic(auto, using(crate::proofs::Spelling::line_again))]
pub fn a_line_is_read_from_its_text()
    ensures { (line : Line) → IsTrue (is_sound_line line) → IsTrue (is_line line) → line_of (line_text line) ≡ Some (plain line) }
{}

/// And from no other text.
#[tactic(auto, using(crate::proofs::Spelling::line_spelled))]
pub fn a_line_is_read_from_no_other_text()
    ensures { (text : List ℕ) (line : Line) → line_of text ≡ Some line → text ≡ line_text line }
{}

/// No line is longer than the lines of a schedule may be.
#[tactic(auto, using(crate::proofs::Lengths::is_short))]
pub fn a_line_is_no_longer_than_the_limit()
    ensures { (text : List ℕ) (line : Line) → line_of text ≡ Some line → length text ≤ line_limit }
{}
