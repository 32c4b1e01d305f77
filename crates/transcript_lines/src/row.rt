//! The rows of reports.
ghost use Rattle.std.specs.Prelude.{◌≡◌, ℕ};
ghost use Rattle.tree_specs.specs.declared.report.RowKind.{RowKind as KindData};
ghost use Rattle.transcript_lines.specs.Lines.{row_form, row_end};
ghost use Rattle.transcript_lines.specs.Readings.{says_by};

use crate::said::Said;
use crate::what::kind_of;
use crate::words::Words;

/// What follows the kind of a row.
fn read_row_end(mut words: Words) -> Option<Said>
    ensures { (depth id : ℕ) (kind : KindData) → result ≡ says_by (row_end depth id kind) words.entry }
{
    words.number()?;
    words.small()?;
    words.number()?;
    if words.is_name() {
        Some(Said::Row)
    } else {
        None
    }
}

/// A row, behind its first word.
#[tactic(auto, using(crate::proofs::Tables::kind_read))]
pub(crate) fn read_row(mut words: Words) -> Option<Said>
    ensures { result ≡ says_by row_form words.entry }
{
    words.small()?;
    words.number()?;
    match kind_of(words.word()?) {
        Some(_) => read_row_end(words),
        None => None,
    }
}
