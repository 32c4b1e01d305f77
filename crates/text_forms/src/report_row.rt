//! The lines of a report, one for each row.

ghost use Rattle.std.specs.Prelude.{◌≡◌, ◌++◌, ◌∷◌, [], codes};
ghost use Rattle.tree_specs.specs.Texts.Text.{newline, numbers_text, row_text, row_kind_text, rows_text};
ghost use Rattle.tree_specs.specs.Texts.Written.{Writes};

use crate::numbers::write_numbers;
use crate::piece::write_pieces;
use tree_specs::{Memory, ReportRow, RowKind};

/// The word for what a row is about.
#[tactic(auto, unfolding(tree_specs::specs::Texts::Text::row_kind_text))]
fn kind_word(kind: RowKind) -> &'static [u8]
    ensures { result.now ≡ row_kind_text kind }
{
    match kind {
        RowKind::Root => b"root",
        RowKind::Plain => b"plain",
        RowKind::Reference => b"reference",
        RowKind::Timer => b"timer",
        RowKind::Immediate => b"immediate",
        RowKind::Fd => b"fd",
        RowKind::Request => b"request",
        RowKind::Queue => b"queue",
        RowKind::Entry => b"entry",
        RowKind::Context => b"context",
    }
}

/// Where the row stands in the tree.
fn write_place(row: &ReportRow, out: &mut Vec<u8>) -> Result<(), Memory>
    ensures { Writes out.old.items out.new.items result (codes "row" ++ numbers_text (row.now.depth ∷ row.now.id ∷ []) ++ codes " ") }
{
    write_numbers(b"row", &[u64::from(row.depth), row.id], b" ", out)
}

/// Its kind and its numbers.
fn write_sizes(row: &ReportRow, out: &mut Vec<u8>) -> Result<(), Memory>
    ensures { Writes out.old.items out.new.items result (row_kind_text row.now.kind ++ numbers_text (row.now.size ∷ row.now.refs ∷ row.now.target ∷ []) ++ codes " ") }
{
    let kind = kind_word(row.kind);
    write_numbers(
        kind,
        &[row.size, u64::from(row.refs), row.target],
        b" ",
        out,
    )
}

/// Its name, and the end of the line.
fn write_name(row: &ReportRow, out: &mut Vec<u8>) -> Result<(), Memory>
    ensures { Writes out.old.items out.new.items result (row.now.name ++ newline) }
{
    write_pieces(&[row.name.as_slice(), b"\n".as_slice()], out)
}

/// Appends the line of one row, with its LF.
fn write_report_row(row: &ReportRow, out: &mut Vec<u8>) -> Result<(), Memory>
    ensures { Writes out.old.items out.new.items result (row_text row.now) }
{
    write_place(row, out)?;
    write_sizes(row, out)?;
    write_name(row, out)
}

/// Appends the lines of these rows of a report, each with its LF. When memory runs out, a prefix of them
/// was appended.
pub fn write_report_rows(rows: &[ReportRow], out: &mut Vec<u8>) -> Result<(), Memory>
    ensures { Writes out.old.items out.new.items result (rows_text rows.now) }
{
    for row in rows {
        write_report_row(row, out)?;
    }
    Ok(())
}
