//! The report as text.
ghost use Rattle.std.specs.Prelude.{◌≡◌, IfOk, Ok};
ghost use Rattle.references.specs.Rows.{AreRefsOf};
ghost use Rattle.tree_specs.specs.Tree.Reports.{report as report_of};
ghost use Rattle.tree_specs.specs.Texts.Text.{rows_text};
ghost use Rattle.outside.specs.Causes.{Counts};
ghost use Rattle.report_text.specs.Written.{Puts};

use outside::{Done, PutError, Sink, put_all};
use references::Refs;
use std::alloc::Global;
use text_forms::write_report_rows;
use tree_links::Tree;
use tree_report::rows;
use tree_specs::{Memory, Owner};

/// The lines of a report.
fn report_lines(alloc: Global, tree: &Tree, refs: &Refs, from: Owner) -> Result<Vec<u8>, Memory>
    requires { AreRefsOf refs.now.pairs tree.now.rows }
    ensures { IfOk result (λ text. text.items ≡ rows_text (report_of tree.now.rows from)) }
{
    let rows = rows(alloc, tree, refs, from)?;
    let mut text = Vec::new(alloc);
    write_report_rows(rows.as_slice(), &mut text)?;
    Ok(text)
}

/// Writes a line for an owner and for each object below it, each owner before its children, newest first, as
/// `talloc_report_full` does. Where the owner is neither the root nor an object nothing is written.
///
/// `Failed` comes only where the sink's count of faults rose in this call. Then, and when memory runs out, a
/// front of the lines has been put.
pub fn report<K: Sink>(
    alloc: Global,
    tree: &Tree,
    refs: &Refs,
    from: Owner,
    out: &mut K,
) -> Result<Done, Memory>
    requires { AreRefsOf refs.now.pairs tree.now.rows }
    ensures bytes { Puts (K.held out.old) (K.held out.new) result (rows_text (report_of tree.now.rows from)) }
    ensures cause { Counts (K.faults out.old) (K.faults out.new) (result ≡ Ok Done.Failed) }
{
    let text = report_lines(alloc, tree, refs, from)?;
    match put_all(out, &text) {
        Ok(()) => Ok(Done::Done),
        Err(PutError::Write) => Ok(Done::Failed),
        Err(PutError::Memory) => Err(Memory),
    }
}
