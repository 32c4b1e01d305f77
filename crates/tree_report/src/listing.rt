//! The rows of a report, made by a walk over what is inside an owner.
ghost use Rattle.std.specs.Prelude.{◌≡◌, ◌++◌, IfOk, OnOk, ℕ, List};
ghost use Rattle.std.specs.Option.{option_to_list};
ghost use Rattle.tree_specs.specs.Tree.Reports.{report, report_row, row_kind, target_number};
ghost use Rattle.tree_specs.specs.Tree.Targets.{target_of};
ghost use Rattle.references.specs.Rows.{AreRefsOf};
ghost use Rattle.tree_report.specs.Shown.{shown_at};

use references::Refs;
use std::alloc::Global;
use tree_links::Tree;
use tree_specs::{Kind, Memory, Name, Owner, ReportRow, ReportRows, Row, RowKind};

/// The kind of an object, as a report says it.
fn kind_in_report(kind: Kind) -> RowKind
    ensures { result ≡ row_kind kind }
{
    match kind {
        Kind::Plain => RowKind::Plain,
        Kind::Reference { .. } => RowKind::Reference,
        Kind::Timer => RowKind::Timer,
        Kind::Immediate => RowKind::Immediate,
        Kind::Descriptor => RowKind::Fd,
        Kind::Request => RowKind::Request,
        Kind::Queue => RowKind::Queue,
        Kind::Entry => RowKind::Entry,
        Kind::Context => RowKind::Context,
    }
}

/// The number of the object that a reference refers to, and 0 elsewhere.
fn target(kind: Kind) -> u64
    ensures { result ≡ target_number (target_of kind) }
{
    match kind.target() {
        Some(target) => target.0,
        None => 0,
    }
}

/// A copy of a name.
fn copied(alloc: Global, name: &Name) -> Result<Name, Memory>
    ensures { IfOk result (λ n. n ≡ name.now) }
{
    match Name::make(alloc, name.as_slice())? {
        Some(copy) => Ok(copy),
        None => unreachable!(),
    }
}

/// How the row of an object is reported at this depth.
fn reported(
    alloc: Global,
    tree: &Tree,
    refs: &Refs,
    row: &Row,
    depth: u32,
) -> Result<ReportRow, Memory>
    requires { AreRefsOf refs.now.pairs tree.now.rows }
    ensures { IfOk result (λ r. r ≡ report_row tree.now.rows depth row.now) }
{
    Ok(ReportRow {
        depth,
        id: row.serial.0,
        kind: kind_in_report(row.kind),
        size: row.size,
        refs: refs.count(tree, row.serial),
        target: target(row.kind),
        name: copied(alloc, &row.name)?,
    })
}

/// The row of an owner at this depth. None where it is neither the root nor an object.
fn row_at(
    alloc: Global,
    tree: &Tree,
    refs: &Refs,
    owner: Owner,
    depth: u32,
) -> Result<Option<ReportRow>, Memory>
    requires { AreRefsOf refs.now.pairs tree.now.rows }
    ensures { IfOk result (λ r. option_to_list r ≡ shown_at tree.now.rows depth owner) }
{
    match owner {
        Owner::Root => Ok(Some(ReportRow::root())),
        Owner::Of(x) => match tree.row(x) {
            Some(row) => Ok(Some(reported(alloc, tree, refs, row, depth)?)),
            None => Ok(None),
        },
    }
}

/// Adds a row, if there is one.
fn keep(rows: &mut Vec<ReportRow>, row: Option<ReportRow>) -> Result<(), Memory>
    ensures { OnOk result (rows.new.items ≡ rows.old.items ++ option_to_list row) }
{
    if let Some(row) = row {
        rows.push(row)?;
    }
    Ok(())
}

/// The report of an owner, as `talloc_report_full` shows it: a row for the owner, at depth 0, and one for each
/// object below it, each owner before its children and these the newest placed first. Sizes are in bytes.
/// There are no rows where the owner is neither the root nor an object. An error means out of memory. The
/// references are those among the objects.
#[tactic(auto, using(crate::proofs::Showing::walk_shown))]
pub fn rows(alloc: Global, tree: &Tree, refs: &Refs, from: Owner) -> Result<ReportRows, Memory>
    requires { AreRefsOf refs.now.pairs tree.now.rows }
    ensures { IfOk result (λ rows. rows ≡ report tree.now.rows from) }
{
    let mut rows = Vec::new(alloc);
    for place in tree.walk(from) {
        let row = row_at(alloc, tree, refs, place.owner, place.depth)?;
        keep(&mut rows, row)?;
    }
    Ok(ReportRows::make(rows))
}
