//! Reports, and their rows.
ghost use Rattle.std.specs.Prelude.{◌≡◌};
ghost use Rattle.tree_specs.specs.Tree.Reports.{root_row};

use crate::listed::Listed;
use crate::name::Name;
use std::marker::Model;

/// What a row of a report is about.
#[derive(Clone, Copy, PartialEq, Eq)]
pub enum RowKind {
    /// The null context.
    Root,
    Plain,
    Reference,
    Timer,
    Immediate,
    /// An event on a descriptor.
    Fd,
    Request,
    Queue,
    Entry,
    Context,
}

/// What a report says of one object, as `talloc_report` does.
#[derive(PartialEq, Eq, Drop)]
pub struct ReportRow {
    /// How many owners are between it and the first row, which has depth 0.
    pub depth: u32,
    /// Its number; 0 is the root.
    pub id: u64,
    pub kind: RowKind,
    /// In bytes.
    pub size: u64,
    /// How many references there are to it.
    pub refs: u32,
    /// The object that a reference refers to, and 0 elsewhere.
    pub target: u64,
    pub name: Name,
}

impl ReportRow {
    /// The row of the root, talloc's null context, where a report is of it.
    pub fn root() -> ReportRow
        ensures { result ≡ root_row }
    {
        ReportRow {
            depth: 0,
            id: 0,
            kind: RowKind::Root,
            size: 0,
            refs: 0,
            target: 0,
            name: Name::fixed(b"null_context"),
        }
    }
}

/// The rows of a report, each owner before its children. Contracts see the list of them.
#[derive(PartialEq, Eq, Drop)]
pub struct ReportRows {
    rows: Listed<ReportRow>,
}

impl Model for ReportRows {
    ghost use Rattle.std.specs.Prelude.{List};
    ghost use Rattle.tree_specs.specs.declared.report.ReportRow.{ReportRow as ReportRowData};

    ghost Value = { List ReportRowData };

    ghost view = { λ r. r.rows };

    ghost inverse = { λ rows. record { rows = rows } };
}

impl ReportRows {
    /// A report of these rows.
    pub fn make(rows: Vec<ReportRow>) -> ReportRows
        ensures { result ≡ rows.items }
    {
        ReportRows {
            rows: Listed::given(rows),
        }
    }

    /// Lends the rows.
    pub fn as_slice(&self) -> &[ReportRow]
        ensures { result.now ≡ self.now }
    {
        self.rows.as_slice()
    }
}
