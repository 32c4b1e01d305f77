//! The words for what a routine runs for, and for what a row of a report is about.
ghost use Rattle.transcript_lines.specs.Readings.{IsWhat, IsKind};

use tree_specs::{RowKind, What};

/// What a routine runs for by this word.
#[tactic(auto, unfolding(tree_specs::specs::Texts::Text::what_text))]
pub(crate) fn what_of(word: &[u8]) -> Option<What>
    ensures { IsWhat result word.now }
{
    match word {
        b"hook" => Some(What::Hook),
        b"timer" => Some(What::Timer),
        b"immediate" => Some(What::Immediate),
        b"fd" => Some(What::Descriptor),
        b"callback" => Some(What::Callback),
        b"cleanup" => Some(What::Cleanup),
        b"cancel" => Some(What::Cancel),
        b"trigger" => Some(What::Trigger),
        _ => None,
    }
}

/// What a row with this word is about.
#[tactic(auto, unfolding(tree_specs::specs::Texts::Text::row_kind_text))]
pub(crate) fn kind_of(word: &[u8]) -> Option<RowKind>
    ensures { IsKind result word.now }
{
    match word {
        b"root" => Some(RowKind::Root),
        b"plain" => Some(RowKind::Plain),
        b"reference" => Some(RowKind::Reference),
        b"timer" => Some(RowKind::Timer),
        b"immediate" => Some(RowKind::Immediate),
        b"fd" => Some(RowKind::Fd),
        b"request" => Some(RowKind::Request),
        b"queue" => Some(RowKind::Queue),
        b"entry" => Some(RowKind::Entry),
        b"context" => Some(RowKind::Context),
        _ => None,
    }
}
