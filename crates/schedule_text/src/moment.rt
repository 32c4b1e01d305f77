//! Writing the question of what a routine does.
ghost use Rattle.std.specs.Prelude.{◌≡◌};
ghost use Rattle.tree_specs.specs.declared.question.Ask.TheVariants as asks;
ghost use Rattle.tree_specs.specs.Texts.Text.{ask_text, what_text};
ghost use Rattle.tree_specs.specs.Texts.Written.{Writes};

use text_forms::write_numbers;
use tree_specs::{Memory, Moment, What};

/// The word for what a routine runs for.
#[tactic(auto, unfolding(tree_specs::specs::Texts::Text::what_text))]
pub(crate) fn what_word(what: What) -> &'static [u8]
    ensures { result.now ≡ what_text what }
{
    match what {
        What::Hook => b"hook",
        What::Timer => b"timer",
        What::Immediate => b"immediate",
        What::Descriptor => b"fd",
        What::Callback => b"callback",
        What::Cleanup => b"cleanup",
        What::Cancel => b"cancel",
        What::Trigger => b"trigger",
    }
}

/// Appends the question of what a routine does at this moment.
#[tactic(auto, unfolding(tree_specs::specs::Texts::Text::ask_text))]
pub(crate) fn write_moment(moment: &Moment, out: &mut Vec<u8>) -> Result<(), Memory>
    ensures { Writes out.old.items out.new.items result (ask_text (asks.Routine moment.entry.now)) }
{
    let numbers = [
        moment.object.0,
        u64::from(moment.routine),
        moment.user,
        moment.now,
        u64::from(moment.flags),
        u64::from(moment.step),
    ];
    write_numbers(what_word(moment.what), &numbers, b"", out)
}
