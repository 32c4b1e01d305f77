//! Answers that were prepared.
ghost use Rattle.std.specs.Prelude.{◌≡◌, slice_get};
ghost use Rattle.std.specs.Option.{option_copied};
ghost use Rattle.outside.specs.Scripts.{given, left_after};

use std::collections::VecDeque;
use std::marker::Model;
use tree_specs::Input;

/// Answers that were prepared, of which the first comes next. Contracts see the list of those that are left.
#[derive(Drop)]
pub(crate) struct Script {
    answers: VecDeque<Input>,
}

impl Model for Script {
    ghost use Rattle.std.specs.Prelude.{List};
    ghost use Rattle.tree_specs.specs.declared.question.Input.{Input as InputData};

    ghost Value = { List InputData };

    ghost view = { λ s. s.answers.items };
}

impl Script {
    /// These answers.
    pub(crate) fn new(answers: Vec<Input>) -> Script
        ensures { result ≡ answers.items }
    {
        Script {
            answers: VecDeque::from(answers),
        }
    }

    /// Lends the answer that comes next.
    pub(crate) fn front(&self) -> Option<&Input>
        ensures { option_copied result ≡ slice_get self.now 0 }
    {
        self.answers.front()
    }

    /// Takes the answer that comes next, where it fits. Where it doesn't, the answer is that nothing is ready.
    pub(crate) fn give(&mut self, fits: bool) -> Input
        ensures answer { result ≡ given fits (slice_get self.old 0) }
        ensures rest { self.new ≡ left_after fits self.old }
    {
        if !fits {
            return Input::Again;
        }
        match self.answers.pop_front() {
            Some(answer) => answer,
            None => Input::Again,
        }
    }
}
