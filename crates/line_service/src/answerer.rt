//! Who answers a question of the host.
ghost use Rattle.std.specs.Prelude.{◌≡◌, IsSome, Some};
ghost use Rattle.std.specs.Option.{option_copied};
ghost use Rattle.tree_specs.specs.declared.question.Ask.{Ask as AskData};
ghost use Rattle.tree_specs.specs.Machine.View.{question_of};
ghost use Rattle.host_core.specs.Promises.{Waits};
ghost use Rattle.service_rules.specs.Stations.{outside_question as outside_asked};
ghost use Rattle.line_service.specs.Steps.{answerer_of};

use host_core::Host;
use service_rules::FIRST_OF_OUTSIDE;
use tree_specs::Ask;

/// Who answers a question.
#[derive(Clone, Copy)]
pub enum Answerer {
    /// The service: a call is wanted, which is the next turn of the event loop.
    Loop,
    /// The service: a routine of its own runs.
    Own,
    /// The outside.
    Outside,
}

impl Answerer {
    /// Who answers this question.
    pub fn of(ask: &Ask) -> Answerer
        ensures { result ≡ answerer_of ask.now }
    {
        match ask {
            Ask::Quiet => Answerer::Loop,
            Ask::Routine(moment) if moment.routine < FIRST_OF_OUTSIDE => Answerer::Own,
            _ => Answerer::Outside,
        }
    }
}

/// Who answers the question that is open.
pub fn who_answers(host: &Host) -> Answerer
    requires { Waits host.now }
    ensures { (q : AskData) → question_of host.now ≡ Some q → result ≡ answerer_of q }
{
    match host.question() {
        Some(ask) => Answerer::of(ask),
        None => unreachable!(),
    }
}

/// The question that the outside is asked. None where none is open, and where the service answers it itself.
pub fn outside_question(host: &Host) -> Option<&Ask>
    ensures question { option_copied result ≡ outside_asked (question_of host.now) }
    ensures waits { IsSome result → Waits host.now }
{
    let ask = host.question()?;
    match Answerer::of(ask) {
        Answerer::Outside => Some(ask),
        Answerer::Loop | Answerer::Own => None,
    }
}
