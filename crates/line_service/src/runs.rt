//! What an answer of the outside does to the runs of routines.
ghost use Rattle.std.specs.Prelude.{◌≡◌, ◌↔◌, ◌<◌, ℕ, Err, IfOk, None, OnOk, Some};
ghost use Rattle.tree_specs.specs.declared.schedule.Reason.TheVariants as reasons;
ghost use Rattle.tree_specs.specs.Machine.View.{question_of};
ghost use Rattle.tree_specs.specs.Texts.Schedule.{misfit};
ghost use Rattle.host_core.specs.Promises.{Waits, taken_by, taken_in};
ghost use Rattle.service_rules.specs.Stations.{outside_question as outside_asked};
ghost use Rattle.line_service.specs.Runs.{change_of, change_by, changed};
ghost use Rattle.line_service.specs.Steps.{IsPrepared, StraysAt};

use crate::answerer::outside_question;
use host_core::{Host, OfferFault};
use service_desk::Desk;
use tree_specs::{Act, Ask, Input};

/// With each answer of the outside come so many more answers that the service may give. It has far more than it ever gives;
/// with a bound its story is a function of what the outside answers.
pub const MORE_ANSWERS: u64 = 4_194_304;

/// What an answer of the outside does to the runs.
#[derive(Clone, Copy)]
pub enum Change {
    /// A routine does its first call: from now on its replies are those that are told.
    Opens,
    /// A routine that has done a call returns.
    Closes,
    /// Neither.
    Nothing,
}

/// What an act does to the runs, where its routine has done so many calls.
fn change_by(step: u32, act: &Act) -> Change
    ensures { result ≡ change_by step act.now }
{
    match act {
        Act::Do(_) if step == 0 => Change::Opens,
        Act::Ret(_) if step != 0 => Change::Closes,
        _ => Change::Nothing,
    }
}

impl Change {
    /// What this answer to this question does to the runs.
    pub fn of(ask: &Ask, input: &Input) -> Change
        ensures { result ≡ change_of ask.now input.now }
    {
        match (ask, input) {
            (Ask::Routine(moment), Input::Act(act)) => change_by(moment.step, act),
            _ => Change::Nothing,
        }
    }
}

/// What an answer of the outside does to the runs, and how many answers are left then. Memory for one more run is taken, as
/// it may be one. An answer that doesn't fit what the outside is asked is refused.
pub fn prepare(
    host: &Host,
    input: &Input,
    left: u64,
    desk: &mut Desk,
) -> Result<(Change, u64), OfferFault>
    ensures ok { IfOk result (λ r. IsPrepared (outside_asked (question_of host.now)) input.now left r.0 r.1) }
    ensures fits { OnOk result (misfit (outside_asked (question_of host.now)) input.now ≡ None) }
    ensures unopened { OnOk result (taken_in host.now.pool input.now ≡ None) }
    ensures waits { OnOk result (Waits host.now) }
    ensures room { OnOk result (0 < desk.new.spare) }
    ensures not_asked { (result ≡ Err OfferFault.NotAsked) ↔ (misfit (outside_asked (question_of host.now)) input.now ≡ Some reasons.NotAsked) }
    ensures taken { (fd : ℕ) → (result ≡ Err (OfferFault.Taken fd)) ↔ (taken_by (outside_asked (question_of host.now)) host.now.pool input.now ≡ Some fd) }
    ensures strays { (fd : ℕ) → result ≡ Err (OfferFault.Taken fd) → StraysAt host.now input.now }
    ensures knowledge { desk.new.knowledge ≡ desk.old.knowledge }
    ensures due { desk.new.due ≡ desk.old.due }
{
    let ask = outside_question(host).ok_or(OfferFault::NotAsked)?;
    host.check(input)?;
    let left = left
        .checked_add(MORE_ANSWERS - 1)
        .ok_or(OfferFault::Memory)?;
    desk.reserve_run()?;
    Ok((Change::of(ask, input), left))
}

/// Notes what an answer of the outside did to the runs.
pub fn note(change: Change, desk: &mut Desk)
    requires { 0 < desk.old.spare }
    ensures knowledge { desk.new.knowledge ≡ changed change desk.old.knowledge }
    ensures due { desk.new.due ≡ desk.old.due }
{
    match change {
        Change::Opens => desk.open_outside(),
        Change::Closes => desk.close_run(),
        Change::Nothing => {}
    }
}
