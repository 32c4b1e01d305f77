//! What a step of the service comes to.
ghost use Rattle.std.specs.Prelude.{◌≡◌};
ghost use Rattle.service_rules.specs.Service.{shown_events, told};
ghost use Rattle.line_service.specs.Steps.{IsShownBy};

use service_desk::Desk;
use tree_specs::Event;

/// What one step comes to.
#[derive(Drop)]
pub enum Step {
    /// The outside sees this event.
    Shown(Event),
    /// The outside is asked.
    Asked,
    /// The outside sees nothing of it.
    Silent,
}

/// An event was told: what is kept of an object that was freed goes with it, and the outside sees all events but the replies
/// to the service's own calls.
pub fn tell(event: Event, desk: &mut Desk) -> Step
    ensures shown { IsShownBy result (shown_events desk.old.knowledge event) }
    ensures knowledge { desk.new.knowledge ≡ told desk.old.knowledge event }
    ensures due { desk.new.due ≡ desk.old.due }
{
    let shown = desk.shows(&event);
    desk.hear_event(&event);
    if shown {
        Step::Shown(event)
    } else {
        Step::Silent
    }
}
