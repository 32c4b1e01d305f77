//! Turns of the event loop, by what is still to do of them.
ghost use Rattle.std.specs.Prelude.{◌≡◌};
ghost use Rattle.host_core.specs.Turns.{turn_asks, frame_fired, turn_tells};

use tree_specs::{Ask, Event, TurnFrame};

/// A turn of the event loop that is at work.
#[derive(Drop)]
pub struct Turn {
    /// What is still to do.
    pub frame: TurnFrame,
    /// What it asks. None where it asks nothing.
    pub question: Option<Ask>,
}

/// What is asked next. None where it tells something.
fn question_of(frame: TurnFrame) -> Option<Ask>
    ensures { result ≡ turn_asks frame }
{
    match frame {
        TurnFrame::Timing { .. } => Some(Ask::Clock),
        TurnFrame::Polling { limit } => Some(Ask::Wait(limit)),
        _ => None,
    }
}

impl Turn {
    /// The turn of which this is still to do.
    pub fn new(frame: TurnFrame) -> Turn
        ensures { result ≡ record { frame = frame; question = turn_asks frame } }
    {
        Turn {
            frame,
            question: question_of(frame),
        }
    }

    /// Tells that a handler starts. None where it asks, and then nothing changes.
    pub fn tell(&mut self) -> Option<Event>
        ensures event { result ≡ turn_tells self.old.frame }
        ensures frame { self.new ≡ record self.old { frame = frame_fired self.old.frame } }
    {
        let TurnFrame::Firing {
            what,
            x,
            handler,
            occasion,
        } = self.frame
        else {
            return None;
        };
        self.frame = TurnFrame::Handling {
            what,
            x,
            handler,
            occasion,
        };
        Some(Event::Fired {
            what,
            object: x,
            routine: handler.routine,
        })
    }
}
