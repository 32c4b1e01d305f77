//! The works that wait, each for the one above it.
ghost use Rattle.std.specs.Prelude.{◌≡◌};
ghost use Rattle.tree_specs.specs.Machine.Table.{turn_resume};

use crate::work::Work;
use tree_specs::{Ask, Obj, TurnFrame};

/// A work that waits for the one above it.
#[derive(Drop)]
pub enum Waiting {
    /// The open frees: the innermost of them waits for the run of a destructor, until its request was received, or
    /// until its queue has no entries.
    Freeing,
    /// A caller whose call waits for the freeing of an object, or of its children.
    Awaiting { ask: Ask, x: Obj },
    /// A caller whose call waits for a turn of the event loop, or for what the outside answers.
    Turning { ask: Ask },
    /// A caller whose call waits for the work of a request.
    Requesting { ask: Ask },
    /// A turn, which waits for the run of a handler, for a free or for the work of a request or of a queue.
    Turn(TurnFrame),
    /// The work of a request or of a queue, which waits for the run of a routine or for a free.
    Work(Work),
}

/// What is still to do of a turn once the work above it has answered.
pub fn turn_resumed(frame: TurnFrame) -> TurnFrame
    ensures { result ≡ turn_resume frame }
{
    match frame {
        TurnFrame::Handling { what, x, .. } => TurnFrame::Handled { what, x },
        TurnFrame::Clearing { .. } | TurnFrame::Serving { .. } => TurnFrame::Closing { value: 1 },
        TurnFrame::Parting { value, .. } => TurnFrame::Closing { value },
        _ => frame,
    }
}
