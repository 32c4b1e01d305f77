//! What is kept of a request.
ghost use Rattle.std.specs.Prelude.{◌≡◌};
ghost use Rattle.tree_specs.specs.Events.Requests.{state_number};

use crate::handler::Handler;
use crate::object::Obj;

/// How far a request is (`enum tevent_req_state`). It is made in progress.
#[derive(Clone, Copy, Debug, PartialEq, Eq)]
pub enum State {
    /// Its work goes on (`TEVENT_REQ_IN_PROGRESS`).
    InProgress,
    /// Its work is done (`TEVENT_REQ_DONE`).
    Done,
    /// Its work has failed, with a number of its user's (`TEVENT_REQ_USER_ERROR`).
    UserError,
    /// Its end time came first (`TEVENT_REQ_TIMED_OUT`).
    TimedOut,
    /// There was no memory for its work (`TEVENT_REQ_NO_MEMORY`).
    NoMemory,
    /// Whoever wanted it has taken what came of it (`TEVENT_REQ_RECEIVED`).
    Received,
}

impl State {
    /// Its number, from 1 to 6 in this order.
    pub fn number(&self) -> u32
        ensures { result ≡ state_number self.now }
    {
        match self {
            State::InProgress => 1,
            State::Done => 2,
            State::UserError => 3,
            State::TimedOut => 4,
            State::NoMemory => 5,
            State::Received => 6,
        }
    }
}

/// What is kept of a request beside its row (`struct tevent_req`).
#[derive(Clone, Copy, Debug, PartialEq, Eq)]
pub struct Note {
    pub state: State,
    /// The number of its failure (`tevent_req_error`), and 0 where it has none.
    pub error: u64,
    /// What runs when it is over (`tevent_req_set_callback`).
    pub callback: Option<Handler>,
    /// The context in which it comes soon when it is over, where its callback runs only then
    /// (`tevent_req_defer_callback`).
    pub deferred: Option<Obj>,
    /// The routine that runs each time that it goes to a later state (`tevent_req_set_cleanup_fn`); 0 is none.
    pub cleanup: u32,
    /// The number of the last state that its cleanup was run for, or was set in.
    pub cleaned: u32,
    /// The routine that cancels it (`tevent_req_set_cancel_fn`); 0 is none.
    pub cancel: u32,
    /// The object below it that it was made with, its state of its own (`tevent_req_create`).
    pub child: Obj,
}
