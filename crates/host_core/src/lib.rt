//! The host: a tree of objects as a state machine that is given answers and gives events and questions.
#![tactic(auto)]

mod active;
mod answer;
mod caller;
mod calls;
mod checks;
mod fault;
mod host;
mod motion;
mod offered;
mod owned_reply;
mod parts;
mod reach;
mod refusals;
mod replies;
mod reports;
mod request_checks;
mod short_reply;
mod step;
mod subject;
mod turn;
mod turns;
mod waiting;
mod work;
mod working;
mod works;

pub use fault::OfferFault;
pub use host::Host;
