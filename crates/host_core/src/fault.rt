//! Why an answer is not taken.
ghost use Rattle.std.specs.Prelude.{◌≡◌};
ghost use Rattle.host_core.specs.declared.fault.OfferFault.TheVariants as faults;

use thiserror::Error;
use tree_specs::Memory;

/// Why an answer was not taken. The host is as it was.
#[derive(Clone, Copy, Debug, PartialEq, Eq, Error)]
pub enum OfferFault {
    /// There is no memory for what comes up to the next question.
    #[error("out of memory")]
    Memory,
    /// No question is open, or the open one takes no such answer.
    #[error("no question is open that takes this answer")]
    NotAsked,
    /// This descriptor, which was accepted, is open already.
    #[error("descriptor {0} is open already")]
    Taken(u32),
}

impl From<Memory> for OfferFault {
    ghost from_gives = { λ _ e. e ≡ faults.Memory };

    fn from(_e: Memory) -> OfferFault {
        OfferFault::Memory
    }
}
