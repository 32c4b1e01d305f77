//! Why a replay ends before its schedule does, or a conversion.
ghost use Rattle.std.specs.Prelude.{◌≡◌};
ghost use Rattle.schedule_replay.specs.declared.stop.Stop.TheVariants as errors;
ghost use Rattle.schedule_replay.specs.Passes.{stop_of_put};

use outside::PutError;
use std::alloc::AllocError;
use tree_specs::{Memory, Reason};

/// Why a replay ends before its schedule does, or a conversion.
#[derive(Clone, Copy, PartialEq, Eq)]
pub enum Stop {
    /// A read failed.
    Read,
    /// The line with this number, from 1, was rejected.
    Refused { line: u64, reason: Reason },
    /// A put failed.
    Write,
    /// Memory ran out.
    Memory,
}

impl From<Memory> for Stop {
    ghost from_gives = { λ _ e. e ≡ errors.Memory };

    fn from(_e: Memory) -> Stop {
        Stop::Memory
    }
}

impl From<AllocError> for Stop {
    ghost from_gives = { λ _ e. e ≡ errors.Memory };

    fn from(_e: AllocError) -> Stop {
        Stop::Memory
    }
}

impl From<PutError> for Stop {
    ghost from_gives = { λ why e. e ≡ stop_of_put why };

    fn from(why: PutError) -> Stop {
        match why {
            PutError::Write => Stop::Write,
            PutError::Memory => Stop::Memory,
        }
    }
}
