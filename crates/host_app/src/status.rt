//! How the program ends, and the number for it.
ghost use Rattle.std.specs.Prelude.{◌≡◌};
ghost use Rattle.host_app.specs.Statuses.{status_of, status_of_put, status_of_service, status_number};

use outside::PutError;
use schedule_replay::Ran;
use serving::Stop;
use tree_specs::Reason;

/// How the program ended.
#[derive(Clone, Copy, Debug, PartialEq, Eq)]
pub enum Status {
    /// All is done. Status 0.
    Done,
    /// A read failed. Status 1.
    ReadFault,
    /// The words are none that the program takes, or ask for help. Status 2.
    Usage,
    /// The line with this number, from 1, is the first that was rejected. Status 3.
    BadSchedule { line: u64, reason: Reason },
    /// A put to the output failed. Status 4.
    WriteFault,
    /// Listening or waiting at the socket failed. Status 5.
    LinkFault,
    /// Memory ran out. Status 6.
    NoMemory,
    /// The line of a transcript with this number, from 1, is the first with a flaw. `rule` is the least rule of orderly
    /// stories that it breaks, from 1 to 5, or 0 where no transcript has these first lines. Status 7.
    Broken { line: u64, rule: u32 },
}

impl Status {
    /// The number that the program ends with.
    pub fn number(self) -> u8
        ensures { result ≡ status_number self }
    {
        match self {
            Status::Done => 0,
            Status::ReadFault => 1,
            Status::Usage => 2,
            Status::BadSchedule { .. } => 3,
            Status::WriteFault => 4,
            Status::LinkFault => 5,
            Status::NoMemory => 6,
            Status::Broken { .. } => 7,
        }
    }
}

impl From<Ran> for Status {
    ghost from_gives = { λ ran status. status ≡ status_of ran };

    fn from(ran: Ran) -> Status {
        match ran {
            Ran::Done => Status::Done,
            Ran::ReadFault => Status::ReadFault,
            Ran::BadSchedule { line, reason } => Status::BadSchedule { line, reason },
            Ran::WriteFault => Status::WriteFault,
            Ran::Memory => Status::NoMemory,
        }
    }
}

impl From<Result<(), PutError>> for Status {
    ghost from_gives = { λ put status. status ≡ status_of_put put };

    fn from(put: Result<(), PutError>) -> Status {
        match put {
            Ok(()) => Status::Done,
            Err(PutError::Write) => Status::WriteFault,
            Err(PutError::Memory) => Status::NoMemory,
        }
    }
}

impl From<Result<(), Stop>> for Status {
    ghost from_gives = { λ served status. status ≡ status_of_service served };

    fn from(served: Result<(), Stop>) -> Status {
        match served {
            Ok(()) => Status::Done,
            Err(Stop::Write) => Status::WriteFault,
            Err(Stop::Link) => Status::LinkFault,
            Err(Stop::Memory) => Status::NoMemory,
        }
    }
}
