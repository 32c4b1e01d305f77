//! The questions of a host, and the answers to them.
use crate::call::Call;
use crate::moment::Moment;
use crate::octets::Octets;
use crate::wants::Wants;

/// What the host waits for.
#[derive(PartialEq, Eq, Drop)]
pub enum Ask {
    /// Nothing goes on: it waits for a call.
    Quiet,
    /// What a routine does at this moment.
    Routine(Moment),
    /// The time, in microseconds.
    Clock,
    /// Which descriptors are ready, within so many microseconds.
    Wait(u64),
    /// Who connects to the listener of this descriptor.
    Accept(u32),
    /// What can be read from this descriptor, and how many bytes at most.
    Read(u32, u32),
    /// How many of these bytes this descriptor takes.
    Write(u32, Octets),
}

/// What a routine does.
#[derive(Drop)]
pub enum Act {
    /// It does a call. The reply is told, and then it is asked again.
    Do(Call),
    /// It returns a number, and is over. A destructor accepts with 0 and refuses with any other number
    /// (`talloc_set_destructor` knows -1 alone).
    Ret(u32),
}

/// An answer to the host's question.
#[derive(Drop)]
pub enum Input {
    /// A call, where the host is quiet.
    Call(Call),
    /// What a routine does, where one runs.
    Act(Act),
    /// The time in microseconds, from 0 to 2^62. It may be earlier than one that was told before.
    Clock(u64),
    /// Which descriptors are ready. There are none where the time of the wait is over.
    Ready(Wants),
    /// This descriptor was accepted, from 1 upwards.
    Took(u32),
    /// The descriptor isn't ready for what was asked of it.
    Again,
    /// The descriptor has failed.
    Fault,
    /// These bytes were read.
    Got(Octets),
    /// No more bytes come.
    End,
    /// So many bytes were written, from 1 upwards.
    Wrote(u32),
}
