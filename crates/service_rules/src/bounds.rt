//! The numbers that bound what the service takes: each stands here alone, and definitions, contracts and code cite it.

/// A line of a connection has at most so many bytes, without its LF.
pub const LENGTH_LIMIT: usize = 1_024;

/// The longest delay of a sleep or job, in microseconds.
pub const DELAY_LIMIT: u64 = 1_000_000_000_000;

/// The most bytes that one read takes.
pub const READ_LIMIT: u32 = 4_096;

/// A connection with so many bytes that wait to be written is not read from.
pub const UNSENT_LIMIT: usize = 65_536;

/// The routines from this one on are the outside's, those below it the service's own.
pub const FIRST_OF_OUTSIDE: u32 = 16;
