//! The commands that the program takes.

/// The most answers of the outside that are served.
pub const ANSWERS_LIMIT: u32 = 1_000_000_000;

/// The most calls that are drawn for a schedule.
pub const COUNT_LIMIT: u32 = 1_000_000;

/// What the words ask for.
#[derive(Clone, Copy)]
pub enum Command<'a> {
    /// The schedule that is read is to be replayed.
    Replay,
    /// The schedule that is read is to be written in version 2.
    Convert,
    /// The transcript that is read is to be audited.
    Audit,
    /// Lines are to be served at a Unix socket, and the schedule that was served is to be written. The socket is made at
    /// `path`, which isn't empty, and `answers` answers of the outside are served: 1 to `ANSWERS_LIMIT`.
    Serve { path: &'a str, answers: u32 },
    /// The schedule of `count` calls, at most `COUNT_LIMIT`, that is made from a number is to be replayed, and counted.
    Load { number: u32, count: u32 },
}
