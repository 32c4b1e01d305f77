//! What the first line of a schedule says, and why a line is rejected.
use thiserror::Error;

/// The grammar that the lines of a schedule are in, which its first line says.
#[derive(Clone, Copy, Debug, PartialEq, Eq)]
pub enum Version {
    /// Names have 255 bytes at most, and no call says its context.
    One,
    /// Names have 1,023 bytes at most. A call that waits for something, or waits itself, says its context last.
    Two,
}

/// What runs the lines of a schedule, which its first line says.
#[derive(Clone, Copy, Debug, PartialEq, Eq)]
pub enum Mode {
    /// A host of its own, whose first object gets the number 1.
    Pool,
    /// The line service, over such a host.
    Service,
}

/// What the first line of a schedule says.
#[derive(Clone, Copy, Debug, PartialEq, Eq)]
pub struct Header {
    /// The grammar of the lines after it.
    pub version: Version,
    /// What runs them.
    pub mode: Mode,
}

/// Why a line of a schedule was rejected. The reasons are tried in this order.
#[derive(Clone, Copy, Debug, PartialEq, Eq, Error)]
pub enum Reason {
    /// The line has more than 262,144 bytes without its LF, or stands after line 4,294,967,295.
    #[error("the line is over a limit")]
    Limit,
    /// The line has no LF, or isn't in the grammar.
    #[error("the line is not in the grammar")]
    Form,
    /// The open question takes no such input.
    #[error("the open question takes no such input")]
    NotAsked,
    /// The descriptor that was accepted is open already.
    #[error("the descriptor is open already")]
    Token,
}
