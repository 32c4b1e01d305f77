//! The numbers that bound what is taken: each stands here alone, and definitions, contracts and code cite it.

/// The size of an object, in bytes, is below this: talloc's own bound for one allocation (`MAX_TALLOC_SIZE`).
pub const SIZE_LIMIT: u64 = 268_435_456;

/// The latest time of an event, in microseconds.
pub const TIME_LIMIT: u64 = 4_611_686_018_427_387_904;

/// How long is waited for descriptors where no event has a time, in microseconds.
pub const WAIT_LIMIT: u64 = 30_000_000;

/// At most so many objects are live at once.
pub const ROW_LIMIT: usize = 1_048_576;

/// The bytes that an object counts against a limit beside its size, as a chunk's header does in talloc.
pub const OVERHEAD: u64 = 96;

/// The longest name, in bytes.
pub const NAME_LIMIT: usize = 1_023;

/// The longest name in a schedule of version 1 and in a line to the service, in bytes.
pub const SHORT_NAME_LIMIT: usize = 255;

/// The most bytes that one read or write passes on.
pub const OCTETS_LIMIT: usize = 65_536;

/// The longest line of a schedule, in bytes without its LF.
pub const LINE_LIMIT: usize = 262_144;

/// The most lines that a schedule has.
pub const LINES_LIMIT: u64 = 4_294_967_295;
