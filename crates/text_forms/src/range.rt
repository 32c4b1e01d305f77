//! The ranges of numbers: a number, where it is in one.

ghost use Rattle.std.specs.Prelude.{◌≡◌};
ghost use Rattle.tree_specs.specs.Calls.Spelling.Numeral.{Number32, Positive32, Time, FdFlags, Length};
ghost use Rattle.text_forms.specs.Reads.{in_range};

use tree_specs::{OCTETS_LIMIT, TIME_LIMIT};

/// A number below 2^32.
pub(crate) fn as_u32(n: u64) -> Option<u32>
    ensures { result ≡ in_range Number32 n }
{
    u32::try_from(n).ok()
}

/// The same, and not 0.
pub(crate) fn as_positive(n: u64) -> Option<u32>
    ensures { result ≡ in_range Positive32 n }
{
    match u32::try_from(n) {
        Ok(0) | Err(_) => None,
        Ok(n) => Some(n),
    }
}

/// A time in microseconds.
pub(crate) fn as_time(n: u64) -> Option<u64>
    ensures { result ≡ in_range Time n }
{
    if n <= TIME_LIMIT { Some(n) } else { None }
}

/// What an event on a descriptor waits for.
pub(crate) fn as_flags(n: u64) -> Option<u32>
    ensures { result ≡ in_range FdFlags n }
{
    if n <= 3 { Some(n as u32) } else { None }
}

/// A number of bytes that one read or write passes on.
pub(crate) fn as_length(n: u64) -> Option<u32>
    ensures { result ≡ in_range Length n }
{
    if 1 <= n && n <= OCTETS_LIMIT as u64 {
        Some(n as u32)
    } else {
        None
    }
}
