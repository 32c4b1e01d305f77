//! Where a line ends.
ghost use Rattle.line_pieces.specs.Cuts.{EndsFirst};

use memchr::memchr;

/// Where the first line of these bytes ends; None where none does.
pub fn line_end(bytes: &[u8]) -> Option<usize>
    ensures { EndsFirst bytes.now result }
{
    memchr(b'\n', bytes)
}
