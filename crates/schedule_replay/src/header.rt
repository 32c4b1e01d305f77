//! The first line of a schedule.
ghost use Rattle.std.specs.Prelude.{◌≡◌};
ghost use Rattle.tree_specs.specs.Texts.Schedule.{header_of};

use schedule_text::read_header;
use tree_specs::Header;

/// What the first line says of those after it. None where it is no header.
pub(crate) fn header(line: &[u8]) -> Option<Header>
    ensures { result ≡ header_of line.now }
{
    read_header(line).ok()
}
