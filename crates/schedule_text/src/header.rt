//! The first line of a schedule, which says the grammar of the lines that follow and what runs them.
ghost use Rattle.std.specs.Prelude.{◌≡◌, ◌≢◌, ◌++◌, Err};
ghost use Rattle.std.specs.Str.{bytes_eq};
ghost use Rattle.tree_specs.specs.Texts.Schedule.{header_of, header_text, says};
ghost use Rattle.tree_specs.specs.Texts.Text.{newline};
ghost use Rattle.tree_specs.specs.Texts.Written.{Writes};
ghost use Rattle.text_forms.specs.Reads.{Reads};

use text_forms::FormFault;
use tree_specs::{Header, Memory, Mode, Version};

/// The first line of a schedule, without its LF.
fn header_line(header: Header) -> &'static [u8]
    ensures { result.now ≡ header_text header.version header.mode }
{
    match (header.version, header.mode) {
        (Version::One, Mode::Pool) => b"tv schedule 1 pool",
        (Version::One, Mode::Service) => b"tv schedule 1 service",
        (Version::Two, Mode::Pool) => b"tv schedule 2 pool",
        (Version::Two, Mode::Service) => b"tv schedule 2 service",
    }
}

/// Whether a line is the first line that says this.
fn is_header(line: &[u8], version: Version, mode: Mode) -> bool
    ensures { result ≡ bytes_eq line.now (header_text version mode) }
{
    line == header_line(said(version, mode))
}

/// Lines in this version, and what runs them.
fn said(version: Version, mode: Mode) -> Header
    ensures { result ≡ says version mode }
{
    Header { version, mode }
}

/// Appends the first line of a schedule, with its LF. When memory runs out, a prefix of it was appended.
pub fn write_header(header: Header, out: &mut Vec<u8>) -> Result<(), Memory>
    ensures { Writes out.old.items out.new.items result (header_text header.version header.mode ++ newline) }
{
    out.extend_from_slice(header_line(header))?;
    out.push(b'\n')?;
    Ok(())
}

/// What the first line of a schedule says of the lines that follow, the line without its LF: `tv schedule 1 pool` or
/// `tv schedule 1 service`, or the same with a 2. NoForm exactly where the line is another one. It takes no memory, so
/// the fault is never Memory.
#[tactic(auto, unfolding(tree_specs::specs::Texts::Schedule::header_of))]
pub fn read_header(line: &[u8]) -> Result<Header, FormFault>
    ensures value { Reads result (header_of line.now) }
    ensures no_memory { result ≢ Err FormFault.Memory }
{
    if is_header(line, Version::One, Mode::Pool) {
        Ok(said(Version::One, Mode::Pool))
    } else if is_header(line, Version::One, Mode::Service) {
        Ok(said(Version::One, Mode::Service))
    } else if is_header(line, Version::Two, Mode::Pool) {
        Ok(said(Version::Two, Mode::Pool))
    } else if is_header(line, Version::Two, Mode::Service) {
        Ok(said(Version::Two, Mode::Service))
    } else {
        Err(FormFault::NoForm)
    }
}
