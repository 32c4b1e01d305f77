//! Turning the lines of a schedule into those of version 2. They are read and not run.
ghost use Rattle.std.specs.Prelude.{◌≡◌, [], None};
ghost use Rattle.schedule_replay.specs.Converting.{ready, TakesHeader, text_in, TurnsLine};

use crate::header::header;
use crate::player::Player;
use crate::stop::Stop;
use schedule_text::{convert_line, write_header};
use std::alloc::Global;
use text_forms::FormFault;
use tree_specs::{Header, Reason, Version};

/// How far a schedule is turned into version 2, and what is to be written of it.
#[derive(Drop)]
pub struct Conversion {
    /// The version of the lines to come. None where the first one is still to come.
    version: Option<Version>,
    /// What is to be written next.
    text: Vec<u8>,
}

/// The line with this number isn't in the grammar.
fn no_line(number: u64) -> Stop
    ensures { result ≡ Stop.Refused number Reason.Form }
{
    Stop::Refused {
        line: number,
        reason: Reason::Form,
    }
}

impl Conversion {
    /// The first line is still to come.
    pub(crate) fn new(alloc: Global) -> Conversion
        ensures ready { ready result 1 }
        ensures empty { text_in result ≡ [] }
        ensures first { result.version ≡ None }
    {
        Conversion {
            version: None,
            text: Vec::new(alloc),
        }
    }

    /// Takes the first line, and writes one that says version 2.
    fn take_header(&mut self, line: &[u8]) -> Result<(), Stop>
        ensures { TakesHeader self.old line.now self.new result }
    {
        let Some(Header { version, mode }) = header(line) else {
            return Err(no_line(1));
        };
        let second = Header {
            version: Version::Two,
            mode,
        };
        write_header(second, &mut self.text)?;
        self.version = Some(version);
        Ok(())
    }

    /// Takes a line of this version.
    #[inline(always)]
    fn turn_line(&mut self, version: Version, number: u64, line: &[u8]) -> Result<(), Stop>
        ensures turned { TurnsLine version number line.now self.old.text.items self.new.text.items result }
        ensures version { self.new.version ≡ self.old.version }
    {
        match convert_line(line, version, &mut self.text) {
            Ok(()) => Ok(()),
            Err(FormFault::NoForm) => Err(no_line(number)),
            Err(FormFault::Memory) => Err(Stop::Memory),
        }
    }
}

impl Player for Conversion {
    ghost use Rattle.schedule_replay.specs.Converting.{plays};

    ghost plays = { plays };

    ghost text_in = { text_in };

    ghost ready = { ready };

    fn text(&self) -> &[u8] {
        &self.text
    }

    fn clear_text(&mut self) {
        self.text.clear();
    }

    #[inline(always)]
    fn take_line(&mut self, number: u64, line: &[u8]) -> Result<(), Stop> {
        match self.version {
            None => self.take_header(line),
            Some(version) => self.turn_line(version, number, line),
        }
    }

    fn refuse_limit(&mut self, number: u64) -> Stop {
        Stop::Refused {
            line: number,
            reason: Reason::Limit,
        }
    }

    fn finish(&mut self, number: u64, cut: bool) -> Result<(), Stop> {
        match self.version {
            None => Err(no_line(number)),
            Some(_version) if cut => Err(no_line(number)),
            Some(_version) => Ok(()),
        }
    }
}
