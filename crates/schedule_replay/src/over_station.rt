//! A line service runs the lines of a schedule: they spell the answers of the outside, and it tells what the outside sees.
ghost use Rattle.tree_specs.specs.Texts.Grammar.{input_of};
ghost use Rattle.tree_specs.specs.Texts.Schedule.{misfit};
ghost use Rattle.tree_specs.specs.Texts.Text.{event_text};
ghost use Rattle.tree_specs.specs.Words.Ranges.{is_sound};
ghost use Rattle.schedule_replay.specs.Stations.{station_standing};

use crate::machine::Machine;
use host_core::OfferFault;
use line_service::Station;
use schedule_text::{read_line, write_event};
use std::alloc::Global;
use text_forms::FormFault;
use tree_specs::{Ask, Event, Input, Memory, Version};

impl Machine for Station {
    type Given = Input;

    type Told = Event;

    ghost reads = { input_of };

    ghost misfit = { misfit };

    ghost is_sound = { is_sound };

    ghost text_of = { event_text };

    ghost standing = { station_standing };

    fn read(alloc: Global, line: &[u8], version: Version) -> Result<Input, FormFault> {
        read_line(alloc, line, version)
    }

    fn write(told: Event, text: &mut Vec<u8>) -> Result<(), Memory> {
        write_event(&told, text)
    }

    fn question(&self) -> Option<&Ask> {
        Station::question(self)
    }

    fn next(&mut self) -> Result<Option<Event>, Memory> {
        Station::next(self)
    }

    fn offer(&mut self, given: Input) -> Result<(), OfferFault> {
        Station::offer(self, given)
    }

    /// The outside is never asked for a call, so nothing is taken at once.
    fn take_at_once(&mut self, given: Input, _text: &mut Vec<u8>) -> Result<Option<Input>, Memory> {
        Ok(Some(given))
    }
}
