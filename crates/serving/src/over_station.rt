//! The line service is a machine that can be served.
ghost use Rattle.service_rules.specs.Stations.{asked_of, watched_by};
ghost use Rattle.serving.specs.Stations.{station_course};

use crate::machine::Machine;
use host_core::OfferFault;
use line_service::Station;
use tree_specs::{Ask, Event, Input, Memory, Want};

impl Machine for Station {
    ghost course = { station_course };

    ghost asked = { asked_of };

    ghost wanted = { watched_by };

    fn question(&self) -> Option<&Ask> {
        Station::question(self)
    }

    fn wants(&self, out: &mut Vec<Want>) -> Result<(), Memory> {
        Station::wants(self, out)
    }

    fn next(&mut self) -> Result<Option<Event>, Memory> {
        Station::next(self)
    }

    fn offer(&mut self, input: Input) -> Result<(), OfferFault> {
        Station::offer(self, input)
    }
}
