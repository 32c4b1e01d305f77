//! How far a schedule is read: its first line is still to come, or what that line says runs the others.
ghost use Rattle.std.specs.Prelude.{◌≡◌, IfOk};
ghost use Rattle.tree_specs.specs.Machine.View.{begin};
ghost use Rattle.tree_specs.specs.Texts.Grammar.{input_of};
ghost use Rattle.tree_specs.specs.Texts.Schedule.{misfit};
ghost use Rattle.schedule_replay.specs.Hosts.{host_standing};
ghost use Rattle.schedule_replay.specs.Plays.{Begins};
ghost use Rattle.schedule_replay.specs.Starts.{BeginsService, StartsAfter};

use crate::header::header;
use crate::play::Play;
use crate::player::Player;
use crate::stop::Stop;
use host_core::Host;
use line_service::Station;
use std::alloc::Global;
use std::mem;
use tree_specs::{Header, Memory, Mode, Reason, Version};

/// A host that runs the lines of a schedule.
fn begin_pool(alloc: Global, version: Version) -> Result<Play<Host>, Memory>
    ensures version { IfOk result (λ play. play.version ≡ version) }
    ensures begins { IfOk result (λ play. Begins (input_of version) misfit host_standing (begin 1) play) }
{
    Play::begin(alloc, version, Host::new(alloc, 1)?)
}

/// A line service that runs them.
fn begin_service(alloc: Global, version: Version) -> Result<Play<Station>, Memory>
    ensures version { IfOk result (λ play. play.version ≡ version) }
    ensures begins { IfOk result (BeginsService version) }
{
    Play::begin(alloc, version, Station::new(alloc)?)
}

/// What takes the lines of a schedule.
#[derive(Drop)]
pub enum Stage {
    /// The first line is still to come.
    Header(Global),
    /// A host runs the lines after it.
    Pool(Play<Host>),
    /// A line service runs them.
    Service(Play<Station>),
}

/// What runs the lines after this first one.
fn stage_after(alloc: Global, line: &[u8]) -> Result<Stage, Stop>
    ensures { StartsAfter line.now result }
{
    let Some(Header { version, mode }) = header(line) else {
        return Err(Stop::Refused {
            line: 1,
            reason: Reason::Form,
        });
    };
    match mode {
        Mode::Pool => Ok(Stage::Pool(begin_pool(alloc, version)?)),
        Mode::Service => Ok(Stage::Service(begin_service(alloc, version)?)),
    }
}

impl Stage {
    ghost use Rattle.schedule_replay.specs.Stages.{TakesHeader};

    /// The next lines come. What stood here was the first line still to come, which owns nothing.
    fn start(&mut self, next: Stage)
        ensures { self.new ≡ next }
    {
        mem::forget(mem::replace(self, next));
    }

    /// Takes the first line.
    #[inline(never)]
    fn take_header(&mut self, alloc: Global, line: &[u8]) -> Result<(), Stop>
        ensures { TakesHeader line.now self.old self.new result }
    {
        let next = stage_after(alloc, line)?;
        self.start(next);
        Ok(())
    }
}

impl Player for Stage {
    ghost use Rattle.schedule_replay.specs.Stages.{plays, ready, text_in};

    ghost plays = { plays };

    ghost text_in = { text_in };

    ghost ready = { ready };

    fn text(&self) -> &[u8] {
        match self {
            Stage::Header(_alloc) => &[],
            Stage::Pool(play) => &play.text,
            Stage::Service(play) => &play.text,
        }
    }

    fn clear_text(&mut self) {
        match self {
            Stage::Header(_alloc) => {}
            Stage::Pool(play) => play.text.clear(),
            Stage::Service(play) => play.text.clear(),
        }
    }

    #[inline(always)]
    fn take_line(&mut self, number: u64, line: &[u8]) -> Result<(), Stop> {
        match self {
            Stage::Header(alloc) => {
                let alloc = *alloc;
                self.take_header(alloc, line)
            }
            Stage::Pool(play) => play.take_line(number, line),
            Stage::Service(play) => play.take_line(number, line),
        }
    }

    fn refuse_limit(&mut self, number: u64) -> Stop {
        match self {
            Stage::Header(_alloc) => Stop::Refused {
                line: number,
                reason: Reason::Limit,
            },
            Stage::Pool(play) => play.refuse_limit(number),
            Stage::Service(play) => play.refuse_limit(number),
        }
    }

    fn finish(&mut self, number: u64, cut: bool) -> Result<(), Stop> {
        match self {
            Stage::Header(_alloc) => Err(Stop::Refused {
                line: number,
                reason: Reason::Form,
            }),
            Stage::Pool(play) => play.finish(number, cut),
            Stage::Service(play) => play.finish(number, cut),
        }
    }
}
