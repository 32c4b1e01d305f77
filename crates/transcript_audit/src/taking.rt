//! An audit takes the lines of a transcript.
ghost use Rattle.audit_rules.specs.Flaws.{Verdict};

use crate::course::{Audit, broken};
use crate::stage::Stage;
use crate::stop::Stop;
use line_pieces::TakesLines;

impl TakesLines for Audit {
    type Stop = Stop;

    ghost use Rattle.transcript_audit.specs.Audits.{comes, IsReady, stops, ends};

    ghost Found = { Verdict };

    ghost comes = { comes };

    ghost ready = { IsReady };

    ghost stops = { stops };

    ghost ends = { ends };

    fn take_line(&mut self, number: u64, line: &[u8]) -> Result<(), Stop> {
        self.take(number, line)?;
        self.lines += 1;
        Ok(())
    }

    fn is_full(&self) -> bool {
        false
    }

    fn refuse_limit(&mut self, number: u64) -> Stop {
        Stop::Broken {
            line: number,
            rule: 0,
        }
    }

    fn want_memory(&self) -> Stop {
        Stop::Memory
    }

    fn finish(&mut self, number: u64, cut: bool) -> Result<(), Stop> {
        if cut {
            return broken(number, 0);
        }
        match self.stage {
            Stage::Header => broken(number, 0),
            Stage::Body => broken(number, 0),
            Stage::Over => Ok(()),
        }
    }
}
