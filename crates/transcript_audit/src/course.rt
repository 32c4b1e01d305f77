//! An audit in the midst of its transcript.
ghost use Rattle.std.specs.Prelude.{◌≡◌, ◌<◌, ◌≤◌, ◌+◌, OnOk, OnErr, Ok, Err, Some};
ghost use Rattle.std.specs.Option.{option_map};
ghost use Rattle.transcript_lines.specs.Lines.{line_of};
ghost use Rattle.transcript_lines.specs.Sayings.{said_of};
ghost use Rattle.transcript_audit.specs.declared.stop.Stop.TheVariants as stop;
ghost use Rattle.transcript_audit.specs.Courses.{noted, with_rows, unless_broken, with_fact, with_said, after_header, kept_after};

use crate::books::Books;
use crate::stage::Stage;
use crate::stop::Stop;
use std::alloc::Global;
use transcript_lines::{Fact, Said, read_line};

/// An audit in the midst of its transcript.
#[derive(Drop)]
pub struct Audit {
    pub stage: Stage,
    /// How many lines were taken.
    pub lines: u64,
    /// How many rows have come of a report whose reply is still to come.
    pub rows: u64,
    pub books: Books,
}

/// The line with this number has this flaw.
pub(crate) fn broken(line: u64, rule: u32) -> Result<(), Stop>
    ensures { result ≡ Err (stop.Broken line rule) }
{
    Err(Stop::Broken { line, rule })
}

impl Audit {
    ghost use Rattle.transcript_audit.specs.Audits.{breach_of, kept_of, fresh, Goes};

    /// An audit before the first line. It takes no memory.
    #[tactic(auto, using(crate::proofs::LineSteps::begins))]
    pub(crate) fn new(alloc: Global) -> Audit
        ensures kept { kept_of result ≡ fresh }
        ensures lines { result.lines ≡ 0 }
        ensures rows { result.rows ≡ 0 }
    {
        Audit {
            stage: Stage::Header,
            lines: 0,
            rows: 0,
            books: Books::new(alloc),
        }
    }

    /// Notes an event or a question.
    #[tactic(auto, using(crate::proofs::LineSteps::kept_noted))]
    fn note(&mut self, fact: Fact) -> Result<(), Stop>
        ensures noted { OnOk result (kept_of self.new ≡ noted (kept_of self.old) fact) }
        ensures stops { OnErr result (result ≡ Err stop.Memory) }
        ensures lines { self.new.lines ≡ self.old.lines }
        ensures rows { self.new.rows ≡ self.old.rows }
    {
        self.books.note(fact)?;
        Ok(())
    }

    /// Notes what no rule looks at. Most lines are such.
    #[inline(always)]
    #[tactic(auto, using(crate::proofs::LineSteps::kept_noted))]
    fn note_nothing(&mut self)
        ensures noted { kept_of self.new ≡ noted (kept_of self.old) Fact.Nothing }
        ensures lines { self.new.lines ≡ self.old.lines }
        ensures rows { self.new.rows ≡ self.old.rows }
    {
        self.books.note_nothing();
    }

    /// Takes what a rule looks at.
    #[inline(never)]
    fn take_telling(&mut self, number: u64, fact: Fact) -> Result<(), Stop>
        ensures taken { Goes (unless_broken (breach_of self.old.books fact) (noted (kept_of self.old) fact)) number self.new result }
        ensures lines { self.new.lines ≡ self.old.lines }
        ensures rows { self.new.rows ≡ self.old.rows }
    {
        if let Some(rule) = self.books.broken(fact) {
            return broken(number, rule);
        }
        self.note(fact)
    }

    /// Takes an event or a question.
    #[inline(always)]
    #[tactic(auto, using(crate::proofs::LineSteps::behind_none, crate::proofs::LineSteps::behind_some))]
    fn take_fact(&mut self, number: u64, fact: Fact) -> Result<(), Stop>
        ensures taken { Goes (with_fact (kept_of self.old) fact (noted (kept_of self.old) fact)) number self.new result }
        ensures lines { self.new.lines ≡ self.old.lines }
        ensures rows { self.new.rows ≡ self.old.rows }
    {
        if self.rows != 0 {
            return broken(number, 0);
        }
        match fact {
            Fact::Nothing => {
                self.note_nothing();
                Ok(())
            }
            _ => self.take_telling(number, fact),
        }
    }

    /// Takes the end of a report of so many rows.
    fn take_rows(&mut self, number: u64, rows: u64) -> Result<(), Stop>
        ensures taken { Goes (with_said (kept_of self.old) (Some (Said.Rows rows))) number self.new result }
        ensures lines { self.new.lines ≡ self.old.lines }
        ensures rows { self.new.rows ≤ self.old.rows }
    {
        if rows != self.rows {
            return broken(number, 0);
        }
        self.note(Fact::Nothing)?;
        self.rows = 0;
        Ok(())
    }

    /// Takes a row of a report.
    fn take_row(&mut self) -> Result<(), Stop>
        requires { self.old.rows < u64.MAX }
        ensures result { result ≡ Ok tt }
        ensures kept { kept_of self.new ≡ with_rows (kept_of self.old) (self.old.rows + 1) }
        ensures lines { self.new.lines ≡ self.old.lines }
        ensures rows { self.new.rows ≡ self.old.rows + 1 }
    {
        self.rows += 1;
        Ok(())
    }

    /// Takes the question that is open at the end.
    fn take_end(&mut self, number: u64, fact: Fact) -> Result<(), Stop>
        ensures taken { Goes (with_said (kept_of self.old) (Some (Said.Ends fact))) number self.new result }
        ensures lines { self.new.lines ≡ self.old.lines }
        ensures rows { self.new.rows ≡ self.old.rows }
    {
        self.take_fact(number, fact)?;
        self.stage = Stage::Over;
        Ok(())
    }

    /// Takes what a line says that is neither the first nor behind the end.
    fn take_said(&mut self, number: u64, said: Said) -> Result<(), Stop>
        requires { self.old.rows < u64.MAX }
        ensures taken { Goes (with_said (kept_of self.old) (Some said)) number self.new result }
        ensures lines { self.new.lines ≡ self.old.lines }
        ensures rows { self.new.rows ≤ self.old.rows + 1 }
    {
        match said {
            Said::Row => self.take_row(),
            Said::Rows(n) => self.take_rows(number, n),
            Said::Tells(fact) => self.take_fact(number, fact),
            Said::Ends(fact) => self.take_end(number, fact),
        }
    }

    /// Takes a line that is neither the first nor behind the end.
    fn take_body(&mut self, number: u64, line: &[u8]) -> Result<(), Stop>
        requires { self.old.rows < u64.MAX }
        ensures taken { Goes (with_said (kept_of self.old) (option_map said_of (line_of line.now))) number self.new result }
        ensures lines { self.new.lines ≡ self.old.lines }
        ensures rows { self.new.rows ≤ self.old.rows + 1 }
    {
        match read_line(line) {
            Some(said) => self.take_said(number, said),
            None => broken(number, 0),
        }
    }

    /// Takes the first line.
    fn take_header(&mut self, number: u64, line: &[u8]) -> Result<(), Stop>
        ensures taken { Goes (after_header (kept_of self.old) line.now) number self.new result }
        ensures lines { self.new.lines ≡ self.old.lines }
        ensures rows { self.new.rows ≡ self.old.rows }
    {
        if line != b"tv transcript 1".as_slice() {
            return broken(number, 0);
        }
        self.stage = Stage::Body;
        Ok(())
    }

    /// Takes a line by what may come.
    pub(crate) fn take(&mut self, number: u64, line: &[u8]) -> Result<(), Stop>
        requires { self.old.rows < u64.MAX }
        ensures taken { Goes (kept_after (kept_of self.old) line.now) number self.new result }
        ensures lines { self.new.lines ≡ self.old.lines }
        ensures rows { self.new.rows ≤ self.old.rows + 1 }
    {
        match self.stage {
            Stage::Header => self.take_header(number, line),
            Stage::Body => self.take_body(number, line),
            Stage::Over => broken(number, 0),
        }
    }
}
