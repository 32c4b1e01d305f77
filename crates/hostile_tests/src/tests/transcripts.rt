//! The bytes of a table: those of its schedule, and those of the transcript that its lines have.
use super::schedules::Exchange;
use std::alloc::Global;
use tree_specs::Memory;

/// The schedule of the first lines of a table.
pub(super) fn schedule(alloc: Global, table: &[Exchange], lines: usize) -> Result<Vec<u8>, Memory> {
    let mut bytes = Vec::new(alloc);
    for (line, _, _) in table.iter().take(lines) {
        bytes.extend_from_slice(line.as_bytes())?;
        bytes.push(b'\n')?;
    }
    Ok(bytes)
}

/// How many whole lines these bytes have.
pub(super) fn whole_lines(bytes: &[u8]) -> usize {
    bytes.iter().filter(|byte| **byte == b'\n').count()
}

/// A transcript up to the question that is open.
#[derive(Drop)]
pub(super) struct Transcript {
    text: Vec<u8>,
    question: &'static str,
}

impl Transcript {
    /// What the first lines of a table give.
    pub(super) fn of(
        alloc: Global,
        table: &[Exchange],
        lines: usize,
    ) -> Result<Transcript, Memory> {
        let mut transcript = Transcript {
            text: Vec::new(alloc),
            question: "quiet",
        };
        for (_, told, question) in table.iter().take(lines) {
            transcript.add(told, question)?;
        }
        Ok(transcript)
    }

    /// The open question was answered, these lines came of it, and then this question is open.
    pub(super) fn add(&mut self, told: &str, question: &'static str) -> Result<(), Memory> {
        if self.question != "quiet" {
            self.put_question("ask ")?;
        }
        self.text.extend_from_slice(told.as_bytes())?;
        self.question = question;
        Ok(())
    }

    /// The schedule is over.
    pub(super) fn end(&mut self) -> Result<(), Memory> {
        self.put_question("end ")
    }

    fn put_question(&mut self, word: &str) -> Result<(), Memory> {
        self.text.extend_from_slice(word.as_bytes())?;
        self.text.extend_from_slice(self.question.as_bytes())?;
        self.text.push(b'\n')?;
        Ok(())
    }

    /// Lends its bytes, without the open question.
    pub(super) fn text(&self) -> &[u8] {
        &self.text
    }
}
