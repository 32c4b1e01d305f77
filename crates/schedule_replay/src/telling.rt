//! Telling what a machine tells.
ghost use Rattle.schedule_replay.specs.Standings.{Tells};

use crate::machine::Machine;
use tree_specs::Memory;

/// Writes the lines of what is told up to the next question.
#[inline(never)]
fn tell_all<M: Machine>(machine: &mut M, text: &mut Vec<u8>) -> Result<(), Memory>
    ensures { Tells (M.standing machine.old) text.old.items (M.standing machine.new) text.new.items result }
{
    'tells: for _line in 0..u64::MAX {
        match machine.next()? {
            Some(told) => M::write(told, text)?,
            None => return Ok(()),
        }
    }
    Err(Memory)
}

/// Writes the lines of what is told up to the next question. Mostly one is open already, and nothing is told.
#[inline(always)]
pub fn tell<M: Machine>(machine: &mut M, text: &mut Vec<u8>) -> Result<(), Memory>
    ensures { Tells (M.standing machine.old) text.old.items (M.standing machine.new) text.new.items result }
{
    if machine.question().is_some() {
        return Ok(());
    }
    tell_all(machine, text)
}
