//! What is kept of a queue: whether it runs, its two ends, and its length.
ghost use Rattle.std.specs.Prelude.{◌≡◌, ◌-◌, ◌^◌, ◌<◌, ℕ, Some, cond, nat_eq};
ghost use Rattle.std.specs.Option.{option_map};
ghost use Rattle.pool_arena.specs.Arena.{get};
ghost use Rattle.request_queue.specs.declared.line.Line.{Line as LineData};
ghost use Rattle.request_queue.specs.Linked.{newest_in, oldest_in, length_in, running_in, run_by, joined, left};

use linked_lanes::Sides;
use pool_arena::Arena;

/// A queue: whether it runs, and its entries by their ends.
#[derive(Clone, Copy)]
pub(crate) struct Line {
    pub running: bool,
    /// The entry that came last.
    pub newest: Option<u64>,
    /// The first entry.
    pub oldest: Option<u64>,
    /// How many entries there are.
    pub length: u64,
}

/// The entry of a queue that came last. None exactly where it has none.
pub(crate) fn newest(lines: &Arena<Line>, queue: u64) -> Option<u64>
    ensures { result ≡ newest_in (get lines.now queue) }
{
    match lines.get(queue) {
        None => None,
        Some(line) => line.newest,
    }
}

/// The first entry of a queue. None exactly where it has none.
pub(crate) fn oldest(lines: &Arena<Line>, queue: u64) -> Option<u64>
    ensures { result ≡ oldest_in (get lines.now queue) }
{
    match lines.get(queue) {
        None => None,
        Some(line) => line.oldest,
    }
}

/// How many entries a queue has.
pub(crate) fn length(lines: &Arena<Line>, queue: u64) -> u64
    ensures { result ≡ length_in (get lines.now queue) }
{
    match lines.get(queue) {
        None => 0,
        Some(line) => line.length,
    }
}

/// Whether a queue runs. None exactly where it is none.
pub(crate) fn running(lines: &Arena<Line>, queue: u64) -> Option<bool>
    ensures { result ≡ option_map running_in (get lines.now queue) }
{
    match lines.get(queue) {
        None => None,
        Some(line) => Some(line.running),
    }
}

/// Sets whether a queue runs. Nothing changes where it is none.
pub(crate) fn set_running(lines: &mut Arena<Line>, queue: u64, running: bool)
    ensures lines { (q : ℕ) → get lines.new q ≡ cond (nat_eq queue q) (option_map (run_by running) (get lines.old q)) (get lines.old q) }
    ensures spare { lines.new.spare ≡ lines.old.spare }
{
    if let Some(line) = lines.get_mut(queue) {
        line.running = running;
    }
}

/// Puts an entry into its queue, behind all others. Nothing changes where there is no such queue.
pub(crate) fn join(lines: &mut Arena<Line>, queue: u64, entry: u64)
    requires { (l : LineData) → get lines.old queue ≡ Some l → l.length < 2 ^ 64 - 1 }
    ensures lines { (q : ℕ) → get lines.new q ≡ cond (nat_eq queue q) (option_map (joined entry) (get lines.old q)) (get lines.old q) }
    ensures spare { lines.new.spare ≡ lines.old.spare }
{
    if let Some(line) = lines.get_mut(queue) {
        *line = Line {
            running: line.running,
            newest: Some(entry),
            oldest: line.oldest.or(Some(entry)),
            length: line.length + 1,
        };
    }
}

/// Takes an entry with these neighbours out of its queue. Nothing changes where there is no such queue.
pub(crate) fn leave(lines: &mut Arena<Line>, queue: u64, sides: Sides)
    requires { (l : LineData) → get lines.old queue ≡ Some l → 0 < l.length }
    ensures lines { (q : ℕ) → get lines.new q ≡ cond (nat_eq queue q) (option_map (left sides) (get lines.old q)) (get lines.old q) }
    ensures spare { lines.new.spare ≡ lines.old.spare }
{
    if let Some(line) = lines.get_mut(queue) {
        *line = Line {
            running: line.running,
            newest: sides.head_after(line.newest),
            oldest: sides.last_after(line.oldest),
            length: line.length - 1,
        };
    }
}
