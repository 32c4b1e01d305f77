//! Why an audit ends before its transcript does.
ghost use Rattle.std.specs.Prelude.{◌≡◌};
ghost use Rattle.transcript_audit.specs.declared.stop.Stop.TheVariants as stop;

use tree_specs::Memory;

/// Why an audit ends before its transcript does.
#[derive(Clone, Copy)]
pub enum Stop {
    /// The line with this number, from 1, is the first with a flaw, and this is the flaw: the least rule that the line
    /// breaks, or 0.
    Broken { line: u64, rule: u32 },
    /// A read failed.
    Read,
    /// Memory ran out.
    Memory,
}

impl From<Memory> for Stop {
    ghost from_gives = { λ _ e. e ≡ stop.Memory };

    fn from(_e: Memory) -> Stop {
        Stop::Memory
    }
}
