//! The law of conversions, the clause of a function that does nothing.
ghost use Rattle.std.specs.Prelude.{◌≡◌, ℕ, List, None};
ghost use Rattle.schedule_versions.specs.Conversions.{converted, shape};
ghost use Rattle.schedule_versions.specs.Judging.{IsJudgedAlike};

/// A schedule of which each line is within the limits and one of its version is converted into one that is judged as it is,
/// has the same inputs, and gives the same transcript.
pub fn a_converted_schedule_is_judged_as_before()
    ensures { (bytes : List ℕ) → shape bytes ≡ None → IsJudgedAlike bytes (converted bytes) }
{}
