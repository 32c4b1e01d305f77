//! Laws of records, each the clause of a function that does nothing.
ghost use Rattle.std.specs.Prelude.{◌<◌, ◌≡◌, List, length, true};
ghost use Rattle.std.specs.List.{list_all};
ghost use Rattle.tree_specs.specs.declared.question.Input.{Input as InputData};
ghost use Rattle.tree_specs.specs.declared.schedule.Version.TheVariants.{Two};
ghost use Rattle.tree_specs.specs.Texts.Lines.{lines_limit};
ghost use Rattle.service_rules.specs.Schedules.{service_runner};
ghost use Rattle.service_records.specs.Records.{AllFit, IsScheduleOf, has_ranges, is_short, record_text};

/// The record of answers that fit is a schedule of which nothing is refused, and its inputs are these answers. No answer
/// may name more than 20,164 ready descriptors, as its line would be too long.
pub fn a_record_is_a_schedule()
    ensures { (is : List InputData) → AllFit (service_runner Two).course is → list_all has_ranges is ≡ true → list_all is_short is ≡ true → length is < lines_limit → IsScheduleOf (record_text is) is }
{}
