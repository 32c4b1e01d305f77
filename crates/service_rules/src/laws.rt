//! Laws of the service's story, each the clause of a function that does nothing.
ghost use Rattle.std.specs.Prelude.{◌≡◌, ◌∷◌, ℕ, List, Some};
ghost use Rattle.step_machine.specs.Open.{LastIs};
ghost use Rattle.machine_driver.specs.Driver.{driven};
ghost use Rattle.tree_specs.specs.declared.question.Input.{Input as InputData};
ghost use Rattle.tree_specs.specs.Promises.Orderly.{Orderly};
ghost use Rattle.tree_specs.specs.Promises.Grounded.{Grounded};
ghost use Rattle.tree_specs.specs.Rules.Items.{Item, IsQuestion};
ghost use Rattle.tree_specs.specs.Rules.Story.{story};
ghost use Rattle.tree_specs.specs.declared.schedule.Mode.TheVariants.{Pool};
ghost use Rattle.tree_specs.specs.declared.schedule.Version.{Version as VersionData};
ghost use Rattle.tree_specs.specs.Texts.Lines.{Line};
ghost use Rattle.tree_specs.specs.Texts.Runners.{judged_lines, transcript_lines};
ghost use Rattle.tree_specs.specs.Texts.Schedule.{header_of, pools, says};
ghost use Rattle.service_rules.specs.Knowledge.{nothing_known};
ghost use Rattle.service_rules.specs.Fair.{FairBytesGoOut};
ghost use Rattle.service_rules.specs.Fitting.{FittingBytesGoOut};
ghost use Rattle.service_rules.specs.ReadRanges.{ReadsAreInRange};
ghost use Rattle.service_rules.specs.Schedules.{runner_of};
ghost use Rattle.service_rules.specs.Service.{inputs_behind, machine, service_story, station};
ghost use Rattle.service_rules.specs.Suiting.{SuitingAnswersFit};

/// What the outside sees is orderly, whatever it answers.
pub fn every_service_story_is_orderly()
    ensures story { (is : List InputData) → Orderly (service_story is) }
    ensures allowed { (n : ℕ) (is : List InputData) (us : List Item) → driven station n nothing_known machine is ≡ Some us → Orderly us }
{}

/// What the outside sees ends with the question that it is asked, as soon as so many answers are allowed that it is there:
/// whatever the service answers itself fits.
pub fn every_service_story_ends_with_its_question()
    ensures allowed { (n : ℕ) (is : List InputData) (us : List Item) → driven station n nothing_known machine is ≡ Some us → LastIs IsQuestion us }
    ensures story { (is js : List InputData) → inputs_behind is ≡ Some js → LastIs IsQuestion (service_story is) }
{}

/// The story of the machine behind the service is grounded.
pub fn the_story_behind_is_grounded()
    ensures { (is js : List InputData) → inputs_behind is ≡ Some js → Grounded (story 1 js) js }
{}

/// A schedule whose first line is a pool's header is judged as it is where no service runs schedules, and gives the same
/// transcript.
pub fn pool_schedules_are_judged_as_before()
    ensures judged { (v : VersionData) (first : Line) (rest : List Line) → header_of first.text ≡ Some (says v Pool) → judged_lines runner_of (first ∷ rest) ≡ judged_lines pools (first ∷ rest) }
    ensures transcript { (v : VersionData) (first : Line) (rest : List Line) → header_of first.text ≡ Some (says v Pool) → transcript_lines runner_of (first ∷ rest) ≡ transcript_lines pools (first ∷ rest) }
{}

/// Where the answers of the outside are fair, bytes go out on each connection as they were said: what its descriptor has
/// taken, and what is unsent, are the lines that were said to its session.
pub fn bytes_go_out_where_answers_are_fair()
    ensures { FairBytesGoOut }
{}

/// Where the answers of the outside fit and none of them is an act, bytes go out on each connection as they were said: what
/// its descriptor has taken, and what is unsent, are the lines that were said to its session.
pub fn bytes_go_out_where_answers_fit()
    ensures { FittingBytesGoOut }
{}

/// Where each answer suits its question, and no descriptor is accepted that is open, the service takes them all.
pub fn answers_that_suit_are_taken()
    ensures { SuitingAnswersFit }
{}

/// Each read that the outside is asked for is of 1 to 65,536 bytes, whatever it answers.
pub fn reads_are_in_range()
    ensures { ReadsAreInRange }
{}
