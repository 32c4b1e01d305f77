//! What holds of flaws, whatever the bytes are: each law is the clause of a function that does nothing.
ghost use Rattle.std.specs.Prelude.{◌≡◌, ◌++◌, ◌↔◌, ℕ, List, None, Some};
ghost use Rattle.tree_specs.specs.Rules.Items.{Item};
ghost use Rattle.tree_specs.specs.Promises.Orderly.{Orderly};
ghost use Rattle.audit_rules.specs.Beginnings.{IsFirstFlaw};
ghost use Rattle.audit_rules.specs.Flaws.{flaw};
ghost use Rattle.audit_rules.specs.Transcripts.{IsOrderlyText};

/// A prefix of an orderly story is orderly.
pub fn a_prefix_is_orderly()
    ensures { (items more : List Item) → Orderly (items ++ more) → Orderly items }
{}

/// No line has a flaw exactly where the bytes are the transcript of an orderly story, and have at most 4,294,967,295 lines.
pub fn what_has_no_flaw_is_orderly()
    ensures { (bytes : List ℕ) → flaw bytes ≡ None ↔ IsOrderlyText bytes }
{}

/// A flaw that is found is the first one. The lines before it begin the transcript of an orderly story; its line is missing,
/// is one too many, stands there in no transcript, or tells an item that breaks this rule and none of less number.
pub fn what_is_found_is_the_first_flaw()
    ensures { (bytes : List ℕ) (n k : ℕ) → flaw bytes ≡ Some (n, k) → IsFirstFlaw bytes n k }
{}
