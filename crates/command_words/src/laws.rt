//! What holds whatever the words of the command line are.
#![tactic(auto)]

ghost use Rattle.std.specs.Prelude.{◌≡◌, ◌≢◌, ◌≤◌, ◌<◌, ℕ, codes, length, slice_get, true, Some, None, List, [], ◌∷◌};
ghost use Rattle.std.specs.Fmt.{decimal};
ghost use Rattle.command_words.specs.declared.command.TheConstants.{ANSWERS_LIMIT, COUNT_LIMIT};
ghost use Rattle.command_words.specs.CommandLine.{command_of, is_taken};
ghost use Rattle.command_words.specs.CommandLine.Asked.{Serve, Load};

/// The words of a `serve` are taken: its name, a path that isn't empty and has no hyphen in front, and the answers in
/// decimal.
pub fn each_serve_is_taken()
    ensures { (path : List ℕ) (answers : ℕ) → 0 < length path → slice_get path 0 ≢ Some 45
        → 1 ≤ answers → answers ≤ ANSWERS_LIMIT
        → command_of (codes "serve" ∷ path ∷ decimal answers ∷ []) ≡ Some (Serve path answers) }
{}

/// The words of a load are taken: its name, and both numbers in decimal.
pub fn each_load_is_taken()
    ensures { (number count : ℕ) → number ≤ u32.MAX → count ≤ COUNT_LIMIT
        → command_of (codes "load" ∷ decimal number ∷ decimal count ∷ []) ≡ Some (Load number count) }
{}

/// Whatever words are taken name a command.
pub fn taken_words_name_a_command()
    ensures { (words : List (List ℕ)) → is_taken words ≡ true → command_of words ≢ None }
{}
