//! Worked examples: the commands that words name.
#![tactic(auto)]

ghost use Rattle.std.specs.Prelude.{◌≡◌, codes, Some, None, [], ◌∷◌};
ghost use Rattle.command_words.specs.CommandLine.{command_of};
ghost use Rattle.command_words.specs.CommandLine.Asked.{Replay, Convert, Audit, Serve, Load};

/// These words are taken.
pub fn words_name_commands()
    ensures replay { command_of (codes "replay" ∷ []) ≡ Some Replay }
    ensures convert { command_of (codes "convert" ∷ []) ≡ Some Convert }
    ensures audit { command_of (codes "audit" ∷ []) ≡ Some Audit }
    ensures serve { command_of (codes "serve" ∷ codes "p" ∷ codes "3" ∷ []) ≡ Some (Serve (codes "p") 3) }
    ensures most_answers { command_of (codes "serve" ∷ codes "p" ∷ codes "1000000000" ∷ []) ≡ Some (Serve (codes "p") 1000000000) }
    ensures load { command_of (codes "load" ∷ codes "1" ∷ codes "4" ∷ []) ≡ Some (Load 1 4) }
    ensures least { command_of (codes "load" ∷ codes "0" ∷ codes "0" ∷ []) ≡ Some (Load 0 0) }
    ensures most { command_of (codes "load" ∷ codes "4294967295" ∷ codes "1000000" ∷ []) ≡ Some (Load 4294967295 1000000) }
{}

/// These aren't.
pub fn words_are_refused()
    ensures none { command_of [] ≡ None }
    ensures help { command_of (codes "--help" ∷ []) ≡ None }
    ensures help_word { command_of (codes "help" ∷ []) ≡ None }
    ensures other { command_of (codes "reply" ∷ []) ≡ None }
    ensures one_more { command_of (codes "replay" ∷ codes "now" ∷ []) ≡ None }
    ensures convert_to_a_version { command_of (codes "convert" ∷ codes "2" ∷ []) ≡ None }
    ensures audit_of_a_file { command_of (codes "audit" ∷ codes "run.transcript" ∷ []) ≡ None }
    ensures no_answers { command_of (codes "serve" ∷ codes "p" ∷ []) ≡ None }
    ensures zero_answers { command_of (codes "serve" ∷ codes "p" ∷ codes "0" ∷ []) ≡ None }
    ensures large_answers { command_of (codes "serve" ∷ codes "p" ∷ codes "1000000001" ∷ []) ≡ None }
    ensures empty_path { command_of (codes "serve" ∷ [] ∷ codes "3" ∷ []) ≡ None }
    ensures option_for_path { command_of (codes "serve" ∷ codes "-p" ∷ codes "3" ∷ []) ≡ None }
    ensures word_after_answers { command_of (codes "serve" ∷ codes "p" ∷ codes "3" ∷ codes "4" ∷ []) ≡ None }
    ensures no_count { command_of (codes "load" ∷ codes "1" ∷ []) ≡ None }
    ensures large_number { command_of (codes "load" ∷ codes "4294967296" ∷ codes "0" ∷ []) ≡ None }
    ensures large_count { command_of (codes "load" ∷ codes "1" ∷ codes "1000001" ∷ []) ≡ None }
    ensures no_number { command_of (codes "load" ∷ codes "x" ∷ codes "4" ∷ []) ≡ None }
{}
