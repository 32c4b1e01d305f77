//! Worked examples, computed from the definitions: each is the clause of a function that does nothing.
ghost use Rattle.std.specs.Prelude.{◌≡◌, [], codes, map};
ghost use Rattle.audit_rules.specs.Flaws.{verdict};
ghost use Rattle.audit_rules.specs.Flaws.Verdict.{Broken};
ghost use Rattle.audit_rules.specs.Examples.{broken_rules, formless_lines, orderly, said_of, wanted_of};

/// Transcripts of orderly stories have no flaw, and their lines are counted.
pub fn orderly_transcripts_have_no_flaw()
    ensures { map said_of orderly ≡ map wanted_of orderly }
{}

/// The first line that breaks a rule is found, and the least rule that it breaks.
pub fn the_first_broken_rule_is_found()
    ensures { map said_of broken_rules ≡ map wanted_of broken_rules }
{}

/// The first line that no transcript has there is found.
pub fn the_first_formless_line_is_found()
    ensures lines { map said_of formless_lines ≡ map wanted_of formless_lines }
    ensures empty { verdict [] ≡ Broken 1 0 }
    ensures header { verdict (codes "tv transcript 2\nend quiet\n") ≡ Broken 1 0 }
{}
