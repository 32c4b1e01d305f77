//! Worked examples, computed from the definitions: each is the clause of a function that does nothing.
#![tactic(auto)]

ghost use Rattle.std.specs.Prelude.{◌≡◌, true, Some, [], ◌∷◌, map};
ghost use Rattle.tree_specs.specs.declared.schedule.Reason.TheVariants.{Form, NotAsked, Token};
ghost use Rattle.service_rules.specs.Service.{service_story};
ghost use Rattle.service_rules.specs.Examples.{backlog, called, drained, drained_told, flaw_of, flooded, formless, inputs_in, is_balanced, lines_sent, reply_to, taken_twice, told_by, two_connections, unasked, wanted_of};

/// Two connections send lines, cut anywhere, and one of them leaves an object whose destructor refuses.
pub fn two_connections_are_served()
    ensures told { told_by two_connections ≡ wanted_of two_connections }
    ensures bytes { is_balanced (inputs_in two_connections) ≡ true }
{}

/// What a fresh connection sends, and what it is replied.
pub fn lines_are_replied_to()
    ensures { map (λ sent. reply_to sent.bytes) lines_sent ≡ map (λ sent. Some sent.reply) lines_sent }
{}

/// One who takes no replies is read from no more, until some are written.
pub fn unsent_bytes_hold_up_reading()
    ensures told { service_story drained ≡ drained_told }
    ensures held { backlog flooded ≡ (2, 86016) ∷ [] }
    ensures free { backlog drained ≡ (3, 20480) ∷ [] }
    ensures bytes { is_balanced drained ≡ true }
{}

/// The first refused line of a schedule of the service.
pub fn the_first_refused_line_is_found()
    ensures called { flaw_of called ≡ Some (2, NotAsked) }
    ensures unasked { flaw_of unasked ≡ Some (3, NotAsked) }
    ensures token { flaw_of taken_twice ≡ Some (5, Token) }
    ensures form { flaw_of formless ≡ Some (3, Form) }
{}
