//! The rules of orderly stories, by what was told of one object.
ghost use Rattle.std.specs.Prelude.{◌≡◌};
ghost use Rattle.transcript_audit.specs.Kept.{three_where, broken_judged, broken_freed, broken_state, is_refusal, refusal_after};

use crate::seen::Seen;
use transcript_lines::Fact;
use tree_specs::Obj;

/// Rule 3, where something comes of an object that is no more.
pub(crate) fn three_where(is_late: bool) -> Option<u32>
    ensures { result ≡ three_where is_late }
{
    if is_late { Some(3) } else { None }
}

/// The rule that is broken where a destructor is asked or has returned.
pub(crate) fn broken_judged(seen: Seen) -> Option<u32>
    ensures { result ≡ broken_judged seen }
{
    if seen.accepted {
        Some(1)
    } else {
        three_where(seen.freed)
    }
}

/// The rule that is broken where an object with this destructor is no more.
pub(crate) fn broken_freed(seen: Seen, hook: u32) -> Option<u32>
    ensures { result ≡ broken_freed seen hook }
{
    let wrongly = if seen.accepted { hook == 0 } else { hook != 0 };
    if seen.freed || wrongly { Some(2) } else { None }
}

/// The rule that is broken where a request is in this state.
pub(crate) fn broken_state(seen: Seen, state: u32) -> Option<u32>
    ensures { result ≡ broken_state seen state }
{
    if seen.freed {
        return Some(3);
    }
    let none = state < 2 || 6 < state;
    if none || seen.received || (state < 6 && seen.over) {
        Some(5)
    } else {
        None
    }
}

/// Whether this is what a destructor returned last.
pub(crate) fn is_refusal(refused: Option<(Obj, u32)>, x: Obj, answer: u32) -> bool
    ensures { result ≡ is_refusal refused x answer }
{
    match refused {
        Some((y, told)) => y.0 == x.0 && told == answer,
        None => false,
    }
}

/// What a destructor has returned, where this comes.
pub(crate) fn refusal_after(fact: Fact) -> Option<(Obj, u32)>
    ensures { result ≡ refusal_after fact }
{
    match fact {
        Fact::Refuses(x, answer) => Some((x, answer)),
        _ => None,
    }
}
