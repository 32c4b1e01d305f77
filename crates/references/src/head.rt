//! What is kept of an object that has references: the newest of them, and how many there are.
ghost use Rattle.std.specs.Prelude.{◌≡◌, ◌≤◌, ◌+◌, ◌<◌, ◌-◌, ◌^◌, ℕ, Option, Some, None, cond, nat_eq};
ghost use Rattle.std.specs.Option.{option_map, option_and_then};
ghost use Rattle.pool_arena.specs.Arena.{get};
ghost use Rattle.references.specs.declared.head.Head.{Head as HeadData};
ghost use Rattle.references.specs.Linked.{newest_of, count_of, joined, left, shortened};

use linked_lanes::Sides;
use pool_arena::Arena;

/// The references to one object, of which there is at least one: the newest, and how many there are.
#[derive(Clone, Copy)]
pub(crate) struct Head {
    pub newest: u64,
    pub count: u32,
}

/// The newest of the references to an object. None exactly where there is none.
pub(crate) fn newest(head: Option<Head>) -> Option<u64>
    ensures { result ≡ option_map newest_of head }
{
    match head {
        None => None,
        Some(head) => Some(head.newest),
    }
}

/// How many references there are to an object.
pub(crate) fn count(head: Option<Head>) -> u32
    ensures { result ≡ count_of head }
{
    match head {
        None => 0,
        Some(head) => head.count,
    }
}

/// Adds a reference to those to its target as the newest, and gives the one that was the newest. None exactly where
/// there was none. There is room for it.
pub(crate) fn join(heads: &mut Arena<Head>, target: u64, reference: u64) -> Option<u64>
    requires room { 0 < heads.old.spare }
    requires few { (h : HeadData) → get heads.old target ≡ Some h → h.count < 2 ^ 32 - 1 }
    ensures older { result ≡ option_map newest_of (get heads.old target) }
    ensures heads { (q : ℕ) → get heads.new q ≡ cond (nat_eq target q) (Some (joined reference (get heads.old target))) (get heads.old q) }
    ensures spare { heads.old.spare ≤ heads.new.spare + 1 }
{
    match heads.get_mut(target) {
        Some(head) => {
            let older = head.newest;
            *head = Head {
                newest: reference,
                count: head.count + 1,
            };
            Some(older)
        }
        None => {
            heads.add(
                target,
                Head {
                    newest: reference,
                    count: 1,
                },
            );
            None
        }
    }
}

/// Takes a reference with these neighbours out of those to its target.
pub(crate) fn leave(heads: &mut Arena<Head>, target: u64, sides: Sides)
    requires { (h : HeadData) → get heads.old target ≡ Some h → 0 < h.count }
    ensures heads { (q : ℕ) → get heads.new q ≡ cond (nat_eq target q) (option_and_then (left sides) (get heads.old target)) (get heads.old q) }
    ensures spare { heads.old.spare ≤ heads.new.spare }
{
    match (sides.newer, sides.older) {
        (None, None) => forget(heads, target),
        (None, Some(older)) => shorten(heads, target, Some(older)),
        (Some(_), _) => shorten(heads, target, None),
    }
}

/// Forgets an object whose only reference has left.
fn forget(heads: &mut Arena<Head>, target: u64)
    ensures heads { (q : ℕ) → get heads.new q ≡ cond (nat_eq target q) None (get heads.old q) }
    ensures spare { heads.old.spare ≤ heads.new.spare }
{
    let _head = heads.take(target);
}

/// Counts that one of several references has left. `newest` is the newest from then on, where that is another one than
/// before.
fn shorten(heads: &mut Arena<Head>, target: u64, newest: Option<u64>)
    requires { (h : HeadData) → get heads.old target ≡ Some h → 0 < h.count }
    ensures heads { (q : ℕ) → get heads.new q ≡ cond (nat_eq target q) (option_map (shortened newest) (get heads.old target)) (get heads.old q) }
    ensures spare { heads.old.spare ≤ heads.new.spare }
{
    if let Some(head) = heads.get_mut(target) {
        *head = Head {
            newest: newest.unwrap_or(head.newest),
            count: head.count - 1,
        };
    }
}
