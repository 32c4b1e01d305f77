//! The memory for one more of what a call may add, taken where it isn't there yet.
ghost use Rattle.std.specs.Prelude.{◌≡◌, ◌<◌, ◌≤◌, true, OnOk};
ghost use Rattle.object_pool.specs.Objects.{MayWait};
ghost use Rattle.object_pool.specs.Upcoming.{KeepsPlaces, KeepsContexts};

use crate::events::Events;
use memory_limits::Sums;
use references::Refs;
use tree_specs::Memory;

/// Takes the memory for one more reference, where it isn't there yet.
pub fn want_reference(is_there: bool, refs: &mut Refs) -> Result<(), Memory>
    requires { is_there ≡ true → 0 < refs.old.spare }
    ensures pairs { refs.new.pairs ≡ refs.old.pairs }
    ensures spare { OnOk result (0 < refs.new.spare) }
    ensures kept { refs.old.spare ≤ refs.new.spare }
{
    if is_there { Ok(()) } else { refs.reserve(1) }
}

/// Takes the memory for one more limit, where it isn't there yet.
pub fn want_limit(is_there: bool, sums: &mut Sums) -> Result<(), Memory>
    requires { is_there ≡ true → 0 < sums.old.spare }
    ensures limits { sums.new.limited ≡ sums.old.limited }
    ensures spare { OnOk result (0 < sums.new.spare) }
    ensures kept { sums.old.spare ≤ sums.new.spare }
{
    if is_there { Ok(()) } else { sums.reserve(1) }
}

/// Takes the memory for one more context, where it isn't there yet.
pub fn want_context(is_there: bool, events: &mut Events) -> Result<(), Memory>
    requires { is_there ≡ true → 0 < events.old.contexts_spare }
    ensures upcoming { events.new.upcoming ≡ events.old.upcoming }
    ensures kept { KeepsPlaces events.old events.new }
    ensures contexts { KeepsContexts events.old events.new }
    ensures spare { OnOk result (0 < events.new.contexts_spare) }
{
    if is_there {
        Ok(())
    } else {
        events.reserve_context()
    }
}

/// Takes the memory for one more object that waits for an event, with what it waits for, where it isn't there yet.
pub fn want_event(is_there: bool, events: &mut Events) -> Result<(), Memory>
    requires { is_there ≡ true → MayWait events.old }
    ensures upcoming { events.new.upcoming ≡ events.old.upcoming }
    ensures kept { KeepsPlaces events.old events.new }
    ensures contexts { KeepsContexts events.old events.new }
    ensures waits { OnOk result (MayWait events.new) }
{
    if is_there { Ok(()) } else { events.reserve() }
}
