//! An event that comes, found by its descriptor, and the first of those that are found so. A stamp tells which of two
//! stands before the other in the rotation.
ghost use Rattle.std.specs.Prelude.{◌≡◌, List, true};
ghost use Rattle.tree_specs.specs.declared.object.Obj.{Obj as ObjData};
ghost use Rattle.tree_specs.specs.declared.watch.Watch.{Watch};
ghost use Rattle.tree_specs.specs.Words.Wants.{rises};
ghost use Rattle.tree_specs.specs.Events.Rotation.{ring_in};
ghost use Rattle.fd_events.specs.Linked.{HasStampsLeft, IsKept};
ghost use Rattle.fd_events.specs.Picking.{coming_for, first_event, sooner as sooner_of};

use crate::lane::Lane;
use crate::ready::ReadyEvent;
use pool_arena::Arena;
use tree_specs::{Obj, Want};

/// An event that comes, and its stamp.
#[derive(Clone, Copy)]
struct Coming {
    stamp: u64,
    event: ReadyEvent,
}

/// The one of two that stands before the other. Where one is given alone, it is that one.
fn sooner(first: Option<Coming>, second: Option<Coming>) -> Option<Coming>
    ensures { result ≡ sooner_of first second }
{
    match (first, second) {
        (Some(one), Some(other)) if other.stamp < one.stamp => second,
        _ => first.or(second),
    }
}

impl Lane {
    /// The event of this context that watches this descriptor, if it comes. `holders` has the event of each descriptor.
    fn coming(&self, holders: &Arena<u64>, c: Obj, want: Want) -> Option<Coming>
        ensures { result ≡ coming_for self.now.nodes.pairs holders.now.pairs c want }
    {
        let x = *holders.get(u64::from(want.fd))?;
        let node = self.node(x)?;
        if !node.is_in(c) {
            return None;
        }
        let event = ReadyEvent::of(node.watch(Obj(x)), want.flags)?;
        Some(Coming {
            stamp: node.stamp,
            event,
        })
    }

    /// The first event of this context that comes. It takes the time of the descriptors that are ready, however many
    /// events aren't.
    pub(crate) fn first_coming(
        &self,
        holders: &Arena<u64>,
        c: Obj,
        ready: &[Want],
    ) -> Option<ReadyEvent>
        requires stamps { HasStampsLeft self.now }
        requires rises { rises ready.now ≡ true }
        ensures { (ws : List Watch) (cs : List ObjData) → IsKept self.now holders.now.pairs ws cs → result ≡ first_event (ring_in ws c) ready.now }
    {
        let mut first = None;
        for want in ready {
            first = sooner(first, self.coming(holders, c, *want));
        }
        first.map(|coming| coming.event)
    }
}
