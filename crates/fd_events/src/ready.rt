//! Descriptors that are ready, and the events that come by them.
ghost use Rattle.std.specs.Prelude.{◌≡◌, true};
ghost use Rattle.tree_specs.specs.Words.Wants.{rises};
ghost use Rattle.tree_specs.specs.Events.Rotation.{ready_for as ready_for_in};
ghost use Rattle.fd_events.specs.Picking.{ready_by};

use tree_specs::{Obj, Want, Watch};

/// An event that comes, since its descriptor is ready.
#[derive(Clone, Copy, PartialEq, Eq)]
pub struct ReadyEvent {
    /// The event.
    pub object: Obj,
    /// What it is watched for and its descriptor is ready for: 1 for reading (`TEVENT_FD_READ`), 2 for writing
    /// (`TEVENT_FD_WRITE`), 3 for both.
    pub flags: u32,
}

impl ReadyEvent {
    /// The event that watches so, if it is watched for some of what its descriptor is `ready` for.
    pub(crate) fn of(watch: Watch, ready: u32) -> Option<ReadyEvent>
        ensures { result ≡ ready_by watch ready }
    {
        let flags = watch.flags & ready;
        if flags == 0 {
            return None;
        }
        Some(ReadyEvent {
            object: watch.object,
            flags,
        })
    }
}

/// What a descriptor is ready for, and 0 where it isn't named. The descriptors rise.
pub(crate) fn ready_for(list: &[Want], fd: u32) -> u32
    requires { rises list.now ≡ true }
    ensures { result ≡ ready_for_in list.now fd }
{
    let at = list.partition_point(|want| want.fd < fd);
    match list.get(at) {
        Some(want) if want.fd == fd => want.flags,
        _ => 0,
    }
}
