//! The first event of the rotation that comes. The oldest ones are looked at first, as many as there are descriptors
//! that are ready; where none of these comes, the first one is found from the descriptors.
ghost use Rattle.std.specs.Prelude.{◌≡◌, true};
ghost use Rattle.std.specs.Option.{option_map};
ghost use Rattle.tree_specs.specs.Words.Wants.{rises};
ghost use Rattle.tree_specs.specs.Events.Rotation.{first_ready, ring_in};
ghost use Rattle.fd_events.specs.Rotation.{ready_event};
ghost use Rattle.fd_events.specs.Picking.{IsWalked, met};

use crate::ready::{ReadyEvent, ready_for};
use crate::ring::{Place, Ring};
use tree_specs::{Obj, Want, Wants};

/// At least so many events are looked at before the descriptors, however few of these are ready.
const A_FEW: usize = 8;

/// What a walk over the rotation tells.
#[derive(Clone, Copy)]
enum Walked {
    /// It met the first event that comes.
    Met(ReadyEvent),
    /// It passed all of them, and none comes.
    Ended,
    /// It stopped before, and none of those that it passed comes.
    Stopped,
}

impl Walked {
    /// The event that it met.
    fn met(self) -> Option<ReadyEvent>
        ensures { result ≡ met self }
    {
        match self {
            Walked::Met(event) => Some(event),
            Walked::Ended | Walked::Stopped => None,
        }
    }
}

impl Ring {
    /// Looks at so many events of this context at most, the oldest first, until one comes.
    fn walk(&self, c: Obj, ready: &[Want], steps: usize) -> Walked
        requires { rises ready.now ≡ true }
        ensures { IsWalked (ring_in self.now.watches c) ready.now steps result }
    {
        let mut at = self.oldest(c);
        for _ in 0..steps {
            let Some(x) = at else {
                return Walked::Ended;
            };
            let Some(Place { watch, next }) = self.place(c, x) else {
                return Walked::Ended;
            };
            if let Some(event) = ReadyEvent::of(watch, ready_for(ready, watch.fd)) {
                return Walked::Met(event);
            }
            at = next;
        }
        if at.is_some() {
            Walked::Stopped
        } else {
            Walked::Ended
        }
    }

    /// The first event of this context that is watched for something that its descriptor is ready for, and what that
    /// is. None exactly where there is none. It takes the time of the descriptors that are ready, times the logarithm of
    /// how many they are, however many events aren't. (Once 2 ^ 64 - 1 events have been added or put behind all others,
    /// it takes the time of the events that it passes.)
    pub fn first_ready(&self, c: Obj, ready: &Wants) -> Option<ReadyEvent>
        ensures { result ≡ option_map ready_event (first_ready (ring_in self.now.watches c) ready.now) }
    {
        let ready = ready.as_slice();
        if !self.lane.has_stamps_left() {
            return self.walk(c, ready, self.len(c)).met();
        }
        match self.walk(c, ready, ready.len().max(A_FEW)) {
            Walked::Stopped => self.lane.first_coming(&self.holders, c, ready),
            walked => walked.met(),
        }
    }
}
