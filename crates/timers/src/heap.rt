//! A heap of the times of one context, whose objects know their places in it. None comes before its parent: the parent of place k is place
//! (k - 1) / 2.
ghost use Rattle.std.specs.Prelude.{◌≡◌, ◌<◌, IsSome, length, vec_len, vec_capacity, slice_get, set};
ghost use Rattle.tree_specs.specs.Events.Pending.{comes_before as is_before};
ghost use Rattle.timers.specs.Heaped.{IsEarlyChild, IsFirstOfTwo, IsLateParent, IsNext, IsSettled, Places, Settles, Sifts, with_place};
ghost use Rattle.timers.specs.Heaps.{at_in, CanEnter, CanLeave, IsEntered, IsLeft, IsNoted, IsSameBeside};

use pool_arena::Arena;
use tree_specs::Due;

/// Where the time of an object stands: the number of its context, and the place in the heap of that context.
#[derive(Clone, Copy)]
pub(crate) struct Place {
    pub context: u64,
    pub at: usize,
}

/// The way that a time goes in the heap: to its parent's place and on, or to a child's.
#[derive(Clone, Copy)]
pub(crate) enum Way {
    Up,
    Down,
}

/// Whether a time comes before another one. At equal times the smaller number does.
fn comes_before(due: Due, other: Due) -> bool
    ensures { result ≡ is_before due other }
{
    due.time < other.time || (due.time == other.time && due.number < other.number)
}

/// Notes where the object with this number stands in the heap of its context. Nothing changes where it isn't held.
fn note(places: &mut Arena<Place>, x: u64, at: usize)
    ensures noted { IsNoted places.old.pairs places.new.pairs x at }
    ensures spare { places.new.spare ≡ places.old.spare }
{
    if let Some(place) = places.get_mut(x) {
        place.at = at;
    }
}

/// Puts a time at a place, in place of the one that was there.
fn put(dues: &mut Vec<Due>, places: &mut Arena<Place>, at: usize, due: Due)
    requires { at < length dues.old.items }
    ensures dues { dues.new.items ≡ set dues.old.items at due }
    ensures capacity { vec_capacity dues.new ≡ vec_capacity dues.old }
    ensures noted { IsNoted places.old.pairs places.new.pairs due.object.0 at }
    ensures spare { places.new.spare ≡ places.old.spare }
{
    dues[at] = due;
    note(places, due.object.0, at);
}

/// The parent of a place, where the one that is to go there comes before it.
fn late_parent(dues: &Vec<Due>, at: usize, due: Due) -> Option<usize>
    requires { at < length dues.now.items }
    ensures { IsLateParent (slice_get dues.now.items) at due result }
{
    if at == 0 {
        return None;
    }
    let parent = (at - 1) / 2;
    if comes_before(due, dues[parent]) {
        Some(parent)
    } else {
        None
    }
}

/// Of a place and the next one, the one whose time comes first.
fn first_of_two(dues: &Vec<Due>, left: usize) -> usize
    requires { left < length dues.now.items }
    ensures { IsFirstOfTwo (slice_get dues.now.items) left result }
{
    let right = left + 1;
    if right < dues.len() && comes_before(dues[right], dues[left]) {
        return right;
    }
    left
}

/// The child of a place that comes first, where it comes before the one that is to go there.
fn early_child(dues: &Vec<Due>, at: usize, due: Due) -> Option<usize>
    requires { at < length dues.now.items }
    ensures { IsEarlyChild (slice_get dues.now.items) at due result }
{
    if at >= dues.len() / 2 {
        return None;
    }
    let child = first_of_two(dues, 2 * at + 1);
    if comes_before(dues[child], due) {
        Some(child)
    } else {
        None
    }
}

/// The next place on the way, where the time there and the one that is to go to this place are out of order.
fn next_place(dues: &Vec<Due>, way: Way, at: usize, due: Due) -> Option<usize>
    requires { at < length dues.now.items }
    ensures { IsNext way (slice_get dues.now.items) at due result }
{
    match way {
        Way::Up => late_parent(dues, at, due),
        Way::Down => early_child(dues, at, due),
    }
}

/// Puts a time at a place or at one further on the way, where nothing is out of order but this time with those there.
pub(crate) fn sift(dues: &mut Vec<Due>, places: &mut Arena<Place>, way: Way, at: usize, due: Due)
    requires at { at < length dues.old.items }
    requires held { IsSome (at_in places.old.pairs due.context.0 due.object.0) }
    requires heap { Sifts way (slice_get (set dues.old.items at due)) at }
    requires places { Places (slice_get (set dues.old.items at due)) (with_place (at_in places.old.pairs due.context.0) due.object.0 at) }
    ensures settled { IsSettled (set dues.old.items at due) dues.new.items (at_in places.new.pairs due.context.0) }
    ensures beside { IsSameBeside places.old.pairs places.new.pairs due.context.0 }
    ensures capacity { vec_capacity dues.new ≡ vec_capacity dues.old }
    ensures spare { places.new.spare ≡ places.old.spare }
{
    match next_place(dues, way, at, due) {
        Some(next) => {
            let other = dues[next];
            put(dues, places, at, other);
            sift(dues, places, way, next, due);
        }
        None => put(dues, places, at, due),
    }
}

/// The way that a time has to go from a place where it may be out of order with its parent and with its children.
fn way_from(dues: &Vec<Due>, at: usize, due: Due) -> Way
    requires { at < length dues.now.items }
    ensures { Settles (slice_get (set dues.now.items at due)) at → Sifts result (slice_get (set dues.now.items at due)) at }
{
    if late_parent(dues, at, due).is_some() {
        Way::Up
    } else {
        Way::Down
    }
}

/// Puts a time at a place, or where it belongs above or below it.
fn settle(dues: &mut Vec<Due>, places: &mut Arena<Place>, at: usize, due: Due)
    requires at { at < length dues.old.items }
    requires held { IsSome (at_in places.old.pairs due.context.0 due.object.0) }
    requires heap { Settles (slice_get (set dues.old.items at due)) at }
    requires places { Places (slice_get (set dues.old.items at due)) (with_place (at_in places.old.pairs due.context.0) due.object.0 at) }
    ensures settled { IsSettled (set dues.old.items at due) dues.new.items (at_in places.new.pairs due.context.0) }
    ensures beside { IsSameBeside places.old.pairs places.new.pairs due.context.0 }
    ensures capacity { vec_capacity dues.new ≡ vec_capacity dues.old }
    ensures spare { places.new.spare ≡ places.old.spare }
{
    let way = way_from(dues, at, due);
    sift(dues, places, way, at, due);
}

/// Adds a time whose object isn't held.
pub(crate) fn enter(dues: &mut Vec<Due>, places: &mut Arena<Place>, due: Due)
    requires room { vec_len dues.old < vec_capacity dues.old }
    requires place { 0 < places.old.spare }
    requires can { CanEnter due dues.old.items places.old.pairs }
    ensures { IsEntered due dues.old.items dues.new.items places.old.pairs places.new.pairs }
{
    let at = dues.len();
    let context = due.context.0;
    places.add(due.object.0, Place { context, at });
    dues.push_reserved(due);
    sift(dues, places, Way::Up, at, due);
}

/// Takes out the time at a place, whose object isn't held any more. The last one comes to where it belongs.
pub(crate) fn take_out(dues: &mut Vec<Due>, places: &mut Arena<Place>, place: Place)
    requires { CanLeave place dues.old.items places.old.pairs }
    ensures left { IsLeft place dues.old.items dues.new.items places.old.pairs places.new.pairs }
    ensures capacity { vec_capacity dues.new ≡ vec_capacity dues.old }
    ensures spare { places.new.spare ≡ places.old.spare }
{
    let Some(last) = dues.pop() else {
        return;
    };
    if place.at < dues.len() {
        settle(dues, places, place.at, last);
    }
}
