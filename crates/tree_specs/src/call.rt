//! The calls: all that a caller, be it the program or a routine, may ask of a host.
use crate::name::Name;
use crate::object::{Obj, Owner};
use crate::octets::Octets;

/// A call on the tree. Each has one text, its verb and its fields with single spaces between them.
#[derive(Drop)]
pub enum Call {
    /// `new P SIZE NAME`: a plain object below an owner, its size in bytes. The reply is its number.
    New {
        owner: Owner,
        size: u64,
        name: Name,
    },
    /// `free X`: frees the object and all that is below it, as `talloc_free` does.
    Free {
        x: Obj,
    },
    /// `freekids X`: frees all that is below the object, as `talloc_free_children` does.
    Freekids {
        x: Obj,
    },
    /// `steal P X`: puts the object below another owner, as `talloc_steal` does.
    Steal {
        owner: Owner,
        x: Obj,
    },
    /// `move P X`: puts the object below another owner, and replies with the object, as `talloc_move` does.
    Move {
        owner: Owner,
        x: Obj,
    },
    /// `reparent OLD NEW X`: puts the object below `to` where `from` is its owner, as `talloc_reparent` does; or, where
    /// `from` owns references to it, puts the newest of these below `to`.
    Reparent {
        from: Owner,
        to: Owner,
        x: Obj,
    },
    /// `reference P X`: a reference to a plain object, or to a request, below an owner, as `talloc_reference` makes it.
    /// The reply is its number.
    Reference {
        owner: Owner,
        x: Obj,
    },
    /// `unlink P X`: takes the owner's interest in the object away, as `talloc_unlink` does: its newest reference, or
    /// its owning it.
    Unlink {
        owner: Owner,
        x: Obj,
    },
    /// `hook X R`: gives the object a destructor, the routine from 1 upwards, as `talloc_set_destructor` does.
    Hook {
        x: Obj,
        routine: u32,
    },
    /// `unhook X`: takes its destructor away.
    Unhook {
        x: Obj,
    },
    /// `rename X NAME`: gives the object another name, as `talloc_set_name` does.
    Rename {
        x: Obj,
        name: Name,
    },
    /// `resize X SIZE`: gives the object another size in bytes, as `talloc_realloc_size` does.
    Resize {
        x: Obj,
        size: u64,
    },
    /// `limit X MAX`: what is inside the object may count so many bytes together, as `talloc_set_memlimit` says; 0 is
    /// no limit.
    Limit {
        x: Obj,
        max: u64,
    },
    /// `parent X`: the number of its owner, as `talloc_parent` tells.
    Parent {
        x: Obj,
    },
    /// `total P`: the sizes of all objects inside the owner, in bytes, as `talloc_total_size` tells.
    Total {
        owner: Owner,
    },
    /// `count P`: how many objects are inside the owner, as `talloc_total_blocks` tells; the root isn't one.
    Count {
        owner: Owner,
    },
    /// `sum P`: what the objects inside the owner count, in bytes: the size of each and 96 more, and nothing for a
    /// reference.
    Sum {
        owner: Owner,
    },
    /// `report P`: a row for the owner and for all that is below it, as `talloc_report` writes them.
    Report {
        owner: Owner,
    },
    /// `context P`: a context below an owner, as `tevent_context_init` makes it. The reply is its number.
    Context {
        owner: Owner,
    },
    /// `immediate P`: an event below an owner that can be made to come as soon as it can, as `tevent_create_immediate`
    /// makes it. The reply is its number.
    Immediate {
        owner: Owner,
    },
    /// `schedule X R U C`: the immediate comes as soon as it can in the context C, with the routine R and the user number
    /// U, as `tevent_schedule_immediate` says; it waits behind all that wait already. With 0 for R it doesn't come any
    /// more.
    Schedule {
        x: Obj,
        routine: u32,
        user: u64,
        context: Obj,
    },
    /// `unschedule X`: the immediate doesn't come any more.
    Unschedule {
        x: Obj,
    },
    /// `timer P TIME R U C`: an event below an owner that comes in a context at a time in microseconds, from 0 to 2^62,
    /// with the routine R and the user number U, as `tevent_add_timer` makes it. The reply is its number.
    Timer {
        owner: Owner,
        time: u64,
        routine: u32,
        user: u64,
        context: Obj,
    },
    /// `fd P FD F R U C`: an event below an owner that comes in a context when the descriptor FD is ready for what the
    /// flags F say, with the routine R and the user number U, as `tevent_add_fd` makes it: 1 is for reading, 2 for
    /// writing, 3 for both, and 0 for neither. The reply is its number.
    Fd {
        owner: Owner,
        fd: u32,
        flags: u32,
        routine: u32,
        user: u64,
        context: Obj,
    },
    /// `flags X F`: the descriptor's event X waits for these flags from now on, as `tevent_fd_set_flags` says.
    Flags {
        x: Obj,
        flags: u32,
    },
    /// `getflags X`: what it waits for, as `tevent_fd_get_flags` tells.
    Getflags {
        x: Obj,
    },
    /// `autoclose X`: its descriptor is closed when the event goes, as `tevent_fd_set_auto_close` says.
    Autoclose {
        x: Obj,
    },
    /// `close FD`: closes a descriptor on which there is no event.
    Close {
        fd: u32,
    },
    /// `accept FD`: asks who connects to the listener of a descriptor. The reply is the descriptor that was accepted,
    /// or `again` or `fault`.
    Accept {
        fd: u32,
    },
    /// `read FD LEN`: asks for bytes from a descriptor, from 1 to 65,536 at most. The reply is the bytes, or `end`,
    /// `again` or `fault`.
    Read {
        fd: u32,
        len: u32,
    },
    /// `write FD HEX`: asks a descriptor to take bytes. The reply is how many it took, or `again` or `fault`.
    Write {
        fd: u32,
        bytes: Octets,
    },
    /// `req P SIZE NAME`: a request below an owner, in progress, and below it a plain object of this size in bytes and
    /// with this name for its own state, as `tevent_req_create` makes them. The reply is the request's number; that of
    /// the plain object is the next one.
    Req {
        owner: Owner,
        size: u64,
        name: Name,
    },
    /// `callback X R U`: when the request is over the routine R runs with the user number U, as
    /// `tevent_req_set_callback` says. With 0 for R none does.
    Callback {
        x: Obj,
        routine: u32,
        user: u64,
    },
    /// `defer X C`: when the request is over it comes soon in the context C, and its callback runs only then, as
    /// `tevent_req_defer_callback` says.
    Defer {
        x: Obj,
        context: Obj,
    },
    /// `cleanup X R`: each time that the request goes to a later state the routine R runs, as
    /// `tevent_req_set_cleanup_fn` says. With 0 for R none does.
    Cleanup {
        x: Obj,
        routine: u32,
    },
    /// `setcancel X R`: the routine R cancels the request, as `tevent_req_set_cancel_fn` says. With 0 for R none does.
    Setcancel {
        x: Obj,
        routine: u32,
    },
    /// `cancel X`: runs the routine that cancels the request, as `tevent_req_cancel` does. The reply is 0 where this
    /// returns 0 or there is none, and else 1.
    Cancel {
        x: Obj,
    },
    /// `post X C`: a request that is over comes soon in the context C, as `tevent_req_post` says.
    Post {
        x: Obj,
        context: Obj,
    },
    /// `done X`: the work of the request is done, as `tevent_req_done` says.
    Done {
        x: Obj,
    },
    /// `error X N`: the work of the request has failed with this number, as `tevent_req_error` says. The reply is 1;
    /// with 0 it hasn't failed, and the reply is 0.
    Error {
        x: Obj,
        error: u64,
    },
    /// `oom X`: there was no memory for the work of the request, as `tevent_req_oom` says.
    Oom {
        x: Obj,
    },
    /// `iserror X`: 0 where the request is done, and else the number of its state and that of its failure, as
    /// `tevent_req_is_error` tells.
    Iserror {
        x: Obj,
    },
    /// `progress X`: 1 where the request is in progress, and else 0, as `tevent_req_is_in_progress` tells.
    Progress {
        x: Obj,
    },
    /// `endtime X TIME C`: the request times out at a time in microseconds, from 0 to 2^62, in the context C, where it
    /// still is in progress then, as `tevent_req_set_endtime` says.
    Endtime {
        x: Obj,
        time: u64,
        context: Obj,
    },
    /// `received X`: what came of the request was taken, as `tevent_req_received` says: the object that it was made
    /// with is freed, and no state comes after this.
    Received {
        x: Obj,
    },
    /// `queue P NAME`: a queue of requests below an owner, which runs, as `tevent_queue_create` makes it. The reply is
    /// its number.
    Queue {
        owner: Owner,
        name: Name,
    },
    /// `enqueue Q X R U C`: the request X waits in the queue Q for its turn in the context C, behind all others, and then
    /// the routine R runs for it with the user number U, as `tevent_queue_add_entry` says. The reply is the number of its
    /// entry, an object below the request that leaves the queue when it is freed.
    Enqueue {
        queue: Obj,
        x: Obj,
        routine: u32,
        user: u64,
        context: Obj,
    },
    /// `start Q`: the queue runs from now on, as `tevent_queue_start` says.
    Start {
        queue: Obj,
    },
    /// `stop Q`: the queue doesn't run any more, as `tevent_queue_stop` says. Its entries keep their places.
    Stop {
        queue: Obj,
    },
    /// `length Q`: how many entries the queue has, as `tevent_queue_length` tells.
    Length {
        queue: Obj,
    },
    /// `running Q`: 1 where the queue runs, and else 0, as `tevent_queue_running` tells.
    Running {
        queue: Obj,
    },
    /// `pending C`: how many events wait in a context: immediates and requests that come soon, timers and end times of
    /// requests, and events on descriptors.
    Pending {
        context: Obj,
    },
    /// `now`: the time in microseconds, as `tevent_timeval_current` tells. The host asks the clock.
    Now,
    /// `turn C`: one turn of a context, as `tevent_loop_once` takes it: the first event that has come in it runs. The
    /// reply is 1, or 0 where none has come.
    Turn {
        context: Obj,
    },
}
