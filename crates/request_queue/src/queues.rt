//! `Queues`: which queues there are, whether each runs, and its entries in the order in which they came. An entry, and
//! the first one of a queue, are found in the same time however many there are.
//!
//! Contracts see the queues and the entries by their numbers (`Register`), and for how many more there is memory
//! (`spare`). Nothing runs here: a call says whether its queue is to come soon, and `trigger` gives what runs then.
//!
//! Read on in `line.rt`, which has the ends of each queue, and in `node.rt`, which has its entries.
ghost use Rattle.std.specs.Prelude.{◌≡◌};
ghost use Rattle.std.specs.Option.{option_map};
ghost use Rattle.pool_arena.specs.Arena.{get};
ghost use Rattle.request_queue.specs.Linked.{numbered, next_in as next_number};

use crate::line::{Line, join, leave, length, newest, oldest, running, set_running};
use crate::node::{Node, begin, set_link, waiting};
use linked_lanes::{Link, Sides};
use pool_arena::Arena;
use std::alloc::Global;
use std::marker::Model;
use tree_specs::{Coming, Handler, Memory, Obj, QueueEntry};

/// All queues, and the entries in them, each found in the same time however many there are. Contracts see them by their
/// numbers, and spare: so many queues and so many entries can be added without taking memory. Only `reserve` takes
/// memory.
#[derive(Drop)]
pub struct Queues {
    /// Under the numbers of the queues.
    lines: Arena<Line>,
    /// Under the numbers of the entries.
    nodes: Arena<Node>,
}

impl Model for Queues {
    ghost use Rattle.std.specs.Prelude.{min};
    ghost use Rattle.request_queue.specs.Register.{Register};
    ghost use Rattle.request_queue.specs.Linked.{queues_in, IsLinked};

    ghost Value = { Register };

    ghost view = { λ r. record { queues = queues_in r.lines.pairs r.nodes.pairs; spare = min r.lines.spare r.nodes.spare } };

    ghost invariant = { λ r. IsLinked r.lines.pairs r.nodes.pairs };
}

/// An entry's turn: what runs, and for which request.
#[derive(Clone, Copy, Debug, PartialEq, Eq)]
pub struct Turn {
    pub request: Obj,
    pub trigger: Handler,
}

/// The object of this number, where there is one.
fn obj(number: Option<u64>) -> Option<Obj>
    ensures { result ≡ option_map numbered number }
{
    match number {
        None => None,
        Some(n) => Some(Obj(n)),
    }
}

/// The first entry of a queue that runs, where its trigger hasn't begun.
fn next_in(lines: &Arena<Line>, nodes: &Arena<Node>, queue: u64) -> Option<u64>
    ensures { result ≡ next_number (get nodes.now) (get lines.now queue) }
{
    match lines.get(queue) {
        None => None,
        Some(line) => {
            if line.running {
                waiting(nodes, line.oldest)
            } else {
                None
            }
        }
    }
}

impl Queues {
    ghost use Rattle.std.specs.Prelude.{◌+◌, ◌<◌, ◌≤◌, OnOk, Bool, None, true, false, is_some, length};
    ghost use Rattle.tree_specs.specs.Events.Queues.{no_queues, running_of, has_queue, with_queue, run_as, without_queue, entry_of, with_entry, without_entry, new_entry, length_of, head_of, has_entries, next_of};
    ghost use Rattle.request_queue.specs.Linked.{queue_of};
    ghost use Rattle.request_queue.specs.Register.{AreInOrder, IsAbove, coming_of, looked_for, starts_next, started, object_of, turn_of, triggered_by};

    /// No queues.
    pub fn new(alloc: Global) -> Queues
        ensures { result.queues ≡ no_queues }
    {
        Queues {
            lines: Arena::new(alloc),
            nodes: Arena::new(alloc),
        }
    }

    /// Takes memory for so many more queues, and for so many more entries. If memory runs out, they are as they were.
    pub fn reserve(&mut self, more: usize) -> Result<(), Memory>
        ensures queues { self.new.queues ≡ self.old.queues }
        ensures spare { OnOk result (more ≤ self.new.spare) }
        ensures kept { self.old.spare ≤ self.new.spare }
    {
        self.lines.reserve(more)?;
        self.nodes.reserve(more)?;
        Ok(())
    }

    /// Adds a queue, which runs (`tevent_queue_create`).
    pub fn add_queue(&mut self, q: Obj)
        requires new { running_of self.old.queues q ≡ None }
        requires room { 0 < self.old.spare }
        ensures queues { self.new.queues ≡ with_queue self.old.queues q true }
        ensures spare { self.old.spare ≤ self.new.spare + 1 }
    {
        self.lines.add(
            q.0,
            Line {
                running: true,
                newest: None,
                oldest: None,
                length: 0,
            },
        );
    }

    /// Adds an entry to a queue, behind all others (`tevent_queue_add_entry`); its number is above those of all
    /// entries. Answers the queue with the context of its first entry, where it runs and this entry waits for its trigger,
    /// so that the queue is to come soon.
    pub fn add_entry(&mut self, q: Obj, e: Obj, request: Obj, trigger: Handler) -> Option<Coming>
        requires queue { has_queue self.old.queues q ≡ true }
        requires newest { IsAbove e self.old.queues.entries }
        requires room { 0 < self.old.spare }
        ensures result { result ≡ coming_of self.new.queues q }
        ensures queues { self.new.queues ≡ with_entry self.old.queues e (new_entry q request trigger) }
        ensures spare { self.old.spare ≤ self.new.spare + 1 }
    {
        let entry = QueueEntry {
            queue: q,
            request,
            trigger,
            triggered: false,
        };
        self.put_in(e, entry);
        self.coming(q)
    }

    /// Puts a new entry into its queue, behind all others.
    fn put_in(&mut self, e: Obj, entry: QueueEntry)
        requires queue { has_queue self.old.queues entry.queue ≡ true }
        requires newest { IsAbove e self.old.queues.entries }
        requires room { 0 < self.old.spare }
        ensures queues { self.new.queues ≡ with_entry self.old.queues e entry }
        ensures spare { self.old.spare ≤ self.new.spare + 1 }
    {
        let older = newest(&self.lines, entry.queue.0);
        set_link(&mut self.nodes, older, Link::Newer(Some(e.0)));
        let sides = Sides { newer: None, older };
        self.nodes.add(e.0, Node { entry, sides });
        // Read for the prover: the contract of `len` says that the entries, and so those of the queue, can be counted.
        let _entries = self.nodes.len();
        join(&mut self.lines, entry.queue.0, e.0);
    }

    /// Takes an entry out of its queue, which is given. None exactly where it is no entry; nothing changes then.
    fn take_out(&mut self, e: Obj) -> Option<Obj>
        ensures result { result ≡ option_map queue_of (entry_of self.old.queues e) }
        ensures queues { self.new.queues ≡ without_entry self.old.queues e }
        ensures spare { self.old.spare ≤ self.new.spare }
    {
        let Node { entry, sides } = self.nodes.take(e.0)?;
        leave(&mut self.lines, entry.queue.0, sides);
        set_link(&mut self.nodes, sides.newer, Link::Older(sides.older));
        set_link(&mut self.nodes, sides.older, Link::Newer(sides.newer));
        Some(entry.queue)
    }

    /// Takes an entry out of its queue. Nothing changes where it is none. Answers the queue with the context of its first
    /// entry then, where it runs and this entry waits for its trigger, so that the queue is to come soon.
    pub fn remove_entry(&mut self, e: Obj) -> Option<Coming>
        ensures result { result ≡ looked_for self.new.queues (entry_of self.old.queues e) }
        ensures queues { self.new.queues ≡ without_entry self.old.queues e }
        ensures spare { self.old.spare ≤ self.new.spare }
    {
        let queue = self.take_out(e)?;
        self.coming(queue)
    }

    /// Sets whether a queue runs. Nothing changes where it is none.
    fn run(&mut self, q: Obj, running: bool)
        ensures queues { self.new.queues ≡ run_as self.old.queues q running }
        ensures spare { self.new.spare ≡ self.old.spare }
    {
        set_running(&mut self.lines, q.0, running);
    }

    /// Starts a queue (`tevent_queue_start`). Nothing changes where it runs already, or is none. Answers the queue with the
    /// context of its first entry, where it didn't run and this entry waits for its trigger, so that the queue is to come
    /// soon.
    pub fn start(&mut self, q: Obj) -> Option<Coming>
        ensures result { result ≡ starts_next self.old.queues q }
        ensures queues { self.new.queues ≡ started self.old.queues q }
        ensures spare { self.new.spare ≡ self.old.spare }
    {
        if self.running(q) == Some(true) {
            return None;
        }
        self.run(q, true);
        self.coming(q)
    }

    /// Stops a queue (`tevent_queue_stop`). Nothing changes where it is none.
    pub fn stop(&mut self, q: Obj)
        ensures queues { self.new.queues ≡ run_as self.old.queues q false }
        ensures spare { self.new.spare ≡ self.old.spare }
    {
        self.run(q, false);
    }

    /// The first entry of a queue. None exactly where it has none.
    pub fn head(&self, q: Obj) -> Option<Obj>
        ensures { result ≡ option_map object_of (head_of self.now.queues q) }
    {
        obj(oldest(&self.lines, q.0))
    }

    /// The first entry of a queue that runs, where its trigger hasn't begun. None exactly where there is no such entry.
    fn next(&self, q: Obj) -> Option<Obj>
        ensures next { result ≡ option_map object_of (next_of self.now.queues q) }
        ensures order { AreInOrder self.now.queues.entries }
    {
        obj(next_in(&self.lines, &self.nodes, q.0))
    }

    /// Whether a queue runs and its first entry waits for its trigger.
    pub fn waits(&self, q: Obj) -> bool
        ensures { result ≡ is_some (next_of self.now.queues q) }
    {
        self.next(q).is_some()
    }

    /// A queue with the context of its first entry, where the queue runs and this entry waits for its trigger. None exactly
    /// where there is no such entry.
    pub fn coming(&self, q: Obj) -> Option<Coming>
        ensures { result ≡ coming_of self.now.queues q }
    {
        let first = self.next(q)?;
        let entry = self.entry(first)?;
        Some(Coming {
            object: q,
            context: entry.trigger.context,
        })
    }

    /// Begins the trigger of a queue's first entry, where the queue runs and the trigger hasn't begun
    /// (`tevent_queue_trigger_fn_t`). None exactly where there is no such entry.
    pub fn trigger(&mut self, q: Obj) -> Option<Turn>
        ensures turn { result ≡ option_map turn_of (next_of self.old.queues q) }
        ensures queues { self.new.queues ≡ triggered_by (next_of self.old.queues q) self.old.queues }
        ensures many { length self.new.queues.entries ≡ length self.old.queues.entries }
        ensures spare { self.new.spare ≡ self.old.spare }
    {
        let first = self.next(q)?;
        begin(&mut self.nodes, first.0)
    }

    /// What is kept of an entry. None exactly where it is none, or has left its queue.
    pub fn entry(&self, e: Obj) -> Option<QueueEntry>
        ensures { result ≡ entry_of self.now.queues e }
    {
        match self.nodes.get(e.0) {
            None => None,
            Some(node) => Some(node.entry),
        }
    }

    /// How many queues there are.
    pub fn count(&self) -> usize
        ensures { result ≡ length self.now.queues.running }
    {
        self.lines.len()
    }

    /// How many entries there are in all queues.
    pub fn len(&self) -> usize
        ensures { result ≡ length self.now.queues.entries }
    {
        self.nodes.len()
    }

    /// How many entries a queue has (`tevent_queue_length`). It is 0 where it is none.
    pub fn length(&self, q: Obj) -> u64
        ensures { result ≡ length_of self.now.queues q }
    {
        length(&self.lines, q.0)
    }

    /// Whether a queue runs (`tevent_queue_running`). None exactly where it is none.
    pub fn running(&self, q: Obj) -> Option<bool>
        ensures { result ≡ running_of self.now.queues q }
    {
        running(&self.lines, q.0)
    }

    /// Forgets a queue, which has no entries. Nothing changes where it is none.
    pub fn forget_queue(&mut self, q: Obj)
        requires { has_entries self.old.queues q ≡ false }
        ensures queues { self.new.queues ≡ without_queue self.old.queues q }
        ensures spare { self.old.spare ≤ self.new.spare }
    {
        self.lines.take(q.0);
    }
}
