//! `ObjectPool`: all that a host keeps of its objects as one value: the tree, the references, the limits, what is to
//! come, and the open frees. Its invariant (`AgreeWith` in `specs/Agreeing`) says that these agree.
//!
//! Contracts see `Objects`: the pool of the rules, the works of the open frees, and whether the memory for one call is
//! taken. What a change does is one equation on these.
//!
//! Read on in `pool/`, where the methods stand by topic, in `events.rt` (what is to come), and in `counting.rt` (what
//! the limits are told of each change).
use crate::counting::{add_row, count_added, count_went};
use crate::events::Events;
use crate::places::{want_context, want_event, want_limit, want_reference};
use destructors::FreeEngine;
use memory_limits::Sums;
use references::{Refs, refer};
use std::alloc::Global;
use std::marker::Model;
use tree_links::Tree;
use tree_report::{count, rows, total};
use tree_specs::{Kind, Memory, Name, Obj, Owner, Refusal, ReportRows, Row};

mod freeing;
mod hosting;
mod queueing;
mod requesting;
mod turning;
mod waiting;
mod watching;

pub use freeing::Progress;

/// The objects: who owns whom, what refers to what, what their limits are, which of them are to come and what runs
/// then, and the frees that are open on them. Contracts see the pool, the works of the open frees, the innermost first,
/// and whether the memory for one call is taken. No change takes memory: what needs some requires that `reserve` has
/// taken it.
#[derive(Drop)]
pub struct ObjectPool {
    engine: FreeEngine,
    tree: Tree,
    refs: Refs,
    sums: Sums,
    events: Events,
    /// Whether the memory for one more reference is taken.
    reference: bool,
    /// Whether the memory for one more limit is taken.
    limit: bool,
    /// Whether the memory for one more event that is to come, one more descriptor, one more request, one more queue and
    /// one more entry is taken.
    event: bool,
    /// Whether the memory for one more context is taken.
    context: bool,
    /// Whether the memory for one call is taken.
    ready: bool,
}

impl Model for ObjectPool {
    ghost use Rattle.object_pool.specs.Objects.{Objects};

    ghost Value = { Objects };

    ghost use Rattle.object_pool.specs.Objects.{objects_of};
    ghost use Rattle.object_pool.specs.Agreeing.{AgreeWith};

    ghost view = { λ p. objects_of p.engine p.tree p.events.upcoming p.ready };

    ghost invariant = { AgreeWith };
}

impl ObjectPool {
    ghost use Rattle.std.specs.Prelude.{◌≡◌, ◌^◌, ◌-◌, ◌<◌, [], true, false, None, ◌&&◌, IfOk, OnOk, OnErr, length};
    ghost use Rattle.std.specs.Option.{option_copied};
    ghost use Rattle.tree_specs.specs.declared.object.Owner.TheVariants.{Of as At};
    ghost use Rattle.tree_specs.specs.Tree.Pool.{empty, row_of, is_row, is_owner, is_below, is_inside as is_inside_of, owner_of, newest_ref_of, add as added, place as placed, rename as renamed, set_hook as hooked, set_size as sized, set_limit as limited};
    ghost use Rattle.tree_specs.specs.Tree.Targets.{newest_ref, target_of, is_context};
    ghost use Rattle.tree_specs.specs.Calls.Plans.{refer as referred, reparented};
    ghost use Rattle.tree_specs.specs.Calls.Refusals.{checked, row_limit, size_limit, is_plain_row, fits as fitting};
    ghost use Rattle.tree_specs.specs.Tree.Sums.{size_at, sum_inside};
    ghost use Rattle.tree_specs.specs.Tree.Reports.{report, count_refs};
    ghost use Rattle.tree_specs.specs.Tree.Inside.{size_inside, count_inside};
    ghost use Rattle.tree_links.specs.Links.{MayPlace};
    ghost use Rattle.references.specs.Rows.{RefersTo};
    ghost use Rattle.object_pool.specs.Objects.{RefsMayGo};

    /// A pool with no objects, whose first one gets the number `first`. The listener's descriptor 0 is open, and no
    /// other.
    pub fn new(alloc: Global, first: u64) -> Result<ObjectPool, Memory>
        ensures { IfOk result (λ objects. objects ≡ record { pool = empty first; works = []; ready = false }) }
    {
        let events = Events::new(alloc)?;
        Ok(ObjectPool {
            engine: FreeEngine::new(),
            tree: Tree::new(alloc, first),
            refs: Refs::new(alloc),
            sums: Sums::new(alloc),
            events,
            reference: false,
            limit: false,
            event: false,
            context: false,
            ready: false,
        })
    }

    /// Takes the memory for one call, with all that comes of it up to the next question. Most calls find it there, as
    /// they add no object.
    #[inline(always)]
    pub fn reserve(&mut self) -> Result<(), Memory>
        ensures ok { OnOk result (self.new ≡ record self.old { ready = true }) }
        ensures err { OnErr result (self.new ≡ self.old) }
    {
        if self.ready {
            return Ok(());
        }
        self.take_memory()
    }

    /// Takes the memory for one call, which may not be there.
    #[inline(never)]
    fn take_memory(&mut self) -> Result<(), Memory>
        ensures ok { OnOk result (self.new ≡ record self.old { ready = true }) }
        ensures err { OnErr result (self.new ≡ self.old) }
    {
        want_reference(self.reference, &mut self.refs)?;
        self.reference = true;
        want_limit(self.limit, &mut self.sums)?;
        self.limit = true;
        want_event(self.event, &mut self.events)?;
        self.event = true;
        want_context(self.context, &mut self.events)?;
        self.context = true;
        self.tree.reserve(2)?;
        self.ready = true;
        Ok(())
    }

    /// Adds an object of a kind other than a reference or a context as the newest child of an owner, and gives its number.
    #[inline(always)]
    pub fn add(&mut self, kind: Kind, name: Name, size: u64, owner: Owner) -> Obj
        requires ready { self.old.ready ≡ true }
        requires object { target_of kind ≡ None }
        requires no_context { is_context kind ≡ false }
        requires few { length self.old.pool.rows < row_limit }
        requires small { size < size_limit }
        requires numbered { self.old.pool.next < 2 ^ 64 - 1 }
        requires owner { is_owner self.old.pool.rows owner ≡ true }
        ensures serial { result ≡ record { 0 = self.old.pool.next } }
        ensures added { self.new ≡ record self.old { pool = added self.old.pool kind owner size name; ready = false } }
    {
        self.ready = false;
        add_row(kind, name, size, owner, &mut self.tree, &mut self.sums)
    }

    /// Gives an owner a reference to an object. The reference is an object with a number of its own, which is given.
    pub fn refer(&mut self, target: Obj, owner: Owner) -> Obj
        requires ready { self.old.ready ≡ true }
        requires few { length self.old.pool.rows < row_limit }
        requires numbered { self.old.pool.next < 2 ^ 64 - 1 }
        requires owner { is_owner self.old.pool.rows owner ≡ true }
        ensures serial { result ≡ record { 0 = self.old.pool.next } }
        ensures referred { self.new ≡ record self.old { pool = referred self.old.pool owner target; ready = false } }
    {
        self.ready = false;
        self.reference = false;
        let serial = refer(target, owner, &mut self.tree, &mut self.refs);
        count_added(serial, &self.tree, &mut self.sums);
        serial
    }

    /// Puts an object below an owner, as its newest child.
    pub fn place(&mut self, x: Obj, owner: Owner)
        requires { MayPlace self.old.pool.rows x owner }
        ensures { self.new ≡ record self.old { pool = placed self.old.pool owner x } }
    {
        let from = self.tree.parent(x);
        self.tree.place(x, owner);
        count_went(x, from, &self.tree, &mut self.sums);
    }

    /// Gives an object from its owner to another one. An owner that only has references to it gives the newest of them.
    pub fn reparent(&mut self, from: Owner, to: Owner, x: Obj)
        requires itself { is_below (owner_of self.old.pool.rows x) from ≡ true → MayPlace self.old.pool.rows x to }
        requires reference { RefsMayGo self.old.pool.rows }
        requires there { is_owner self.old.pool.rows to ≡ true }
        ensures { self.new ≡ record self.old { pool = reparented self.old.pool from to x } }
    {
        if self.owns(from, x) {
            self.place(x, to);
        } else if let Some(reference) = self.newest_of(from, x) {
            self.place(reference, to);
        }
    }

    /// Sets the routine that is the destructor of an object; 0 is none.
    pub fn hook(&mut self, x: Obj, routine: u32)
        requires { is_row self.old.pool.rows x ≡ true }
        ensures { self.new ≡ record self.old { pool = hooked self.old.pool x routine } }
    {
        self.tree.set_hook(x, routine);
    }

    /// Gives an object another name.
    pub fn rename(&mut self, x: Obj, name: Name)
        requires { is_row self.old.pool.rows x ≡ true }
        ensures { self.new ≡ record self.old { pool = renamed self.old.pool x name } }
    {
        self.tree.set_name(x, name);
    }

    /// Gives a plain object another size, in bytes.
    pub fn resize(&mut self, x: Obj, size: u64)
        requires plain { is_plain_row (row_of self.old.pool.rows x) ≡ true }
        requires small { size < size_limit }
        ensures { self.new ≡ record self.old { pool = sized self.old.pool x size } }
    {
        let before = self.tree.size(x);
        self.tree.set_size(x, size);
        self.sums.resized(&self.tree, x, before);
    }

    /// Sets the limit of an object, in bytes, for what is inside it; 0 is none.
    pub fn limit(&mut self, x: Obj, max: u64)
        requires ready { self.old.ready ≡ true }
        requires is { is_row self.old.pool.rows x ≡ true }
        ensures { self.new ≡ record self.old { pool = limited self.old.pool x max; ready = false } }
    {
        self.ready = false;
        self.limit = false;
        self.tree.set_limit(x, max);
        self.sums.set_limit(&self.tree, x, max);
    }

    /// How many objects there are.
    pub fn len(&self) -> usize
        ensures { result ≡ length self.now.pool.rows }
    {
        self.tree.len()
    }

    /// The number that the next object gets.
    pub fn next_number(&self) -> u64
        ensures { result ≡ self.now.pool.next }
    {
        self.tree.next_number()
    }

    /// The row of an object. None exactly where there is none.
    #[inline(always)]
    pub fn row(&self, x: Obj) -> Option<&Row>
        ensures { option_copied result ≡ row_of self.now.pool.rows x }
    {
        self.tree.row(x)
    }

    /// The size of an object in bytes, and 0 where there is none.
    pub fn size(&self, x: Obj) -> u64
        ensures { result ≡ size_at self.now.pool.rows x }
    {
        self.tree.size(x)
    }

    /// The owner of an object. None exactly where it is no object, or has left its owner.
    pub fn parent(&self, x: Obj) -> Option<Owner>
        ensures { result ≡ owner_of self.now.pool.rows x }
    {
        self.tree.parent(x)
    }

    /// Whether an owner owns an object.
    #[inline(always)]
    pub fn owns(&self, owner: Owner, x: Obj) -> bool
        ensures { result ≡ is_below (owner_of self.now.pool.rows x) owner }
    {
        self.tree.owns(owner, x)
    }

    /// Whether an owner is another one, or inside it.
    pub fn is_inside(&self, from: Owner, to: Owner) -> bool
        ensures { result ≡ is_inside_of self.now.pool.rows from to }
    {
        self.tree.is_inside(from, to)
    }

    /// Whether an object is the owner, or inside it. False where it is no object.
    pub fn inside(&self, x: Obj, owner: Owner) -> bool
        ensures { result ≡ (is_row self.now.pool.rows x && is_inside_of self.now.pool.rows (At x) owner) }
    {
        self.tree.inside(x, owner)
    }

    /// The newest reference to an object. None exactly where there is none.
    pub fn newest(&self, target: Obj) -> Option<Obj>
        ensures { result ≡ newest_ref self.now.pool.rows target }
    {
        self.refs.newest(&self.tree, target)
    }

    /// The newest reference to an object that an owner has. None exactly where it has none.
    pub fn newest_of(&self, owner: Owner, target: Obj) -> Option<Obj>
        ensures newest { result ≡ newest_ref_of self.now.pool.rows owner target }
        ensures is { RefersTo self.now.pool.rows result target }
    {
        self.refs.newest_of(&self.tree, owner, target)
    }

    /// How many references there are to an object.
    pub fn count_refs(&self, target: Obj) -> u32
        ensures { result ≡ count_refs self.now.pool.rows target }
    {
        self.refs.count(&self.tree, target)
    }

    /// The sizes of what is inside an owner together, in bytes.
    pub fn total(&self, owner: Owner) -> u64
        ensures { result ≡ size_inside self.now.pool.rows owner }
    {
        total(&self.tree, owner)
    }

    /// How many objects are inside an owner.
    pub fn count(&self, owner: Owner) -> u64
        ensures { result ≡ count_inside self.now.pool.rows owner }
    {
        count(&self.tree, owner)
    }

    /// What the objects inside an owner count, in bytes.
    pub fn sum(&self, owner: Owner) -> u64
        ensures { result ≡ sum_inside self.now.pool.rows owner }
    {
        self.sums.sum(&self.tree, owner)
    }

    /// Whether so many more bytes fit below an owner.
    pub fn fits(&self, owner: Owner, wanted: u64) -> Result<(), Refusal>
        ensures { result ≡ checked (fitting self.now.pool owner wanted) }
    {
        self.sums.fits(&self.tree, owner, wanted)
    }

    /// The report of an owner. An error means out of memory.
    pub fn report(&self, alloc: Global, owner: Owner) -> Result<ReportRows, Memory>
        ensures { IfOk result (λ rows. rows ≡ report self.now.pool.rows owner) }
    {
        rows(alloc, &self.tree, &self.refs, owner)
    }
}
