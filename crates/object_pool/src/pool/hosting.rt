//! Event contexts: objects in which events, requests and queues come, and whose turns pick what comes.
ghost use Rattle.std.specs.Prelude.{◌≡◌, ◌-◌, ◌^◌, ◌<◌, true, false, codes, length};
ghost use Rattle.tree_specs.specs.declared.kind.Kind.TheVariants.{Context};
ghost use Rattle.tree_specs.specs.Tree.Pool.{is_owner, is_usable, here, enter as entered, add as added};
ghost use Rattle.tree_specs.specs.Calls.Refusals.{row_limit};
ghost use Rattle.tree_specs.specs.Invariants.Sound.{TurnedAt};
ghost use Rattle.object_pool.specs.Hosting.{left_by_turn, goes_after_turn};

use crate::contexts::is_usable;
use crate::counting::add_row;
use crate::doomed::is_doomed;
use crate::pool::ObjectPool;
use tree_specs::{Kind, Mark, Name, Obj, Owner};

impl ObjectPool {
    /// Adds a context as the newest child of an owner, and gives its number (`tevent_context_init`).
    pub fn add_context(&mut self, owner: Owner) -> Obj
        requires ready { self.old.ready ≡ true }
        requires few { length self.old.pool.rows < row_limit }
        requires numbered { self.old.pool.next < 2 ^ 64 - 1 }
        requires owner { is_owner self.old.pool.rows owner ≡ true }
        ensures serial { result ≡ record { 0 = self.old.pool.next } }
        ensures added { self.new ≡ record self.old { pool = added self.old.pool Context owner 0 (codes "tevent"); ready = false } }
    {
        self.ready = false;
        self.event = false;
        self.context = false;
        let name = Name::fixed(b"tevent");
        let context = add_row(
            Kind::Context,
            name,
            0,
            owner,
            &mut self.tree,
            &mut self.sums,
        );
        self.events.add_context(context);
        context
    }

    /// Whether something may come in a context: it is the first one, or one that neither is being freed nor will be after
    /// its turn.
    pub fn is_usable(&self, context: Obj) -> bool
        ensures { result ≡ is_usable self.now.pool.rows context }
    {
        is_usable(context, &self.tree)
    }

    /// The context whose turn is under way; the first one where there is no such turn.
    pub fn here(&self) -> Obj
        ensures { result ≡ here self.now.pool }
    {
        self.events.turning().unwrap_or(Obj::first_context())
    }

    /// Begins a turn of a context, which is busy from now on. The first one is no object, and stays as it is.
    pub fn enter(&mut self, context: Obj)
        requires { is_usable self.old.pool.rows context ≡ true }
        ensures { self.new ≡ record self.old { pool = entered self.old.pool context } }
    {
        if context != Obj::first_context() {
            self.events.turn_to(Some(context));
            self.tree.set_mark(context, Mark::Busy);
        }
    }

    /// Ends the turn of a context, which is quiet again. Gives it where it is to be freed now, as one is that was to be
    /// freed in its turn. Nothing changes after a turn of the first one.
    pub fn exit(&mut self) -> Option<Obj>
        requires { TurnedAt self.old.pool.turning self.old.pool.rows }
        ensures goes { result ≡ goes_after_turn self.old.pool.turning self.old.pool }
        ensures pool { self.new ≡ record self.old { pool = left_by_turn self.old.pool.turning self.old.pool } }
    {
        let context = self.events.turning()?;
        let doomed = self
            .tree
            .row(context)
            .is_some_and(|row| is_doomed(row.mark));
        self.events.turn_to(None);
        self.tree.set_mark(context, Mark::Quiet);
        if doomed { Some(context) } else { None }
    }
}
