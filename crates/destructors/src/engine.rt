//! `FreeEngine`: the frees that are open on a tree. It frees objects step by step, as `talloc_free` does. Each step
//! says one thing: a destructor is to run, an object has left its owner, an object is gone, the free is over, and so on
//! (`FreeStep`). It runs no destructor: its caller does, and gives the answer back.
//!
//! Contracts see the innermost open work, and with those that wait in the tree one list of works (`frees_of`). What a
//! step does is said by the table of the rules (`Steps` in `specs/Frees`).
//!
//! Read on in `works.rt`, which goes from move to move, and in `moves.rt`, which has each move.
ghost use Rattle.std.specs.Prelude.{◌≡◌, ◌+◌, ◌≤◌, ◌<◌, Option, length, unwrap_or};
ghost use Rattle.tree_specs.specs.declared.frame.FreeFrame.{FreeFrame as FreeFrameData};
ghost use Rattle.tree_specs.specs.Tree.Pool.{Pool as PoolData};
ghost use Rattle.tree_specs.specs.Machine.FreeTable.{free_taken};
ghost use Rattle.tree_links.specs.Links.{pool_of};
ghost use Rattle.destructors.specs.Frees.{before, dooms, was_prepared};
ghost use Rattle.references.specs.Rows.{AreRefsOf};

use crate::works::{advance, end, settle};
use references::Refs;
use std::marker::Model;
use tree_links::Tree;
use tree_specs::{FreeFrame, FreeReply, FreeStep, Mark, Obj, Owner, Purpose};

/// Frees in progress on a tree and the references in it, as `talloc_free` and `talloc_unlink` go, with the runs of
/// destructors, the receiving of requests, and the freeing of a queue's entries left to the caller. Frees nest: while
/// one waits, further frees may begin and end. Contracts see the innermost work of the open frees; those that wait for
/// it stand in the tree, and contracts see both as one list (`frees_of`).
///
/// The engine takes no memory: `Tree::reserve` takes the room for its works. Between a step that asks and the answer,
/// the caller may do with the tree what keeps that the open frees await it (`IsAwaiting`).
#[derive(Drop)]
pub struct FreeEngine {
    innermost: Option<FreeFrame>,
}

impl Model for FreeEngine {
    ghost Value = { Option FreeFrameData };

    ghost view = { λ engine. engine.innermost };
}

/// Puts the innermost work among those that wait in the tree.
fn wait(innermost: Option<FreeFrame>, tree: &mut Tree)
    requires { length (before innermost tree.old.frees) ≤ length tree.old.frees + tree.old.room }
    ensures rows { pool_of tree.new ≡ pool_of tree.old }
    ensures works { tree.new.frees ≡ before innermost tree.old.frees }
    ensures room { length tree.old.frees + tree.old.room ≤ length tree.new.frees + tree.new.room }
    ensures spare { tree.new.spare ≡ tree.old.spare }
{
    if let Some(work) = innermost {
        tree.push_free(work);
    }
}

/// A work that waits for a destructor, which has returned this number. Every other work stays as it is.
fn judged(work: FreeFrame, value: u32) -> FreeFrame
    ensures { (pool : PoolData) → result ≡ unwrap_or (free_taken work pool value) work }
{
    match work {
        FreeFrame::Hooked { x, hook } => FreeFrame::Judged { x, hook, value },
        _ => work,
    }
}

/// A work that waits until its request was received, or its queue has no entries, once this is so. Every other work
/// stays as it is.
fn going_on(work: FreeFrame) -> FreeFrame
    ensures { result ≡ was_prepared work }
{
    match work {
        FreeFrame::Preparing { x } => FreeFrame::Prepared { x },
        FreeFrame::Draining { x } => FreeFrame::Prepared { x },
        _ => work,
    }
}

/// Whether an object whose freeing begins is to go after its handler, which runs.
fn is_doomed_now(x: Obj, tree: &Tree, refs: &Refs) -> bool
    requires { AreRefsOf refs.now.pairs tree.now.rows }
    ensures { result ≡ dooms (pool_of tree.now) x }
{
    refs.newest(tree, x).is_none() && tree.row(x).is_some_and(|row| row.mark == Mark::Busy)
}

impl FreeEngine {
    ghost use Rattle.std.specs.Prelude.{true, None, IfSome, OnSome, is_some, [], ◌∷◌};
    ghost use Rattle.tree_specs.specs.declared.free_step.FreeStep.TheVariants.{Done};
    ghost use Rattle.tree_specs.specs.declared.frame.FreeFrame.TheVariants.{Unlinking, Beginning, Looping};
    ghost use Rattle.tree_specs.specs.declared.frame.Purpose.TheVariants.{Emptying};
    ghost use Rattle.destructors.specs.Frees.{frees_of, next_of, is_event, let_go_by, returned, prepared as prepared_works, speaking, Steps};
    ghost use Rattle.destructors.specs.Works.{IsAtWork, IsAwaiting, MayBegin, GoesOn};
    ghost use Rattle.tree_specs.specs.Tree.Targets.{newest_ref};
    ghost use Rattle.tree_specs.specs.Tree.Pool.{target_at};
    ghost use Rattle.references.specs.Rows.{AreRefsOf};
    ghost use Rattle.destructors.specs.Moves.{IsLiveRow};
    ghost use Rattle.destructors.specs.Changes.{ChangedBy};
    ghost use Rattle.destructors.specs.Engine.{IsAsked, IsPreparing, ended_with, AreKept, HasBegun, HasRoom, HasRoomFor};

    /// An engine with no open free.
    pub fn new() -> FreeEngine
        ensures { result ≡ None }
    {
        FreeEngine { innermost: None }
    }

    /// Whether a free is open.
    pub fn is_open(&self) -> bool
        ensures { result ≡ is_some self.now }
    {
        self.innermost.is_some()
    }

    /// Puts the first work of a free before those of the open ones.
    fn begin(&mut self, tree: &mut Tree, refs: &mut Refs, work: FreeFrame)
        requires awaiting { IsAwaiting (frees_of self.old tree.old) }
        requires kept { AreKept self.old tree.old }
        requires first { MayBegin work (pool_of tree.old) }
        requires room { HasRoomFor work self.old tree.old }
        requires refs { AreRefsOf refs.old.pairs tree.old.rows }
        ensures { HasBegun (work ∷ before self.old tree.old.frees) tree.old refs.old self.new tree.new refs.new }
    {
        wait(self.innermost, tree);
        self.innermost = Some(work);
        settle(&mut self.innermost, tree, refs);
    }

    /// Begins the freeing of an object to which there is no reference. Like the other beginnings it changes the rows in
    /// nothing but marks and destructors.
    pub fn begin_free(&mut self, tree: &mut Tree, refs: &mut Refs, x: Obj)
        requires awaiting { IsAwaiting (frees_of self.old tree.old) }
        requires kept { AreKept self.old tree.old }
        requires object { target_at tree.old.rows x ≡ None }
        requires unheld { newest_ref tree.old.rows x ≡ None }
        requires room { HasRoomFor (Beginning x) self.old tree.old }
        requires refs { AreRefsOf refs.old.pairs tree.old.rows }
        ensures { HasBegun (Beginning x ∷ before self.old tree.old.frees) tree.old refs.old self.new tree.new refs.new }
    {
        self.begin(tree, refs, FreeFrame::Beginning { x });
    }

    /// Begins to take the interest of an owner in an object away (`talloc_unlink`): the newest reference that the owner
    /// has goes. An owner that has none gives the object up, which goes to the owner of a reference, or is freed.
    pub fn begin_unlink(&mut self, tree: &mut Tree, refs: &mut Refs, owner: Owner, x: Obj)
        requires awaiting { IsAwaiting (frees_of self.old tree.old) }
        requires kept { AreKept self.old tree.old }
        requires live { IsLiveRow (pool_of tree.old) x }
        requires object { target_at tree.old.rows x ≡ None }
        requires room { HasRoomFor (Unlinking owner x) self.old tree.old }
        requires refs { AreRefsOf refs.old.pairs tree.old.rows }
        ensures { HasBegun (Unlinking owner x ∷ before self.old tree.old.frees) tree.old refs.old self.new tree.new refs.new }
    {
        self.begin(tree, refs, FreeFrame::Unlinking { owner, x });
    }

    /// Begins the freeing of an object's children. The object itself stays.
    pub fn begin_kids(&mut self, tree: &mut Tree, refs: &mut Refs, x: Obj)
        requires awaiting { IsAwaiting (frees_of self.old tree.old) }
        requires kept { AreKept self.old tree.old }
        requires room { HasRoomFor (Looping x Emptying) self.old tree.old }
        requires refs { AreRefsOf refs.old.pairs tree.old.rows }
        ensures { HasBegun (Looping x Emptying ∷ before self.old tree.old.frees) tree.old refs.old self.new tree.new refs.new }
    {
        let purpose = Purpose::Emptying;
        self.begin(tree, refs, FreeFrame::Looping { x, purpose });
    }

    /// Answers the innermost free, which waits for a destructor, with the number that this has returned: with 0 it
    /// accepts, with any other one it refuses.
    pub fn answer(&mut self, _tree: &Tree, value: u32)
        requires asked { IsAsked self.old }
        requires awaiting { IsAwaiting (frees_of self.old _tree.now) }
        ensures returned { frees_of self.new _tree.now ≡ record { works = returned value (frees_of self.old _tree.now); pool = pool_of _tree.now } }
        ensures settles { speaking (frees_of self.new _tree.now) ≡ true }
        ensures at_work { IsAtWork (frees_of self.new _tree.now) }
        ensures kept { AreKept self.new _tree.now }
    {
        if let Some(work) = self.innermost {
            self.innermost = Some(judged(work, value));
        }
    }

    /// Lets the innermost free go on, which has waited for what comes before the freeing of a request or of a queue.
    pub fn prepared(&mut self, tree: &mut Tree, refs: &mut Refs)
        requires preparing { IsPreparing self.old }
        requires awaiting { IsAwaiting (frees_of self.old tree.old) }
        requires room { HasRoom self.old tree.old }
        requires refs { AreRefsOf refs.old.pairs tree.old.rows }
        ensures { HasBegun (prepared_works (before self.old tree.old.frees)) tree.old refs.old self.new tree.new refs.new }
    {
        if let Some(work) = self.innermost {
            self.innermost = Some(going_on(work));
            settle(&mut self.innermost, tree, refs);
        }
    }

    /// The object that the next step lets go of: it leaves its owner, or its handler runs and it is to go after it.
    /// None exactly where the step does neither.
    #[inline(always)]
    pub fn lets_go(&self, tree: &Tree, refs: &Refs) -> Option<Obj>
        requires refs { AreRefsOf refs.now.pairs tree.now.rows }
        requires kept { AreKept self.now tree.now }
        requires settled { speaking (frees_of self.now tree.now) ≡ true }
        ensures { result ≡ let_go_by (next_of (frees_of self.now tree.now)).0 }
    {
        match self.innermost {
            Some(FreeFrame::Leaving { x, .. }) => Some(x),
            Some(FreeFrame::Beginning { x }) if is_doomed_now(x, tree, refs) => Some(x),
            _ => None,
        }
    }

    /// Whether the next step tells an event of its own: a reference is dropped, or an object refuses, accepts, is moved
    /// or is gone. A step that lets go of an object may tell one besides, which isn't looked at here (`lets_go`). Since
    /// it is known that the innermost work tells or asks something, or is over, most works say so themselves.
    pub fn announces(&self, tree: &Tree, refs: &Refs) -> bool
        requires refs { AreRefsOf refs.now.pairs tree.now.rows }
        requires kept { AreKept self.now tree.now }
        requires settled { speaking (frees_of self.now tree.now) ≡ true }
        ensures { result ≡ is_event [] (next_of (frees_of self.now tree.now)).0 }
    {
        let Some(work) = self.innermost else {
            return false;
        };
        match work {
            FreeFrame::Hooked { .. }
            | FreeFrame::Preparing { .. }
            | FreeFrame::Draining { .. }
            | FreeFrame::Prepared { .. }
            | FreeFrame::Dooming { .. }
            | FreeFrame::Leaving { .. }
            | FreeFrame::FreeingChild { .. }
            | FreeFrame::Ending { .. } => false,
            FreeFrame::Beginning { x } => refs.newest(tree, x).is_some(),
            FreeFrame::Looping {
                x,
                purpose: Purpose::Emptying,
            } => tree.first_kid(Owner::Of(x)).is_some(),
            FreeFrame::Looping { .. } => true,
            FreeFrame::Unlinking { .. }
            | FreeFrame::Releasing { .. }
            | FreeFrame::Giving { .. }
            | FreeFrame::Judged { .. }
            | FreeFrame::AfterChild { .. } => true,
        }
    }

    /// Ends the innermost free where it is over, and gives its answer, as a step that is `Done` does. None, with
    /// nothing done, where it isn't.
    pub fn end_free(&mut self, tree: &mut Tree) -> Option<FreeReply>
        requires at_work { IsAtWork (frees_of self.old tree.old) }
        requires settled { speaking (frees_of self.old tree.old) ≡ true }
        requires kept { AreKept self.old tree.old }
        requires room { HasRoom self.old tree.old }
        ensures answer { result ≡ ended_with self.old }
        ensures steps { IfSome result (λ answer. Steps (frees_of self.old tree.old) (Done answer) (frees_of self.new tree.new)) }
        ensures goes_on { OnSome result (IsAwaiting (frees_of self.new tree.new)) }
        ensures rows { pool_of tree.new ≡ pool_of tree.old }
        ensures kept { AreKept self.new tree.new }
        ensures room { HasRoom self.new tree.new }
        ensures spare { tree.new.spare ≡ tree.old.spare }
        ensures none { result ≡ None → (self.new ≡ self.old) × (tree.new ≡ tree.old) }
    {
        let Some(FreeFrame::Ending { answer }) = self.innermost else {
            return None;
        };
        self.innermost = end(answer, tree).innermost;
        Some(answer)
    }

    /// Makes the next step of the innermost free.
    ///
    /// At `Ask` the caller runs the object's destructor and answers with what it returned. At `Prepare` it receives the
    /// request, and at `Drain` it frees the entries of the queue, and says so (`prepared`). It may begin further frees
    /// until then. At `Done` the innermost free is over, and the one around it, if there is one, still waits for its
    /// answer.
    pub fn step(&mut self, tree: &mut Tree, refs: &mut Refs) -> FreeStep
        requires at_work { IsAtWork (frees_of self.old tree.old) }
        requires settled { speaking (frees_of self.old tree.old) ≡ true }
        requires kept { AreKept self.old tree.old }
        requires room { HasRoom self.old tree.old }
        requires refs { AreRefsOf refs.old.pairs tree.old.rows }
        ensures steps { Steps (frees_of self.old tree.old) result (frees_of self.new tree.new) }
        // What it has done to the rows, but for marks and destructors, which is for those who keep books of their own.
        ensures changed { ChangedBy result tree.old.rows tree.new.rows }
        ensures goes_on { GoesOn result (frees_of self.new tree.new) }
        ensures kept { AreKept self.new tree.new }
        ensures room { HasRoom self.new tree.new }
        ensures spare { tree.old.spare ≤ tree.new.spare }
        ensures refs { AreRefsOf refs.new.pairs tree.new.rows }
        ensures places { refs.old.spare ≤ refs.new.spare }
    {
        let Some(work) = self.innermost else {
            unreachable!()
        };
        let progress = advance(work, tree, refs);
        let Some(told) = progress.told else {
            unreachable!()
        };
        self.innermost = progress.innermost;
        settle(&mut self.innermost, tree, refs);
        told
    }
}
