//! The works of all open frees, move after move. The innermost work is at hand, and those that wait for it stand in
//! the tree.
ghost use Rattle.std.specs.Prelude.{◌≡◌, ◌+◌, ◌≤◌, ◌∷◌, true, length, Some, None};
ghost use Rattle.step_machine.specs.Machine.{Move as Do};
ghost use Rattle.tree_specs.specs.Machine.FreeTable.{free_resume, free_step};
ghost use Rattle.tree_links.specs.Links.{pool_of, works_of};
ghost use Rattle.references.specs.Rows.{AreRefsOf, SameRefs};
ghost use Rattle.destructors.specs.Moves.{MoveRests, MayEnter, entered};
ghost use Rattle.destructors.specs.Frees.{awaits_run, answered, frees_of, moves as moves_of, speaking, Silently};
ghost use Rattle.destructors.specs.Works.{IsAtWork};
ghost use Rattle.destructors.specs.Engine.{AreKept, HasRoom, MovesQuietly, IsBetweenCalls};

use crate::motion::{Motion, Outlook};
use crate::moves::{move_once, outlook};
use references::Refs;
use tree_links::Tree;
use tree_specs::{FreeFrame, FreeReply, FreeStep, Mark};

/// What a move told, and the work that is innermost after it.
#[derive(Clone, Copy)]
pub struct Progress {
    pub told: Option<FreeStep>,
    pub innermost: Option<FreeFrame>,
}

/// A move that told nothing, after which this work is innermost.
fn silently(work: FreeFrame) -> Progress
    ensures { result ≡ record { told = None; innermost = Some work } }
{
    Progress {
        told: None,
        innermost: Some(work),
    }
}

/// A move that told this, with the work that is innermost after it.
fn telling(told: FreeStep, innermost: Option<FreeFrame>) -> Progress
    ensures { result ≡ record { told = Some told; innermost = innermost } }
{
    Progress {
        told: Some(told),
        innermost,
    }
}

/// Whether a work waits for no free, but for the run of a destructor, until a request was received, or until the
/// entries of a queue are freed.
fn awaits_run(work: FreeFrame) -> bool
    ensures { result ≡ awaits_run work }
{
    matches!(
        work,
        FreeFrame::Hooked { .. } | FreeFrame::Preparing { .. } | FreeFrame::Draining { .. }
    )
}

/// A work that has waited, with the answer of the work above it.
fn resumed(work: FreeFrame, answer: FreeReply) -> FreeFrame
    ensures { result ≡ free_resume work answer }
{
    match work {
        FreeFrame::FreeingChild {
            x,
            child,
            noted,
            purpose,
        } => FreeFrame::AfterChild {
            x,
            child,
            noted,
            purpose,
            answer,
        },
        _ => work,
    }
}

/// Ends the innermost work. Its answer goes to the work below it; where that waits for no free, or there is none, the
/// free is over.
pub fn end(answer: FreeReply, tree: &mut Tree) -> Progress
    ensures moved { answered answer (pool_of tree.old) tree.old.frees ≡ (result.told, frees_of result.innermost tree.new) }
    ensures rows { pool_of tree.new ≡ pool_of tree.old }
    ensures kept { AreKept result.innermost tree.new }
    ensures spare { tree.new.spare ≡ tree.old.spare }
    ensures room { length tree.old.frees + tree.old.room ≤ length tree.new.frees + tree.new.room }
{
    match tree.pop_free() {
        Some(work) if awaits_run(work) => telling(FreeStep::Done(answer), Some(work)),
        Some(work) => silently(resumed(work, answer)),
        None => telling(FreeStep::Done(answer), None),
    }
}

/// Makes one move.
#[tactic(auto, using(crate::proofs::FreeMoves::push_room))]
pub fn advance(work: FreeFrame, tree: &mut Tree, refs: &mut Refs) -> Progress
    requires rests { MoveRests work (pool_of tree.old) }
    requires room { HasRoom (Some work) tree.old }
    requires refs { AreRefsOf refs.old.pairs tree.old.rows }
    ensures moved { moves_of (work ∷ tree.old.frees) (pool_of tree.old) ≡ (result.told, frees_of result.innermost tree.new) }
    ensures kept { AreKept result.innermost tree.new }
    ensures spare { tree.old.spare ≤ tree.new.spare }
    ensures room { length tree.old.frees + tree.old.room ≤ length tree.new.frees + tree.new.room }
    ensures refs { AreRefsOf refs.new.pairs tree.new.rows }
    ensures places { refs.old.spare ≤ refs.new.spare }
{
    match move_once(work, tree, refs) {
        Motion::Ends(answer) => end(answer, tree),
        Motion::Goes(next) => silently(next),
        Motion::Tells(told, next) => telling(told, Some(next)),
        Motion::Waits(asked, next) => telling(asked, Some(next)),
        Motion::Pushes(first, second) => {
            tree.push_free(second);
            silently(first)
        }
    }
}

/// Sets the mark that goes with a move from one work to the next: an object that is to be asked, or to be prepared, is
/// marked so, and one that was prepared is quiet again.
fn enter(work: FreeFrame, next: FreeFrame, tree: &mut Tree)
    requires { MayEnter work next (pool_of tree.old) }
    ensures rows { pool_of tree.new ≡ entered work next (pool_of tree.old) }
    ensures works { works_of tree.new ≡ works_of tree.old }
    ensures spare { tree.old.spare ≤ tree.new.spare }
{
    match (work, next) {
        (FreeFrame::Prepared { x }, _) => tree.set_mark(x, Mark::Quiet),
        (_, FreeFrame::Hooked { x, .. }) => tree.set_mark(x, Mark::Asked),
        (_, FreeFrame::Preparing { x }) => tree.set_mark(x, Mark::Asked),
        (_, FreeFrame::Draining { x }) => tree.set_mark(x, Mark::Asked),
        _ => {}
    }
}

/// Ends a work, and lets the free that waits for it go on. None where none waits for a free: then this free is over,
/// which is told, and nothing is done.
fn end_quietly(_work: FreeFrame, answer: FreeReply, tree: &mut Tree) -> Option<FreeFrame>
    requires { free_step _work (pool_of tree.old) ≡ Do.Done answer (pool_of tree.old) }
    ensures moved { MovesQuietly _work tree.old result tree.new }
    ensures spare { tree.old.spare ≤ tree.new.spare }
    ensures room { length tree.old.frees + tree.old.room ≤ length tree.new.frees + tree.new.room }
    ensures same_refs { SameRefs tree.old.rows tree.new.rows }
{
    let waiting = tree.innermost_free()?;
    if awaits_run(waiting) {
        return None;
    }
    tree.pop_free();
    Some(resumed(waiting, answer))
}

/// Makes the next move of a work where it tells nothing, and gives the work that is innermost after it. None where the
/// move tells or asks something, or ends the free: then nothing is done.
pub fn move_quietly(work: &FreeFrame, tree: &mut Tree, refs: &Refs) -> Option<FreeFrame>
    requires rests { MoveRests work.now (pool_of tree.old) }
    requires room { HasRoom (Some work.now) tree.old }
    requires refs { AreRefsOf refs.now.pairs tree.old.rows }
    ensures moved { MovesQuietly work.now tree.old result tree.new }
    ensures spare { tree.old.spare ≤ tree.new.spare }
    ensures room { length tree.old.frees + tree.old.room ≤ length tree.new.frees + tree.new.room }
    ensures refs { AreRefsOf refs.now.pairs tree.new.rows }
{
    match outlook(*work, tree, refs) {
        Outlook::Telling => None,
        Outlook::Ending(answer) => end_quietly(*work, answer, tree),
        Outlook::Going(next) => {
            enter(*work, next, tree);
            Some(next)
        }
        Outlook::Pushing(first, second) => {
            tree.push_free(second);
            Some(first)
        }
    }
}

/// Makes the moves that tell nothing, up to the next one that does. The innermost work is changed where it is kept:
/// moving one costs more than most moves do.
#[inline(always)]
pub fn settle(innermost: &mut Option<FreeFrame>, tree: &mut Tree, refs: &mut Refs)
    requires ready { IsBetweenCalls innermost.old tree.old }
    requires refs { AreRefsOf refs.old.pairs tree.old.rows }
    ensures ready { IsBetweenCalls innermost.new tree.new }
    ensures moves_on { Silently (frees_of innermost.old tree.old) (frees_of innermost.new tree.new) }
    ensures at_work { IsAtWork (frees_of innermost.old tree.old) → IsAtWork (frees_of innermost.new tree.new) }
    ensures settles { speaking (frees_of innermost.new tree.new) ≡ true }
    ensures refs { AreRefsOf refs.new.pairs tree.new.rows }
    ensures places { refs.old.spare ≤ refs.new.spare }
    ensures spare { tree.old.spare ≤ tree.new.spare }
{
    loop {
        let Some(work) = innermost.as_ref() else {
            return;
        };
        let Some(next) = move_quietly(work, tree, refs) else {
            return;
        };
        *innermost = Some(next);
    }
}
