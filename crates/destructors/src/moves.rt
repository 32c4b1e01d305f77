//! The moves of one free, as `talloc_free` goes, and what can be said of them before they are made.
ghost use Rattle.std.specs.Prelude.{◌≡◌, ◌≤◌, None};
ghost use Rattle.tree_specs.specs.Tree.Pool.{row_of, first_kid, owner_of, target_at, newest_ref_of};
ghost use Rattle.tree_specs.specs.Tree.Targets.{newest_ref};
ghost use Rattle.tree_specs.specs.declared.object.Owner.TheVariants.{Of as below};
ghost use Rattle.tree_specs.specs.declared.frame.FreeFrame.TheVariants.{Looping as Loops};
ghost use Rattle.tree_specs.specs.Machine.FreeTable.{free_step, begin_step, refs_step, unlink_step, release_step, judge_step, last_step, child_step, loop_step, hand_on_step};
ghost use Rattle.tree_links.specs.Links.{pool_of, works_of, MayPlace};
ghost use Rattle.references.specs.Rows.{AreRefsOf, SameRefs};
ghost use Rattle.destructors.specs.Moves.{move_of, outlook_of, IsLiveRow, MayHandOn, MoveRests};

use crate::dropping::{drop_ref, hold, noted_owner, release, unlink};
use crate::heir::heir;
use crate::kinds::{is_queue, is_request};
use crate::motion::{Motion, Outlook};
use references::Refs;
use tree_links::Tree;
use tree_specs::{FreeFrame, FreeReply, FreeStep, Mark, Obj, Owner, Purpose};

/// Begins the freeing of an object to which there is no reference.
fn begin(x: Obj, tree: &mut Tree) -> Motion
    ensures moved { move_of result (pool_of tree.new) ≡ begin_step x (row_of tree.old.rows x) (pool_of tree.old) }
    ensures spare { tree.old.spare ≤ tree.new.spare }
    ensures works { works_of tree.new ≡ works_of tree.old }
    ensures same_refs { SameRefs tree.old.rows tree.new.rows }
{
    let Some(row) = tree.row(x) else {
        return Motion::Ends(FreeReply::Ok);
    };
    let hook = row.hook;
    match row.mark {
        Mark::Quiet if is_request(row.kind) => {
            tree.set_mark(x, Mark::Asked);
            Motion::Goes(FreeFrame::Preparing { x })
        }
        Mark::Quiet if is_queue(row.kind) => {
            tree.set_mark(x, Mark::Asked);
            Motion::Goes(FreeFrame::Draining { x })
        }
        Mark::Quiet if hook == 0 => Motion::Goes(FreeFrame::Leaving { x, hook }),
        Mark::Quiet => {
            tree.set_mark(x, Mark::Asked);
            Motion::Goes(FreeFrame::Hooked { x, hook })
        }
        Mark::Asked | Mark::Doomed => Motion::Ends(FreeReply::Running),
        Mark::Busy => {
            tree.set_mark(x, Mark::Doomed);
            Motion::Tells(FreeStep::Doom(x), FreeFrame::Dooming { x })
        }
        Mark::Dying(_) => Motion::Ends(FreeReply::Ok),
    }
}

/// Goes by what the destructor has returned.
fn judge(x: Obj, hook: u32, value: u32, tree: &mut Tree) -> Motion
    requires { IsLiveRow (pool_of tree.old) x }
    ensures moved { move_of result (pool_of tree.new) ≡ judge_step x hook value (pool_of tree.old) }
    ensures spare { tree.old.spare ≤ tree.new.spare }
    ensures works { works_of tree.new ≡ works_of tree.old }
    ensures same_refs { SameRefs tree.old.rows tree.new.rows }
{
    if value == 0 {
        tree.set_hook(x, 0);
        return Motion::Tells(FreeStep::Accepted(x), FreeFrame::Leaving { x, hook });
    }
    tree.set_mark(x, Mark::Quiet);
    let refused = FreeStep::Refused {
        object: x,
        answer: value,
    };
    let answer = FreeReply::Refused(value);
    Motion::Tells(refused, FreeFrame::Ending { answer })
}

/// Begins the freeing of an object: references come first.
fn begin_free(x: Obj, tree: &mut Tree, refs: &mut Refs) -> Motion
    requires refs { AreRefsOf refs.old.pairs tree.old.rows }
    ensures moved { move_of result (pool_of tree.new) ≡ refs_step x (newest_ref tree.old.rows x) (pool_of tree.old) }
    ensures spare { tree.old.spare ≤ tree.new.spare }
    ensures works { works_of tree.new ≡ works_of tree.old }
    ensures refs { AreRefsOf refs.new.pairs tree.new.rows }
    ensures places { refs.old.spare ≤ refs.new.spare }
{
    match refs.newest(tree, x) {
        Some(reference) => hold(x, reference, tree, refs),
        None => begin(x, tree),
    }
}

/// Makes a request quiet again that was received, or a queue that has no entries, before it leaves its owner.
fn go_on(x: Obj, tree: &mut Tree) -> Motion
    requires { IsLiveRow (pool_of tree.old) x }
    ensures moved { move_of result (pool_of tree.new) ≡ free_step (FreeFrame.Prepared x) (pool_of tree.old) }
    ensures spare { tree.old.spare ≤ tree.new.spare }
    ensures works { works_of tree.new ≡ works_of tree.old }
    ensures same_refs { SameRefs tree.old.rows tree.new.rows }
{
    tree.set_mark(x, Mark::Quiet);
    Motion::Goes(FreeFrame::Leaving { x, hook: 0 })
}

/// Lets an object leave its owner. Its children come next.
fn leave(x: Obj, hook: u32, tree: &mut Tree) -> Motion
    requires { IsLiveRow (pool_of tree.old) x }
    ensures moved { move_of result (pool_of tree.new) ≡ free_step (FreeFrame.Leaving x hook) (pool_of tree.old) }
    ensures spare { tree.old.spare ≤ tree.new.spare }
    ensures works { works_of tree.new ≡ works_of tree.old }
    ensures same_refs { SameRefs tree.old.rows tree.new.rows }
{
    let from = tree.parent(x).unwrap_or(Owner::Root);
    tree.detach(x);
    let purpose = Purpose::Removal { hook };
    Motion::Tells(
        FreeStep::Left { object: x, from },
        FreeFrame::Looping { x, purpose },
    )
}

/// Ends the loop over the children of an object, of which there are no more.
fn finish(x: Obj, purpose: Purpose, tree: &mut Tree) -> Motion
    requires rests { MoveRests (Loops x purpose) (pool_of tree.old) }
    requires alone { first_kid tree.old.rows (below x) ≡ None }
    ensures moved { move_of result (pool_of tree.new) ≡ last_step x purpose (pool_of tree.old) }
    ensures spare { tree.old.spare ≤ tree.new.spare }
    ensures works { works_of tree.new ≡ works_of tree.old }
    ensures same_refs { SameRefs tree.old.rows tree.new.rows }
{
    match purpose {
        Purpose::Removal { hook } => {
            // Read for the prover: the contract of `len` says that each number stands once.
            let _rows = tree.len();
            tree.remove(x);
            let answer = FreeReply::Ok;
            Motion::Tells(
                FreeStep::Gone { object: x, hook },
                FreeFrame::Ending { answer },
            )
        }
        Purpose::Emptying => Motion::Ends(FreeReply::Ok),
    }
}

/// Drops a child that is a reference, and frees any other.
fn take(x: Obj, child: Obj, purpose: Purpose, tree: &mut Tree, refs: &mut Refs) -> Motion
    requires refs { AreRefsOf refs.old.pairs tree.old.rows }
    ensures moved { move_of result (pool_of tree.new) ≡ child_step x child purpose (target_at tree.old.rows child) (pool_of tree.old) }
    ensures spare { tree.old.spare ≤ tree.new.spare }
    ensures works { works_of tree.new ≡ works_of tree.old }
    ensures refs { AreRefsOf refs.new.pairs tree.new.rows }
    ensures places { refs.old.spare ≤ refs.new.spare }
{
    let Some(target) = refs.target(child) else {
        let noted = noted_owner(child, tree, refs);
        return Motion::Pushes(
            FreeFrame::Beginning { x: child },
            FreeFrame::FreeingChild {
                x,
                child,
                noted,
                purpose,
            },
        );
    };
    let dropped = drop_ref(child, target, tree, refs);
    Motion::Tells(dropped, FreeFrame::Looping { x, purpose })
}

/// Looks for the next child of an object.
fn look(x: Obj, purpose: Purpose, tree: &mut Tree, refs: &mut Refs) -> Motion
    requires rests { MoveRests (Loops x purpose) (pool_of tree.old) }
    requires refs { AreRefsOf refs.old.pairs tree.old.rows }
    ensures moved { move_of result (pool_of tree.new) ≡ loop_step x purpose (first_kid tree.old.rows (below x)) (pool_of tree.old) }
    ensures spare { tree.old.spare ≤ tree.new.spare }
    ensures works { works_of tree.new ≡ works_of tree.old }
    ensures refs { AreRefsOf refs.new.pairs tree.new.rows }
    ensures places { refs.old.spare ≤ refs.new.spare }
{
    match tree.first_kid(Owner::Of(x)) {
        Some(child) => take(x, child, purpose, tree, refs),
        None => finish(x, purpose, tree),
    }
}

/// Gives an object to the owner of a reference that was dropped.
fn give(x: Obj, owner: Owner, tree: &mut Tree) -> Motion
    requires { MayPlace tree.old.rows x owner }
    ensures moved { move_of result (pool_of tree.new) ≡ free_step (FreeFrame.Giving x owner) (pool_of tree.old) }
    ensures spare { tree.old.spare ≤ tree.new.spare }
    ensures works { works_of tree.new ≡ works_of tree.old }
    ensures same_refs { SameRefs tree.old.rows tree.new.rows }
{
    let from = tree.parent(x).unwrap_or(Owner::Root);
    tree.place(x, owner);
    let moved = FreeStep::Moved {
        object: x,
        from,
        owner,
    };
    let answer = FreeReply::Ok;
    Motion::Tells(moved, FreeFrame::Ending { answer })
}

/// Gives a child that wasn't freed to its heir, where `x` still is its owner.
fn hand_on(x: Obj, child: Obj, noted: Option<Owner>, purpose: Purpose, tree: &mut Tree) -> Motion
    requires { MayHandOn (pool_of tree.old) x child noted }
    ensures moved { move_of result (pool_of tree.new) ≡ hand_on_step x child noted purpose (pool_of tree.old) }
    ensures spare { tree.old.spare ≤ tree.new.spare }
    ensures works { works_of tree.new ≡ works_of tree.old }
    ensures same_refs { SameRefs tree.old.rows tree.new.rows }
{
    let next = FreeFrame::Looping { x, purpose };
    let from = Owner::Of(x);
    if !tree.owns(from, child) {
        return Motion::Goes(next);
    }
    let owner = heir(x, child, noted, tree);
    tree.place(child, owner);
    let moved = FreeStep::Moved {
        object: child,
        from,
        owner,
    };
    Motion::Tells(moved, next)
}

/// Makes one move of a work.
pub fn move_once(work: FreeFrame, tree: &mut Tree, refs: &mut Refs) -> Motion
    requires rests { MoveRests work (pool_of tree.old) }
    requires refs { AreRefsOf refs.old.pairs tree.old.rows }
    ensures moved { move_of result (pool_of tree.new) ≡ free_step work (pool_of tree.old) }
    ensures spare { tree.old.spare ≤ tree.new.spare }
    ensures works { works_of tree.new ≡ works_of tree.old }
    ensures refs { AreRefsOf refs.new.pairs tree.new.rows }
    ensures places { refs.old.spare ≤ refs.new.spare }
{
    // A work that waits is built anew from its parts: where one is copied whole, all the others are kept whole as well,
    // and each move copies more.
    match work {
        FreeFrame::Unlinking { owner, x } => unlink(owner, x, tree, refs),
        FreeFrame::Releasing { x } => release(x, tree, refs),
        FreeFrame::Giving { x, owner } => give(x, owner, tree),
        FreeFrame::Beginning { x } => begin_free(x, tree, refs),
        FreeFrame::Hooked { x, hook } => {
            Motion::Waits(FreeStep::Ask(x), FreeFrame::Hooked { x, hook })
        }
        FreeFrame::Judged { x, hook, value } => judge(x, hook, value, tree),
        FreeFrame::Preparing { x } => {
            Motion::Waits(FreeStep::Prepare(x), FreeFrame::Preparing { x })
        }
        FreeFrame::Draining { x } => Motion::Waits(FreeStep::Drain(x), FreeFrame::Draining { x }),
        FreeFrame::Prepared { x } => go_on(x, tree),
        FreeFrame::Dooming { .. } => Motion::Ends(FreeReply::Running),
        FreeFrame::Leaving { x, hook } => leave(x, hook, tree),
        FreeFrame::Looping { x, purpose } => look(x, purpose, tree, refs),
        FreeFrame::FreeingChild { .. } => Motion::Ends(FreeReply::Ok),
        FreeFrame::AfterChild {
            x,
            purpose,
            answer: FreeReply::Ok,
            ..
        } => Motion::Goes(FreeFrame::Looping { x, purpose }),
        FreeFrame::AfterChild {
            x,
            child,
            noted,
            purpose,
            ..
        } => hand_on(x, child, noted, purpose, tree),
        FreeFrame::Ending { answer } => Motion::Ends(answer),
    }
}

/// What comes next of the beginning of a free.
fn outlook_of_begin(x: Obj, tree: &Tree, refs: &Refs) -> Outlook
    requires refs { AreRefsOf refs.now.pairs tree.now.rows }
    ensures { result ≡ outlook_of (refs_step x (newest_ref tree.now.rows x) (pool_of tree.now)) }
{
    if refs.newest(tree, x).is_some() {
        return Outlook::Telling;
    }
    let Some(row) = tree.row(x) else {
        return Outlook::Ending(FreeReply::Ok);
    };
    let hook = row.hook;
    match row.mark {
        Mark::Quiet if is_request(row.kind) => Outlook::Going(FreeFrame::Preparing { x }),
        Mark::Quiet if is_queue(row.kind) => Outlook::Going(FreeFrame::Draining { x }),
        Mark::Quiet if hook == 0 => Outlook::Going(FreeFrame::Leaving { x, hook }),
        Mark::Quiet => Outlook::Going(FreeFrame::Hooked { x, hook }),
        Mark::Asked | Mark::Doomed => Outlook::Ending(FreeReply::Running),
        Mark::Busy => Outlook::Telling,
        Mark::Dying(_) => Outlook::Ending(FreeReply::Ok),
    }
}

/// What comes next of the loop over the children of an object.
fn outlook_of_loop(x: Obj, purpose: Purpose, tree: &Tree, refs: &Refs) -> Outlook
    requires refs { AreRefsOf refs.now.pairs tree.now.rows }
    ensures { result ≡ outlook_of (loop_step x purpose (first_kid tree.now.rows (below x)) (pool_of tree.now)) }
{
    match (tree.first_kid(Owner::Of(x)), purpose) {
        (Some(child), _) => {
            if refs.target(child).is_some() {
                return Outlook::Telling;
            }
            let noted = noted_owner(child, tree, refs);
            Outlook::Pushing(
                FreeFrame::Beginning { x: child },
                FreeFrame::FreeingChild {
                    x,
                    child,
                    noted,
                    purpose,
                },
            )
        }
        (None, Purpose::Removal { .. }) => Outlook::Telling,
        (None, Purpose::Emptying) => Outlook::Ending(FreeReply::Ok),
    }
}

/// What comes next of the handing on of a child.
fn outlook_of_heir(
    x: Obj,
    child: Obj,
    noted: Option<Owner>,
    purpose: Purpose,
    tree: &Tree,
) -> Outlook
    ensures { result ≡ outlook_of (hand_on_step x child noted purpose (pool_of tree.now)) }
{
    if tree.owns(Owner::Of(x), child) {
        Outlook::Telling
    } else {
        Outlook::Going(FreeFrame::Looping { x, purpose })
    }
}

/// Whether `unlink` tells something next.
fn outlook_of_unlink(owner: Owner, x: Obj, tree: &Tree, refs: &Refs) -> Outlook
    requires refs { AreRefsOf refs.now.pairs tree.now.rows }
    ensures { result ≡ outlook_of (unlink_step x (newest_ref_of tree.now.rows owner x) (pool_of tree.now)) }
{
    if refs.newest_of(tree, owner, x).is_some() {
        Outlook::Telling
    } else {
        Outlook::Going(FreeFrame::Releasing { x })
    }
}

/// Whether an owner that gives an object up tells something next.
fn outlook_of_release(x: Obj, tree: &Tree, refs: &Refs) -> Outlook
    requires refs { AreRefsOf refs.now.pairs tree.now.rows }
    ensures { result ≡ outlook_of (release_step x (newest_ref tree.now.rows x) (pool_of tree.now)) }
{
    if refs.newest(tree, x).is_some() {
        Outlook::Telling
    } else {
        Outlook::Going(FreeFrame::Beginning { x })
    }
}

/// What comes next of a work, as far as it tells nothing.
pub fn outlook(work: FreeFrame, tree: &Tree, refs: &Refs) -> Outlook
    requires refs { AreRefsOf refs.now.pairs tree.now.rows }
    ensures { result ≡ outlook_of (free_step work (pool_of tree.now)) }
{
    match work {
        FreeFrame::Unlinking { owner, x } => outlook_of_unlink(owner, x, tree, refs),
        FreeFrame::Releasing { x } => outlook_of_release(x, tree, refs),
        FreeFrame::Beginning { x } => outlook_of_begin(x, tree, refs),
        FreeFrame::Giving { .. }
        | FreeFrame::Hooked { .. }
        | FreeFrame::Preparing { .. }
        | FreeFrame::Draining { .. }
        | FreeFrame::Judged { .. }
        | FreeFrame::Leaving { .. } => Outlook::Telling,
        FreeFrame::Prepared { x } => Outlook::Going(FreeFrame::Leaving { x, hook: 0 }),
        FreeFrame::Looping { x, purpose } => outlook_of_loop(x, purpose, tree, refs),
        FreeFrame::AfterChild {
            x,
            purpose,
            answer: FreeReply::Ok,
            ..
        } => Outlook::Going(FreeFrame::Looping { x, purpose }),
        FreeFrame::AfterChild {
            x,
            child,
            noted,
            purpose,
            ..
        } => outlook_of_heir(x, child, noted, purpose, tree),
        FreeFrame::Dooming { .. } => Outlook::Ending(FreeReply::Running),
        FreeFrame::FreeingChild { .. } => Outlook::Ending(FreeReply::Ok),
        FreeFrame::Ending { answer } => Outlook::Ending(answer),
    }
}
