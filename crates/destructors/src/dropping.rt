//! References that are dropped: where an owner gives up its interest, and before an object is freed.
ghost use Rattle.std.specs.Prelude.{◌≡◌, ◌≤◌, Some};
ghost use Rattle.tree_specs.specs.Tree.Targets.{newest_ref};
ghost use Rattle.tree_specs.specs.Tree.Pool.{newest_ref_of, remove as removed, noted_owner as noted_owner_of};
ghost use Rattle.tree_specs.specs.Machine.FreeTable.{drop_step, unlink_step, release_step};
ghost use Rattle.tree_links.specs.Links.{pool_of, works_of};
ghost use Rattle.references.specs.Rows.{AreRefsOf, RefersTo};
ghost use Rattle.destructors.specs.Moves.{move_of};

use crate::motion::Motion;
use references::Refs;
use tree_links::Tree;
use tree_specs::{FreeFrame, FreeReply, FreeStep, Obj, Owner};

/// Drops a reference, and gives the step that tells it.
#[inline(always)]
pub fn drop_ref(reference: Obj, target: Obj, tree: &mut Tree, refs: &mut Refs) -> FreeStep
    requires is { RefersTo tree.old.rows (Some reference) target }
    requires refs { AreRefsOf refs.old.pairs tree.old.rows }
    ensures told { result ≡ FreeStep.Dropped reference target }
    ensures rows { pool_of tree.new ≡ removed (pool_of tree.old) reference }
    ensures refs { AreRefsOf refs.new.pairs tree.new.rows }
    ensures places { refs.old.spare ≤ refs.new.spare }
    ensures spare { tree.old.spare ≤ tree.new.spare }
    ensures works { works_of tree.new ≡ works_of tree.old }
{
    // Read for the prover: the contract of `len` says that a reference owns nothing.
    let _rows = tree.len();
    let _target = refs.drop_ref(reference);
    tree.remove(reference);
    FreeStep::Dropped { reference, target }
}

/// Drops the newest reference to an object that an owner has. An owner that has none gives the object up.
pub fn unlink(owner: Owner, x: Obj, tree: &mut Tree, refs: &mut Refs) -> Motion
    requires refs { AreRefsOf refs.old.pairs tree.old.rows }
    ensures moved { move_of result (pool_of tree.new) ≡ unlink_step x (newest_ref_of tree.old.rows owner x) (pool_of tree.old) }
    ensures refs { AreRefsOf refs.new.pairs tree.new.rows }
    ensures places { refs.old.spare ≤ refs.new.spare }
    ensures spare { tree.old.spare ≤ tree.new.spare }
    ensures works { works_of tree.new ≡ works_of tree.old }
{
    let Some(reference) = refs.newest_of(tree, owner, x) else {
        return Motion::Goes(FreeFrame::Releasing { x });
    };
    let dropped = drop_ref(reference, x, tree, refs);
    let answer = FreeReply::Ok;
    Motion::Tells(dropped, FreeFrame::Ending { answer })
}

/// Lets the owner of an object give it up: its newest reference goes, and where this wasn't inside the object, the
/// reference's owner gets the object.
pub fn release(x: Obj, tree: &mut Tree, refs: &mut Refs) -> Motion
    requires refs { AreRefsOf refs.old.pairs tree.old.rows }
    ensures moved { move_of result (pool_of tree.new) ≡ release_step x (newest_ref tree.old.rows x) (pool_of tree.old) }
    ensures refs { AreRefsOf refs.new.pairs tree.new.rows }
    ensures places { refs.old.spare ≤ refs.new.spare }
    ensures spare { tree.old.spare ≤ tree.new.spare }
    ensures works { works_of tree.new ≡ works_of tree.old }
{
    let Some(reference) = refs.newest(tree, x) else {
        return Motion::Goes(FreeFrame::Beginning { x });
    };
    let inside = tree.is_inside(Owner::Of(reference), Owner::Of(x));
    let owner = tree.parent(reference).unwrap_or(Owner::Root);
    let dropped = drop_ref(reference, x, tree, refs);
    if inside {
        Motion::Tells(dropped, FreeFrame::Releasing { x })
    } else {
        Motion::Tells(dropped, FreeFrame::Giving { x, owner })
    }
}

/// Drops the newest reference to an object that is to be freed. One from inside it makes the freeing begin again, and
/// one from outside holds the object.
pub fn hold(x: Obj, reference: Obj, tree: &mut Tree, refs: &mut Refs) -> Motion
    requires is { RefersTo tree.old.rows (Some reference) x }
    requires refs { AreRefsOf refs.old.pairs tree.old.rows }
    ensures moved { move_of result (pool_of tree.new) ≡ drop_step x reference (pool_of tree.old) }
    ensures refs { AreRefsOf refs.new.pairs tree.new.rows }
    ensures places { refs.old.spare ≤ refs.new.spare }
    ensures spare { tree.old.spare ≤ tree.new.spare }
    ensures works { works_of tree.new ≡ works_of tree.old }
{
    let inside = tree.is_inside(Owner::Of(reference), Owner::Of(x));
    let dropped = drop_ref(reference, x, tree, refs);
    if inside {
        return Motion::Tells(dropped, FreeFrame::Beginning { x });
    }
    let answer = FreeReply::Held;
    Motion::Tells(dropped, FreeFrame::Ending { answer })
}

/// The owner of the newest reference to an object.
pub fn noted_owner(x: Obj, tree: &Tree, refs: &Refs) -> Option<Owner>
    requires refs { AreRefsOf refs.now.pairs tree.now.rows }
    ensures { result ≡ noted_owner_of tree.now.rows x }
{
    let reference = refs.newest(tree, x)?;
    tree.parent(reference)
}
