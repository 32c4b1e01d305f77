//! Where a child goes that was not freed with its owner.
ghost use Rattle.std.specs.Prelude.{◌≡◌};
ghost use Rattle.tree_specs.specs.Tree.Heirs.{former_of, may_take as may_take_of, noted_taker as noted_taker_of, heir as heir_of};

use tree_links::Tree;
use tree_specs::{Mark, Obj, Owner};

/// The owner that an object has, or that it has left where it is dying.
fn former_owner(x: Obj, tree: &Tree) -> Owner
    ensures { result ≡ former_of tree.now.rows x }
{
    let Some(row) = tree.row(x) else {
        return Owner::Root;
    };
    match row.mark {
        Mark::Dying(former) => former,
        _ => row.owner.unwrap_or(Owner::Root),
    }
}

/// Whether an owner may take a child: it is the root, or an object that isn't inside the child.
fn may_take(child: Obj, owner: Owner, tree: &Tree) -> bool
    ensures { result ≡ may_take_of tree.now.rows child owner }
{
    match owner {
        Owner::Root => true,
        Owner::Of(_) => tree.is_owner(owner) && !tree.is_inside(owner, Owner::Of(child)),
    }
}

/// The owner that was noted, where it is an object that may take the child.
fn noted_taker(child: Obj, noted: Option<Owner>, tree: &Tree) -> Option<Owner>
    ensures { result ≡ noted_taker_of tree.now.rows child noted }
{
    match noted? {
        Owner::Root => None,
        owner if may_take(child, owner, tree) => Some(owner),
        Owner::Of(_) => None,
    }
}

/// The heir of a child of `x`, for which an owner may have been noted.
pub fn heir(x: Obj, child: Obj, noted: Option<Owner>, tree: &Tree) -> Owner
    ensures { result ≡ heir_of tree.now.rows x child noted }
{
    if let Some(owner) = noted_taker(child, noted, tree) {
        return owner;
    }
    let former = former_owner(x, tree);
    if may_take(child, former, tree) {
        former
    } else {
        Owner::Root
    }
}
