//! What the sums are told, after the objects have changed.
ghost use Rattle.std.specs.Prelude.{◌≡◌, ◌≤◌, ◌<◌, ◌^◌, ◌+◌, ◌-◌, true, None, length};
ghost use Rattle.tree_specs.specs.Tree.Pool.{row_of, is_owner, add as added};
ghost use Rattle.tree_specs.specs.Calls.Refusals.{row_limit, size_limit};
ghost use Rattle.tree_links.specs.Links.{pool_of, works_of};
ghost use Rattle.memory_limits.specs.Limits.{AreLimitsOf};
ghost use Rattle.object_pool.specs.Counting.{WasAdded, WentFrom, WasCounted};

use memory_limits::Sums;
use tree_links::{NewRow, Tree};
use tree_specs::{FreeStep, Kind, Name, Obj, Owner};

/// Counts a new object.
pub fn count_added(x: Obj, tree: &Tree, sums: &mut Sums)
    requires { WasAdded x sums.old.limited tree.now.rows }
    ensures kept { AreLimitsOf sums.new.limited tree.now.rows }
    ensures spare { sums.new.spare ≡ sums.old.spare }
{
    // Read for the prover: the contract of `len` says that each number stands once.
    let _rows = tree.len();
    sums.joined(tree, x);
}

/// Adds an object as the newest child of an owner, and gives its number.
pub fn add_row(
    kind: Kind,
    name: Name,
    size: u64,
    owner: Owner,
    tree: &mut Tree,
    sums: &mut Sums,
) -> Obj
    requires room { 0 < tree.old.spare }
    requires few { length tree.old.rows < row_limit }
    requires small { size < size_limit }
    requires numbered { tree.old.next < 2 ^ 64 - 1 }
    requires owner { is_owner tree.old.rows owner ≡ true }
    requires limits { AreLimitsOf sums.old.limited tree.old.rows }
    ensures serial { result ≡ record { 0 = tree.old.next } }
    ensures fresh { row_of tree.old.rows result ≡ None }
    ensures rows { pool_of tree.new ≡ added (pool_of tree.old) kind owner size name }
    ensures works { works_of tree.new ≡ works_of tree.old }
    ensures limits { AreLimitsOf sums.new.limited tree.new.rows }
    ensures spare { sums.new.spare ≡ sums.old.spare }
    ensures places { tree.old.spare ≤ tree.new.spare + 1 }
{
    let added = tree.add(NewRow { kind, name, size }, owner);
    count_added(added, tree, sums);
    added
}

/// Counts that an object went from an owner, or from none, to another one.
pub fn count_went(x: Obj, from: Option<Owner>, tree: &Tree, sums: &mut Sums)
    requires { WentFrom x from sums.old.limited tree.now.rows }
    ensures kept { AreLimitsOf sums.new.limited tree.now.rows }
    ensures spare { sums.new.spare ≡ sums.old.spare }
{
    if let Some(from) = from {
        sums.left(tree, x, from);
    }
    sums.joined(tree, x);
}

/// Counts a step of a free.
pub fn count_step(step: &FreeStep, tree: &Tree, sums: &mut Sums)
    requires { WasCounted step.now sums.old.limited tree.now.rows }
    ensures kept { AreLimitsOf sums.new.limited tree.now.rows }
    ensures spare { sums.old.spare ≤ sums.new.spare }
{
    match step {
        FreeStep::Left { object, from } => sums.left(tree, *object, *from),
        FreeStep::Moved { object, from, .. } => count_went(*object, Some(*from), tree, sums),
        FreeStep::Dropped { reference, .. } => sums.gone(*reference),
        FreeStep::Gone { object, .. } => sums.gone(*object),
        _ => {}
    }
}
