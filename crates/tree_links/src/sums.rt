//! Sums over what is inside an owner: of sizes, of objects, and of what counts against a limit.
ghost use Rattle.std.specs.Prelude.{◌≡◌, ◌<◌, Some};
ghost use Rattle.std.specs.Option.{option_copied};
ghost use Rattle.tree_specs.specs.Tree.Inside.{size_inside, count_inside};
ghost use Rattle.tree_specs.specs.declared.row.Row.{Row as RowData};
ghost use Rattle.tree_specs.specs.Tree.Walks.{own_row, own};
ghost use Rattle.tree_specs.specs.Calls.Refusals.{size_limit};
ghost use Rattle.tree_specs.specs.Tree.Sums.{sum_inside};
ghost use Rattle.tree_links.specs.Links.{IsTree};
ghost use Rattle.tree_links.specs.Weights.{weighed, inside_weight};

use crate::tree::Tree;
use tree_specs::{Kind, OVERHEAD, Owner, Row};

/// The row of an owner. None where it is the root, or no object.
fn row_of(tree: &Tree, owner: Owner) -> Option<&Row>
    ensures row { option_copied result ≡ own_row tree.now.rows owner }
    ensures small { (row : RowData) → own_row tree.now.rows owner ≡ Some row → row.size < size_limit }
{
    match owner {
        Owner::Root => None,
        Owner::Of(x) => tree.row(x),
    }
}

/// What of an object is summed.
#[derive(Clone, Copy)]
enum Weight {
    /// Its size in bytes.
    Size,
    /// 1, but nothing for a reference.
    Number,
    /// What it counts against a limit, in bytes.
    Charge,
}

/// What an object weighs, by its row.
fn weigh(row: &Row, what: Weight) -> u64
    requires { row.now.size < size_limit }
    ensures { result ≡ weighed what row.now }
{
    match (what, row.kind) {
        (Weight::Size, _) => row.size,
        (Weight::Number | Weight::Charge, Kind::Reference { .. }) => 0,
        (Weight::Number, _) => 1,
        (Weight::Charge, _) => row.size + OVERHEAD,
    }
}

/// The weight of an owner by itself. It is 0 where it is no object.
fn own_weight(tree: &Tree, owner: Owner, what: Weight) -> u64
    ensures { result ≡ own (weighed what) tree.now.rows owner }
{
    match row_of(tree, owner) {
        None => 0,
        Some(row) => weigh(row, what),
    }
}

/// The weights of all that is inside an owner together. Most objects own nothing, and need no walk.
fn sum_inside_of(tree: &Tree, from: Owner, what: Weight) -> u64
    ensures sum { result ≡ inside_weight (weighed what) tree.now.rows from }
    ensures sound { IsTree tree.now.rows tree.now.next }
{
    let places = tree.walk(from);
    if tree.first_kid(from).is_none() {
        return own_weight(tree, from, what);
    }
    places
        .map(|place| own_weight(tree, place.owner, what))
        .sum()
}

/// The sum of the sizes, in bytes, of an object and of all that it owns, and of all that these own, or of all that is
/// below the root, as `talloc_total_size` gives it. It is 0 where there is no such object.
pub fn total(tree: &Tree, from: Owner) -> u64
    ensures { result ≡ size_inside tree.now.rows from }
{
    sum_inside_of(tree, from, Weight::Size)
}

/// How many objects there are: an object and all that it owns, and all that these own, or all that is below the root,
/// as `talloc_total_blocks` gives it. References are not counted. It is 0 where there is no such object.
pub fn count(tree: &Tree, from: Owner) -> u64
    ensures { result ≡ count_inside tree.now.rows from }
{
    sum_inside_of(tree, from, Weight::Number)
}

/// What the objects inside an owner count against its limit (`talloc_set_memlimit`), in bytes: each its size and
/// `OVERHEAD` more, a reference nothing. It is 0 where there is no such owner.
pub fn sum(tree: &Tree, from: Owner) -> u64
    ensures { result ≡ sum_inside tree.now.rows from }
{
    sum_inside_of(tree, from, Weight::Charge)
}
