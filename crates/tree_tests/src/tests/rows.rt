ghost use Rattle.std.specs.Prelude.{◌≡◌, ◌≤◌, OnOk, not, ◌&&◌};
ghost use Rattle.tree_specs.specs.Tree.Pool.{is_row, is_dying as is_dying_row};

use std::alloc::Global;
use std::process::Abort;
use std::test::Fail;
use tree_links::{NewRow, Tree};
use tree_specs::{FreeFrame, Kind, Mark, Memory, Name, Obj, Owner};

// The work of a free that begins, told apart by its object.
fn begins(x: u64) -> FreeFrame {
    FreeFrame::Beginning { x: Obj(x) }
}

// The object whose free begins with this work.
fn begun(work: Option<FreeFrame>) -> Option<Obj> {
    match work {
        Some(FreeFrame::Beginning { x }) => Some(x),
        _ => None,
    }
}

// Begins so many frees, each inside the one before, in room that is there.
fn begin_frees(tree: &mut Tree, number: u64)
    requires { number ≤ tree.old.room }
    ensures { tree.new.spare ≡ tree.old.spare }
{
    for x in 0..number {
        tree.push_free(begins(x));
    }
}

// Adds a plain object for which memory is taken. What was there has its room.
fn add(rt: &impl Abort, tree: &mut Tree, alloc: Global, owner: Owner) -> Result<Obj, Fail>
    ensures { OnOk result (tree.old.room ≤ tree.new.room) }
{
    tree.reserve(1)?;
    let row = NewRow {
        kind: Kind::Plain,
        name: Name::make(alloc, b"a-b")?.expect(rt, "a name"),
        size: 0,
    };
    assert!(rt; tree.len() < 1_048_576);
    assert!(rt; tree.next_number() < u64::MAX);
    assert!(rt; tree.is_owner(owner));
    Ok(tree.add(row, owner))
}

// Whether it is an object that has not left its owner.
fn is_live(tree: &Tree, x: Obj) -> bool
    ensures { result ≡ (is_row tree.now.rows x && not (is_dying_row tree.now.rows x)) }
{
    match tree.row(x) {
        Some(row) => !matches!(row.mark, Mark::Dying(_)),
        None => false,
    }
}

// Whether it is an object that has left its owner.
fn is_dying(tree: &Tree, x: Obj) -> bool
    ensures { result ≡ (is_row tree.now.rows x && is_dying_row tree.now.rows x) }
{
    match tree.row(x) {
        Some(row) => matches!(row.mark, Mark::Dying(_)),
        None => false,
    }
}

// 1 owns 2, and there is room for the works of both, and for two more.
fn add_two_rows(rt: &impl Abort, alloc: Global, tree: &mut Tree) -> Result<(), Fail>
    ensures { OnOk result (4 ≤ tree.new.room) }
{
    let top = add(rt, tree, alloc, Owner::Root)?;
    add(rt, tree, alloc, Owner::Of(top))?;
    tree.reserve(0)?;
    assert!(rt; tree.len() == 2);
    Ok(())
}

// 1 owns 2, and there is no other row.
fn expect_two_rows(rt: &impl Abort, tree: &Tree) {
    assert_eq!(rt; tree.len(), 2);
    assert_eq!(rt; tree.next_number(), 3);
    assert_eq!(rt; tree.parent(Obj(1)), Some(Owner::Root));
    assert_eq!(rt; tree.parent(Obj(2)), Some(Owner::Of(Obj(1))));
}

// One work for each of the two rows that are there and of the three that can come, and two more.
#[test]
fn there_is_room_for_the_works_of_all_rows(rt: HostRuntime) -> Result<(), Fail> {
    let mut tree = Tree::new(rt.alloc(), 1);
    add_two_rows(&rt, rt.alloc(), &mut tree)?;
    assert_eq!(rt; tree.len(), 2);
    tree.reserve(3)?;
    begin_frees(&mut tree, 7);
    for x in [6, 5, 4, 3, 2, 1, 0] {
        assert_eq!(rt; begun(tree.pop_free()), Some(Obj(x)));
    }
    assert!(rt; tree.pop_free().is_none());
    Ok(())
}

#[test]
fn more_rows_than_there_is_memory_change_nothing(rt: HostRuntime) -> Result<(), Fail> {
    let mut tree = Tree::new(rt.alloc(), 1);
    add_two_rows(&rt, rt.alloc(), &mut tree)?;
    begin_frees(&mut tree, 1);
    for rows in [usize::MAX, usize::MAX - 2, usize::MAX - 4] {
        assert_eq!(rt; tree.reserve(rows), Err(Memory), "at {rows}");
        assert_eq!(rt; begun(tree.innermost_free()), Some(Obj(0)), "at {rows}");
        expect_two_rows(&rt, &tree);
    }
    Ok(())
}

// Each object goes before the next one comes, and each has the slot of the one before.
#[test]
fn a_slot_serves_one_row_after_another(rt: HostRuntime) -> Result<(), Fail> {
    let mut tree = Tree::new(rt.alloc(), 1);
    for n in 1..=1_000u64 {
        assert_eq!(rt; add(&rt, &mut tree, rt.alloc(), Owner::Root)?, Obj(n));
        assert!(rt; is_live(&tree, Obj(n)));
        tree.detach(Obj(n));
        assert!(rt; is_dying(&tree, Obj(n)));
        assert!(rt; tree.first_kid(Owner::Of(Obj(n))).is_none());
        tree.remove(Obj(n));
    }
    assert!(rt; tree.is_empty());
    Ok(())
}
