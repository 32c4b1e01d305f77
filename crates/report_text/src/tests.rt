ghost use Rattle.std.specs.Prelude.{◌<◌};
ghost use Rattle.tree_specs.specs.Calls.Refusals.{size_limit};

use super::*;
use outside::{Done, FineSink, Sink};
use references::{Refs, refer};
use std::alloc::Global;
use std::marker::Model;
use std::process::Abort;
use std::test::Fail;
use tree_links::{NewRow, Tree};
use tree_report::{count, total};
use tree_specs::{Kind, Memory, Name, Obj, Owner};

// A tree, and the references among its rows.
#[derive(Drop)]
struct World {
    tree: Tree,
    refs: Refs,
}

impl Model for World {
    ghost use Rattle.tree_links.specs.Links.{Links};
    ghost use Rattle.references.specs.Pairs.{Pairs};
    ghost use Rattle.references.specs.Rows.{AreRefsOf};

    ghost Value = { Links × Pairs };

    ghost view = { λ w. (w.tree, w.refs) };

    ghost invariant = { λ w. AreRefsOf w.refs.pairs w.tree.rows };
}

impl World {
    fn new(alloc: Global) -> World {
        World {
            tree: Tree::new(alloc, 1),
            refs: Refs::new(alloc),
        }
    }

    // Adds a plain object.
    fn add(
        &mut self,
        rt: &impl Abort,
        alloc: Global,
        name: &str,
        size: u64,
        owner: Owner,
    ) -> Result<Obj, Fail>
        requires { size < size_limit }
    {
        let name = Name::make(alloc, name.as_bytes())?.expect(rt, "a name");
        let row = NewRow {
            kind: Kind::Plain,
            name,
            size,
        };
        self.tree.reserve(1)?;
        assert!(rt; self.tree.len() < 1_048_576);
        assert!(rt; self.tree.next_number() < u64::MAX);
        assert!(rt; self.tree.is_owner(owner));
        Ok(self.tree.add(row, owner))
    }

    // Adds a reference.
    fn refer(&mut self, rt: &impl Abort, target: Obj, owner: Owner) -> Result<Obj, Fail> {
        self.tree.reserve(1)?;
        self.refs.reserve(1)?;
        assert!(rt; self.tree.len() < 1_048_576);
        assert!(rt; self.tree.next_number() < u64::MAX);
        assert!(rt; self.tree.is_owner(owner));
        Ok(refer(target, owner, &mut self.tree, &mut self.refs))
    }

    fn report<K: Sink>(&self, alloc: Global, from: Owner, out: &mut K) -> Result<Done, Memory> {
        report(alloc, &self.tree, &self.refs, from, out)
    }
}

// The root owns 1 and 5, 1 owns 2 and 4, and 2 owns 3.
fn add_five(rt: &impl Abort, alloc: Global, world: &mut World) -> Result<(), Fail> {
    let top = world.add(rt, alloc, "top", 10, Owner::Root)?;
    let left = world.add(rt, alloc, "left", 200, Owner::Of(top))?;
    world.add(rt, alloc, "leaf", 3_000, Owner::Of(left))?;
    world.add(rt, alloc, "right", 40_000, Owner::Of(top))?;
    world.add(rt, alloc, "aside", 500_000, Owner::Root)?;
    Ok(())
}

// The report of an owner has these lines.
fn expect_report(
    rt: &impl Abort,
    alloc: Global,
    world: &World,
    from: Owner,
    want: &[u8],
) -> Result<(), Fail> {
    let mut out = FineSink::new(alloc, 0)?;
    let done = world.report(alloc, from, &mut out)?;
    assert_eq!(rt; done, Done::Done);
    assert_eq!(rt; out.held(), want);
    Ok(())
}

const REFERENCES: &[u8] =
    b"row 0 1 plain 10 1 0 top\nrow 1 7 reference 0 0 2 reference\nrow 1 4 plain 40000 0 0 right\nrow 1 2 plain 200 2 0 left\nrow 2 3 plain 3000 0 0 leaf\n";

// The object that two references refer to shows how many they are, and a reference shows what it refers to.
#[test]
fn references_are_shown_and_counted(rt: HostRuntime) -> Result<(), Fail> {
    let mut world = World::new(rt.alloc());
    show_references(&rt, rt.alloc(), &mut world)
}

fn show_references(rt: &impl Abort, alloc: Global, world: &mut World) -> Result<(), Fail> {
    add_five(rt, alloc, world)?;
    world.refer(rt, Obj(2), Owner::Of(Obj(5)))?;
    world.refer(rt, Obj(2), Owner::Of(Obj(1)))?;
    world.refer(rt, Obj(1), Owner::Of(Obj(5)))?;
    expect_report(rt, alloc, world, Owner::Of(Obj(1)), REFERENCES)?;
    assert_eq!(rt; total(&world.tree, Owner::Root), 543_210);
    assert_eq!(rt; count(&world.tree, Owner::Root), 5);
    Ok(())
}
