ghost use Rattle.std.specs.Prelude.{◌≡◌, ◌<◌, [], IfOk};
ghost use Rattle.tree_specs.specs.Calls.Refusals.{size_limit};
ghost use Rattle.tree_specs.specs.Tree.Pool.{is_row};

use crate::Sums;
use std::alloc::Global;
use std::marker::Model;
use std::process::Abort;
use std::test::Fail;
use tree_links::{NewRow, Tree};
use tree_specs::{Kind, Name, Obj, Owner, Refusal};

// Objects, and their limits.
#[derive(Drop)]
struct World {
    tree: Tree,
    sums: Sums,
}

impl Model for World {
    ghost use Rattle.tree_links.specs.Links.{Links};
    ghost use Rattle.memory_limits.specs.Limits.{Limits, AreLimitsOf};

    ghost Value = { Links × Limits };

    ghost view = { λ w. (w.tree, w.sums) };

    ghost invariant = { λ w. AreLimitsOf w.sums.limited w.tree.rows };
}

impl World {
    fn new(alloc: Global) -> World
        ensures { result.1.limited ≡ [] }
    {
        World {
            tree: Tree::new(alloc, 1),
            sums: Sums::new(alloc),
        }
    }

    // Adds a plain object, while no object has a limit.
    fn add(&mut self, rt: &impl Abort, alloc: Global, size: u64, owner: Owner) -> Result<Obj, Fail>
        requires unlimited { self.old.1.limited ≡ [] }
        requires small { size < size_limit }
        ensures { self.new.1.limited ≡ [] }
    {
        self.tree.reserve(1)?;
        let row = NewRow {
            kind: Kind::Plain,
            name: Name::make(alloc, b"a")?.expect(rt, "a name"),
            size,
        };
        assert!(rt; self.tree.len() < 1_048_576);
        assert!(rt; self.tree.next_number() < u64::MAX);
        assert!(rt; self.tree.is_owner(owner));
        Ok(self.tree.add(row, owner))
    }

    fn limit(&mut self, rt: &impl Abort, x: Obj, max: u64) -> Result<(), Fail> {
        self.sums.reserve(1)?;
        assert!(rt; is_object(&self.tree, x));
        self.tree.set_limit(x, max);
        self.sums.set_limit(&self.tree, x, max);
        Ok(())
    }

    fn fits(&self, owner: Owner, wanted: u64) -> Result<(), Refusal> {
        self.sums.fits(&self.tree, owner, wanted)
    }

    fn sum(&self, owner: Owner) -> u64 {
        self.sums.sum(&self.tree, owner)
    }
}

// The root owns 1, 1 owns 2, and 2 owns 3. They count 106, 116 and 126 bytes.
fn three(rt: &impl Abort, alloc: Global) -> Result<World, Fail>
    ensures { IfOk result (λ world. world.1.limited ≡ []) }
{
    let mut world = World::new(alloc);
    let top = world.add(rt, alloc, 10, Owner::Root)?;
    let middle = world.add(rt, alloc, 20, Owner::Of(top))?;
    world.add(rt, alloc, 30, Owner::Of(middle))?;
    Ok(world)
}

// Whether there is such an object.
fn is_object(tree: &Tree, x: Obj) -> bool
    ensures { result ≡ is_row tree.now.rows x }
{
    tree.row(x).is_some()
}

#[test]
fn a_limit_bounds_what_is_inside(rt: HostRuntime) -> Result<(), Fail> {
    let mut world = three(&rt, rt.alloc())?;
    assert_eq!(rt; world.sum(Owner::Of(Obj(1))), 348);
    world.limit(&rt, Obj(1), 400)?;
    assert_eq!(rt; world.sum(Owner::Of(Obj(1))), 348);
    assert_eq!(rt; world.fits(Owner::Of(Obj(3)), 52), Ok(()));
    assert!(rt; world.fits(Owner::Of(Obj(3)), 53).is_err());
    assert_eq!(rt; world.fits(Owner::Root, 53), Ok(()));
    Ok(())
}

#[test]
fn the_nearest_above_without_room_is_named(rt: HostRuntime) -> Result<(), Fail> {
    let mut world = three(&rt, rt.alloc())?;
    world.limit(&rt, Obj(1), 358)?;
    world.limit(&rt, Obj(2), 300)?;
    let top = Refusal::OverLimit {
        row: Obj(1),
        sum: 348,
        wanted: 11,
        limit: 358,
    };
    assert_eq!(rt; world.fits(Owner::Of(Obj(3)), 10), Ok(()));
    assert_eq!(rt; world.fits(Owner::Of(Obj(3)), 11), Err(top));
    let middle = Refusal::OverLimit {
        row: Obj(2),
        sum: 242,
        wanted: 59,
        limit: 300,
    };
    assert_eq!(rt; world.fits(Owner::Of(Obj(3)), 59), Err(middle));
    Ok(())
}

#[test]
fn a_limit_is_taken_away(rt: HostRuntime) -> Result<(), Fail> {
    let mut world = three(&rt, rt.alloc())?;
    world.limit(&rt, Obj(2), 242)?;
    assert!(rt; world.fits(Owner::Of(Obj(2)), 1).is_err());
    world.limit(&rt, Obj(2), 243)?;
    assert_eq!(rt; world.fits(Owner::Of(Obj(2)), 1), Ok(()));
    world.limit(&rt, Obj(2), 0)?;
    assert_eq!(rt; world.fits(Owner::Of(Obj(2)), u64::MAX), Ok(()));
    assert_eq!(rt; world.sum(Owner::Of(Obj(2))), 242);
    Ok(())
}

// A hundred objects side by side, each with room for ten bytes more than its number.
#[test]
fn many_limits_are_told_apart(rt: HostRuntime) -> Result<(), Fail> {
    let mut world = World::new(rt.alloc());
    for _ in 0..100 {
        world.add(&rt, rt.alloc(), 4, Owner::Root)?;
    }
    for number in 1..101 {
        world.limit(&rt, Obj(number), 110 + number)?;
    }
    for number in 1..101 {
        let owner = Owner::Of(Obj(number));
        assert_eq!(rt; world.fits(owner, 10 + number), Ok(()));
        assert!(rt; world.fits(owner, 11 + number).is_err());
    }
    Ok(())
}
