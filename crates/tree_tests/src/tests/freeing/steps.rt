use super::World;
use tree_specs::{FreeReply, FreeStep, Obj, Owner};

fn left(x: u64, from: Owner) -> FreeStep {
    let object = Obj(x);
    FreeStep::Left { object, from }
}

fn gone(x: u64, hook: u32) -> FreeStep {
    let object = Obj(x);
    FreeStep::Gone { object, hook }
}

fn moved(x: u64, from: Owner, owner: Owner) -> FreeStep {
    let object = Obj(x);
    FreeStep::Moved {
        object,
        from,
        owner,
    }
}

// 1 owns 2, which has a destructor.
#[test]
fn a_destructor_accepts(rt: HostRuntime) {
    let mut world = World::new(rt.alloc());
    let top = world.add(&rt, Owner::Root);
    let child = world.add(&rt, Owner::Of(top));
    world.hook(&rt, child);
    world.free(&rt, top);
    assert_eq!(rt; world.lets_go(), Some(top));
    assert!(rt; world.event(&rt) == left(1, Owner::Root));
    assert_eq!(rt; world.lets_go(), None);
    assert_eq!(rt; world.ask(&rt, 0), child);
    let accepted = FreeStep::Accepted(child);
    assert!(rt; world.event(&rt) == accepted);
    assert!(rt; world.event(&rt) == left(2, Owner::Of(top)));
    assert!(rt; world.event(&rt) == gone(2, 16));
    assert!(rt; world.event(&rt) == gone(1, 0));
    assert_eq!(rt; world.done(&rt), FreeReply::Ok);
    assert!(rt; world.tree.is_empty());
    drop(world);
}

// 1 owns 2, and 2 owns 3, which has a destructor.
#[test]
fn a_child_that_refuses_goes_to_its_heir(rt: HostRuntime) {
    let mut world = World::new(rt.alloc());
    let top = world.add(&rt, Owner::Root);
    let middle = world.add(&rt, Owner::Of(top));
    let bottom = world.add(&rt, Owner::Of(middle));
    world.hook(&rt, bottom);
    world.free(&rt, middle);
    assert!(rt; world.event(&rt) == left(2, Owner::Of(top)));
    assert_eq!(rt; world.ask(&rt, 7), bottom);
    let refused = FreeStep::Refused {
        object: bottom,
        answer: 7,
    };
    assert!(rt; world.event(&rt) == refused);
    let to_heir = moved(3, Owner::Of(middle), Owner::Of(top));
    assert!(rt; world.event(&rt) == to_heir);
    assert!(rt; world.event(&rt) == gone(2, 0));
    assert_eq!(rt; world.done(&rt), FreeReply::Ok);
    assert_eq!(rt; world.tree.parent(bottom), Some(Owner::Of(top)));
    assert_eq!(rt; world.tree.len(), 2);
    drop(world);
}

// The destructor of 1 frees 1.
#[test]
fn an_object_whose_destructor_runs_is_not_freed(rt: HostRuntime) {
    let mut world = World::new(rt.alloc());
    let top = world.add(&rt, Owner::Root);
    world.hook(&rt, top);
    world.free(&rt, top);
    world.nest(&rt, top);
    assert!(rt; !world.announces());
    let answer = world.done(&rt);
    assert_eq!(rt; answer, FreeReply::Running);
    assert_eq!(rt; world.tree.parent(top), Some(Owner::Root));
    drop(world);
}
