ghost use Rattle.std.specs.Prelude.{◌≤◌, ◌+◌};

use crate::Arena;
use std::test::Fail;

// Adds a value in room that is there, where the key isn't held.
fn put(arena: &mut Arena<u32>, key: u64, value: u32)
    requires { 1 ≤ arena.old.spare }
    ensures { arena.old.spare ≤ arena.new.spare + 1 }
{
    if arena.get(key).is_none() {
        arena.add(key, value);
    }
}

#[test]
fn a_value_that_was_taken_makes_room_for_the_next(rt: HostRuntime) -> Result<(), Fail> {
    let mut arena = Arena::new(rt.alloc());
    arena.reserve(2)?;
    put(&mut arena, 7, 70);
    put(&mut arena, 3, 30);
    assert_eq!(rt; arena.take(7), Some(70));
    arena.reserve(1)?;
    put(&mut arena, 9, 90);
    assert_eq!(rt; arena.get(9).copied(), Some(90));
    assert_eq!(rt; arena.get(3).copied(), Some(30));
    assert_eq!(rt; arena.get(7).copied(), None);
    assert_eq!(rt; arena.len(), 2);
    Ok(())
}

#[test]
fn running_out_of_memory_leaves_it_as_it_was(rt: HostRuntime) -> Result<(), Fail> {
    let mut arena = Arena::new(rt.alloc());
    arena.reserve(1)?;
    put(&mut arena, 7, 70);
    assert!(rt; arena.reserve(usize::MAX).is_err());
    assert_eq!(rt; arena.get(7).copied(), Some(70));
    assert_eq!(rt; arena.len(), 1);
    Ok(())
}

// Keys with the same last 20 bits, so that they stand in one tree.
#[test]
fn keys_with_the_same_last_bits_are_kept_apart(rt: HostRuntime) -> Result<(), Fail> {
    let mut arena = Arena::new(rt.alloc());
    let keys = [1, 0x10_0001, 0x20_0001, 0x30_0001, 0x50_0001];
    arena.reserve(keys.len())?;
    for (value, key) in (0u32..).zip(keys) {
        arena.reserve(1)?;
        put(&mut arena, key, value);
    }
    assert_eq!(rt; arena.take(0x10_0001), Some(1));
    assert_eq!(rt; arena.get(0x10_0001).copied(), None);
    assert_eq!(rt; arena.get(0x30_0001).copied(), Some(3));
    assert_eq!(rt; arena.get(0x50_0001).copied(), Some(4));
    assert_eq!(rt; arena.get(0x40_0001).copied(), None);
    assert_eq!(rt; arena.len(), 4);
    Ok(())
}
