use crate::LaneEnds;
use std::test::Fail;

// Adds a lane where there is none under the number.
fn open(lanes: &mut LaneEnds, lane: u64) -> Result<(), Fail> {
    lanes.reserve(1)?;
    if lanes.get(lane).is_none() {
        lanes.add_lane(lane);
    }
    Ok(())
}

// Lets one join a lane. Answers whether there is such a lane, and can be one more in it.
fn join(lanes: &mut LaneEnds, lane: u64, x: u64) -> bool {
    let Some(ends) = lanes.get(lane) else {
        return false;
    };
    if ends.count == usize::MAX {
        return false;
    }
    lanes.set(lane, ends.joined(x));
    true
}

// The one that joined a lane last, and how many stand in it.
fn newest(lanes: &LaneEnds, lane: u64) -> Option<(Option<u64>, usize)> {
    let ends = lanes.get(lane)?;
    Some((ends.newest, ends.count))
}

#[test]
fn lane_0_needs_no_memory(rt: HostRuntime) -> Result<(), Fail> {
    let mut lanes = LaneEnds::new(rt.alloc());
    assert!(rt; join(&mut lanes, 0, 7));
    assert_eq!(rt; newest(&lanes, 0), Some((Some(7), 1)));
    assert_eq!(rt; newest(&lanes, 5), None);
    Ok(())
}

#[test]
fn each_lane_has_its_ends(rt: HostRuntime) -> Result<(), Fail> {
    let mut lanes = LaneEnds::new(rt.alloc());
    open(&mut lanes, 5)?;
    assert!(rt; join(&mut lanes, 5, 9));
    assert!(rt; join(&mut lanes, 5, 3));
    assert_eq!(rt; newest(&lanes, 5), Some((Some(3), 2)));
    assert_eq!(rt; newest(&lanes, 0), Some((None, 0)));
    lanes.drop_lane(5);
    assert_eq!(rt; newest(&lanes, 5), None);
    assert!(rt; !join(&mut lanes, 5, 1));
    Ok(())
}
