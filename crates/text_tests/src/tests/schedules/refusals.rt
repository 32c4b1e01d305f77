use super::{replied, writes};
use std::test::Fail;
use tree_specs::{Event, Obj, Owner, Refusal, Reply};

fn refused(why: Refusal) -> Event {
    replied(Reply::No(why))
}

#[test]
fn writes_refusals_of_objects(rt: HostRuntime) -> Result<(), Fail> {
    let object = Obj(3);
    let below = Owner::Of(Obj(2));
    let not_parent = |owner| refused(Refusal::NotParent { object, owner });
    let in_loop = refused(Refusal::Loop {
        object,
        owner: below,
    });
    let by_hook = refused(Refusal::Refused {
        object: Obj(2),
        answer: 3,
    });
    let in_state = refused(Refusal::BadState { object, state: 2 });
    writes(
        &rt,
        rt.alloc(),
        &[
            (refused(Refusal::NoSuch(7)), b"reply no 1 7\n".as_slice()),
            (
                refused(Refusal::WrongKind(object)),
                b"reply no 2 3\n".as_slice(),
            ),
            (
                refused(Refusal::Running(object)),
                b"reply no 3 3\n".as_slice(),
            ),
            (refused(Refusal::Held(object)), b"reply no 4 3\n".as_slice()),
            (by_hook, b"reply no 5 2 3\n".as_slice()),
            (not_parent(below), b"reply no 6 3 2\n".as_slice()),
            (not_parent(Owner::Root), b"reply no 6 3 0\n".as_slice()),
            (in_loop, b"reply no 7 3 2\n".as_slice()),
            (
                refused(Refusal::Dying(object)),
                b"reply no 8 3\n".as_slice(),
            ),
            (in_state, b"reply no 13 3 2\n".as_slice()),
        ],
    )
}

#[test]
fn writes_refusals_of_what_is_wanted(rt: HostRuntime) -> Result<(), Fail> {
    let over_limit = refused(Refusal::OverLimit {
        row: Obj(1),
        sum: 300,
        wanted: 96,
        limit: 300,
    });
    writes(
        &rt,
        rt.alloc(),
        &[
            (over_limit, b"reply no 9 1 300 96 300\n".as_slice()),
            (
                refused(Refusal::Full(1_048_576)),
                b"reply no 10 1048576\n".as_slice(),
            ),
            (refused(Refusal::Spent), b"reply no 11\n".as_slice()),
            (refused(Refusal::InUse(6)), b"reply no 12 6\n".as_slice()),
            (
                refused(Refusal::TooBig(268_435_456)),
                b"reply no 14 268435456\n".as_slice(),
            ),
            (refused(Refusal::Nested), b"reply no 15\n".as_slice()),
        ],
    )
}
