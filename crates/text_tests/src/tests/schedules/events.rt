use super::writes;
use std::test::Fail;
use tree_specs::{Event, Obj, Owner, State, What};

fn fired(what: What) -> Event {
    Event::Fired {
        what,
        object: Obj(3),
        routine: 18,
    }
}

#[test]
fn writes_what_fired(rt: HostRuntime) -> Result<(), Fail> {
    writes(
        &rt,
        rt.alloc(),
        &[
            (fired(What::Hook), b"fired hook 3 18\n".as_slice()),
            (fired(What::Timer), b"fired timer 3 18\n".as_slice()),
            (fired(What::Immediate), b"fired immediate 3 18\n".as_slice()),
            (fired(What::Descriptor), b"fired fd 3 18\n".as_slice()),
            (fired(What::Callback), b"fired callback 3 18\n".as_slice()),
            (fired(What::Cleanup), b"fired cleanup 3 18\n".as_slice()),
            (fired(What::Cancel), b"fired cancel 3 18\n".as_slice()),
            (fired(What::Trigger), b"fired trigger 3 18\n".as_slice()),
        ],
    )
}

#[test]
fn writes_what_happens_to_objects(rt: HostRuntime) -> Result<(), Fail> {
    let moved = |owner| Event::Moved {
        object: Obj(2),
        owner,
    };
    writes(
        &rt,
        rt.alloc(),
        &[
            (Event::Accepted(Obj(2)), b"accepted 2\n".as_slice()),
            (
                Event::Refused {
                    object: Obj(4),
                    answer: 1,
                },
                b"refused 4 1\n".as_slice(),
            ),
            (moved(Owner::Root), b"moved 2 0\n".as_slice()),
            (moved(Owner::Of(Obj(7))), b"moved 2 7\n".as_slice()),
            (Event::Warned(Obj(2)), b"warned 2\n".as_slice()),
            (
                Event::Freed {
                    object: Obj(3),
                    hook: 4_294_967_295,
                },
                b"freed 3 4294967295\n".as_slice(),
            ),
            (
                Event::Unreferenced {
                    reference: Obj(4),
                    target: Obj(2),
                },
                b"unreferenced 4 2\n".as_slice(),
            ),
        ],
    )
}

#[test]
fn writes_what_happens_outside(rt: HostRuntime) -> Result<(), Fail> {
    writes(
        &rt,
        rt.alloc(),
        &[(Event::Closed(6), b"closed 6\n".as_slice())],
    )
}

#[test]
fn writes_what_happens_to_requests(rt: HostRuntime) -> Result<(), Fail> {
    let state = |state: State| Event::State {
        request: Obj(9),
        state: state.number(),
    };
    writes(
        &rt,
        rt.alloc(),
        &[
            (state(State::InProgress), b"state 9 1\n".as_slice()),
            (state(State::Done), b"state 9 2\n".as_slice()),
            (state(State::UserError), b"state 9 3\n".as_slice()),
            (state(State::TimedOut), b"state 9 4\n".as_slice()),
            (state(State::NoMemory), b"state 9 5\n".as_slice()),
            (state(State::Received), b"state 9 6\n".as_slice()),
        ],
    )
}
