use super::writes_each;
use std::test::Fail;
use text_forms::read_name;
use tree_specs::{Call, Obj, Owner, Version};

// The queue that the calls are about.
const QUEUE: Obj = Obj(9);

// Calls on queues, as they are written.
pub(super) const CALLS: &str = "\
queue 0 ~
queue 18446744073709551615 a-b
enqueue 9 3 1 0 0
enqueue 18446744073709551615 3 4294967295 18446744073709551615 0
enqueue 9 3 16 42 18446744073709551615
start 9
stop 9
length 9
running 18446744073709551615
";

// Lines that are no call on a queue.
pub(super) const NO_CALLS: &str = "\
queue 7
queue a-b
queue 7 10 a-b
queue 07 a-b
enqueue 9 3 16
enqueue 9 3 0 42 0
enqueue 9 3 16 42
enqueue 9 3 16 42 01
enqueue 9 3 16 42 0 0
enqueue 9 3 4294967296 42 0
enqueue 9 03 16 42 0
start
start 9 1
start x
stop 9 0
length
length 09
lengths 9
running
running 9 1
Running 9
queue 7\x20
start 9\x20
\x20stop 9
";

#[test]
fn writes_each_call(rt: HostRuntime) -> Result<(), Fail> {
    let make = Call::Queue {
        owner: Owner::Of(Obj(7)),
        name: read_name(rt.alloc(), b"a-b", Version::Two)?,
    };
    let enqueue = Call::Enqueue {
        queue: QUEUE,
        x: Obj(3),
        routine: 16,
        user: 42,
        context: Obj(7),
    };
    let cases = [
        (make, b"queue 7 a-b".as_slice()),
        (enqueue, b"enqueue 9 3 16 42 7".as_slice()),
        (Call::Start { queue: QUEUE }, b"start 9".as_slice()),
        (Call::Stop { queue: QUEUE }, b"stop 9".as_slice()),
        (Call::Length { queue: QUEUE }, b"length 9".as_slice()),
        (Call::Running { queue: QUEUE }, b"running 9".as_slice()),
    ];
    writes_each(&rt, rt.alloc(), &cases)
}
