use super::writes_each;
use std::test::Fail;
use text_forms::read_name;
use tree_specs::{Call, Obj, Owner, Version};

// The request that the calls are about.
const X: Obj = Obj(9);

// Calls on requests, as they are written.
pub(super) const CALLS: &str = "\
req 0 0 ~
req 18446744073709551615 18446744073709551615 a-b
callback 9 0 0
callback 9 4294967295 18446744073709551615
defer 9 0
defer 9 18446744073709551615
cleanup 9 0
cleanup 9 4294967295
setcancel 9 0
setcancel 9 4294967295
cancel 9
post 9 0
post 9 7
done 9
error 9 0
error 9 18446744073709551615
oom 9
iserror 9
progress 9
endtime 9 0 0
endtime 9 4611686018427387904 0
endtime 9 5 7
received 18446744073709551615
";

// Lines that are no call on a request.
pub(super) const NO_CALLS: &str = "\
req 7 10
req 7 a-b
req 7 010 a-b
req 7 10 a b
request 7 10 a-b
callback 9 16
callback 9 16 0 0
callback 9 4294967296 0
callback 9 16 18446744073709551616
call_back 9 16 0
defer
defer 9
defer 9 00
defer 9 18446744073709551616
defer 9 0 0
cleanup 9
cleanup 9 017
cleanup 9 4294967296
cleanup 9 17 0
setcancel 9
setcancel 9 4294967296
set_cancel 9 18
cancel
cancel 9 18
post x
done 9 0
done09
error 9
error 9 -1
error 9 18446744073709551616
error 9 5 5
oom 9 9
iserror
Iserror 9
progress 09
endtime 9
endtime 9 5
endtime 9 5 07
endtime 9 4611686018427387905 0
endtime 4611686018427387904 0
received
received 9 0
req 7 10\x20
done 9\x20
\x20done 9
error 9\x20
";

#[test]
fn writes_calls_that_make_and_prepare(rt: HostRuntime) -> Result<(), Fail> {
    let req = Call::Req {
        owner: Owner::Of(Obj(7)),
        size: 10,
        name: read_name(rt.alloc(), b"a-b", Version::Two)?,
    };
    let callback = Call::Callback {
        x: X,
        routine: 16,
        user: 42,
    };
    let cleanup = Call::Cleanup { x: X, routine: 17 };
    let cancel = Call::Setcancel { x: X, routine: 18 };
    let defer = Call::Defer {
        x: X,
        context: Obj(7),
    };
    let endtime = Call::Endtime {
        x: X,
        time: 30,
        context: Obj(8),
    };
    let cases = [
        (req, b"req 7 10 a-b".as_slice()),
        (callback, b"callback 9 16 42".as_slice()),
        (defer, b"defer 9 7".as_slice()),
        (cleanup, b"cleanup 9 17".as_slice()),
        (cancel, b"setcancel 9 18".as_slice()),
        (endtime, b"endtime 9 30 8".as_slice()),
    ];
    writes_each(&rt, rt.alloc(), &cases)
}

#[test]
fn writes_calls_that_end_and_tell(rt: HostRuntime) -> Result<(), Fail> {
    let post = Call::Post {
        x: X,
        context: Obj::first_context(),
    };
    let cases = [
        (Call::Cancel { x: X }, b"cancel 9".as_slice()),
        (post, b"post 9 0".as_slice()),
        (Call::Done { x: X }, b"done 9".as_slice()),
        (Call::Error { x: X, error: 5 }, b"error 9 5".as_slice()),
        (Call::Oom { x: X }, b"oom 9".as_slice()),
        (Call::Iserror { x: X }, b"iserror 9".as_slice()),
        (Call::Progress { x: X }, b"progress 9".as_slice()),
        (Call::Received { x: X }, b"received 9".as_slice()),
    ];
    writes_each(&rt, rt.alloc(), &cases)
}
