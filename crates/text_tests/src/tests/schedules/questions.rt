use super::octets;
use schedule_text::{write_answered, write_ask, write_end};
use std::alloc::Global;
use std::process::Abort;
use std::test::Fail;
use tree_specs::{Ask, Moment, Obj, Reply, What};

// A question, its text, its line once it was answered, and its line at the end.
type Case = (Ask, &'static [u8], &'static [u8], &'static [u8]);

// What an object's routine is asked, with its own number as its user number.
fn routine(what: What, object: u64) -> Ask {
    Ask::Routine(Moment {
        what,
        object: Obj(object),
        routine: 18,
        user: object,
        now: 0,
        flags: 0,
        step: 0,
        last: None,
    })
}

fn descriptor() -> Ask {
    Ask::Routine(Moment {
        what: What::Descriptor,
        object: Obj(1),
        routine: 2,
        user: 18_446_744_073_709_551_615,
        now: 4,
        flags: 5,
        step: 4_294_967_295,
        last: Some(Reply::Ok),
    })
}

// Each question is written in these three ways.
fn writes_each(rt: &impl Abort, alloc: Global, cases: &[Case]) -> Result<(), Fail> {
    for (ask, text, answered, end) in cases {
        let mut out = Vec::new(alloc);
        write_ask(ask, &mut out)?;
        assert_eq!(rt; out.as_slice(), *text);
        out.clear();
        write_answered(ask, &mut out)?;
        assert_eq!(rt; out.as_slice(), *answered);
        out.clear();
        write_end(ask, &mut out)?;
        assert_eq!(rt; out.as_slice(), *end);
    }
    Ok(())
}

#[test]
fn writes_what_routines_are_asked(rt: HostRuntime) -> Result<(), Fail> {
    let cases: [Case; 5] = [
        (
            routine(What::Timer, 3),
            b"timer 3 18 3 0 0 0",
            b"ask timer 3 18 3 0 0 0\n",
            b"end timer 3 18 3 0 0 0\n",
        ),
        (
            descriptor(),
            b"fd 1 2 18446744073709551615 4 5 4294967295",
            b"ask fd 1 2 18446744073709551615 4 5 4294967295\n",
            b"end fd 1 2 18446744073709551615 4 5 4294967295\n",
        ),
        (
            routine(What::Callback, 9),
            b"callback 9 18 9 0 0 0",
            b"ask callback 9 18 9 0 0 0\n",
            b"end callback 9 18 9 0 0 0\n",
        ),
        (
            routine(What::Cleanup, 2),
            b"cleanup 2 18 2 0 0 0",
            b"ask cleanup 2 18 2 0 0 0\n",
            b"end cleanup 2 18 2 0 0 0\n",
        ),
        (
            routine(What::Cancel, 0),
            b"cancel 0 18 0 0 0 0",
            b"ask cancel 0 18 0 0 0 0\n",
            b"end cancel 0 18 0 0 0 0\n",
        ),
    ];
    writes_each(&rt, rt.alloc(), &cases)
}

#[test]
fn writes_questions_to_the_outside(rt: HostRuntime) -> Result<(), Fail> {
    let bytes = octets(rt.alloc(), b"1 9\n")?;
    let cases: [Case; 6] = [
        (Ask::Quiet, b"quiet", b"", b"end quiet\n"),
        (Ask::Clock, b"clock", b"ask clock\n", b"end clock\n"),
        (
            Ask::Wait(30_000_000),
            b"wait 30000000",
            b"ask wait 30000000\n",
            b"end wait 30000000\n",
        ),
        (
            Ask::Accept(5),
            b"accept 5",
            b"ask accept 5\n",
            b"end accept 5\n",
        ),
        (
            Ask::Read(1, 4096),
            b"read 1 4096",
            b"ask read 1 4096\n",
            b"end read 1 4096\n",
        ),
        (
            Ask::Write(1, bytes),
            b"write 1 3120390a",
            b"ask write 1 3120390a\n",
            b"end write 1 3120390a\n",
        ),
    ];
    writes_each(&rt, rt.alloc(), &cases)
}
