//! Lines that are read.

use std::process::Abort;
use std::test::Fail;
use transcript_lines::{Fact, Said, read_line};
use tree_specs::{Obj, Owner};

// None of these lines is one of a transcript.
fn reads_none(rt: &impl Abort, lines: &[&[u8]]) {
    for line in lines {
        assert!(rt; read_line(line).is_none());
    }
}

#[test]
fn lines_say_what_came_of_objects(rt: HostRuntime) -> Result<(), Fail> {
    assert!(rt;
        matches!(
            read_line(b"freed 7 16"),
            Some(Said::Tells(Fact::Frees(Obj(7), 16)))
        )
    );
    assert!(rt;
        matches!(
            read_line(b"moved 7 0"),
            Some(Said::Tells(Fact::Moves(Obj(7), Owner::Root)))
        )
    );
    assert!(rt;
        matches!(
            read_line(b"reply no 5 2 3"),
            Some(Said::Tells(Fact::RefusesCall(Obj(2), 3)))
        )
    );
    assert!(rt;
        matches!(
            read_line(b"ask hook 4 16 0 0 0 0"),
            Some(Said::Tells(Fact::Asks(Obj(4))))
        )
    );
    assert!(rt; matches!(read_line(b"reply rows 2"), Some(Said::Rows(2))));
    assert!(rt;
        matches!(
            read_line(b"row 0 0 root 0 0 0 null_context"),
            Some(Said::Row)
        )
    );
    assert!(rt; matches!(read_line(b"row 1 7 context 0 0 0 tevent"), Some(Said::Row)));
    assert!(rt;
        matches!(
            read_line(b"end write 5 0aff"),
            Some(Said::Ends(Fact::Nothing))
        )
    );
    Ok(())
}

#[test]
fn other_lines_are_none(rt: HostRuntime) -> Result<(), Fail> {
    reads_none(
        &rt,
        &[
            b"reply 01",
            b"reply 18446744073709551616",
            b"freed 1 4294967296",
            b"ask quiet",
            b"end write 5 0AFF",
            b"reply ok ",
            b"row 1 7 contexts 0 0 0 tevent",
            b"",
        ],
    );
    Ok(())
}
