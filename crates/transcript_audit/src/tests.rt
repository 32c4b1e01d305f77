//! Transcripts that are audited, in pieces of some bytes.
ghost use Rattle.std.specs.Prelude.{◌≤◌};

use super::*;
use outside::MemSource;
use std::alloc::Global;
use std::process::Abort;
use std::test::Fail;

// The text is given so many bytes at a time, and these reads fail.
fn audit_of(alloc: Global, text: &[u8], most: u32, fails: &[u64]) -> Result<Audited, Fail>
    requires { 1 ≤ most }
{
    let mut input = MemSource::new(text.to_vec(alloc)?, most, fails.to_vec(alloc)?);
    Ok(audit(alloc, &mut input))
}

// It is answered so, whether the text comes as a whole or byte by byte.
fn answers(rt: &impl Abort, alloc: Global, text: &[u8], want: Audited) -> Result<(), Fail> {
    assert_eq!(rt; audit_of(alloc, text, 4096, &[])?, want);
    assert_eq!(rt; audit_of(alloc, text, 1, &[])?, want);
    Ok(())
}

fn broken(line: u64, rule: u32) -> Audited {
    Audited::Broken { line, rule }
}

#[test]
fn orderly_transcripts_have_so_many_lines(rt: HostRuntime) -> Result<(), Fail> {
    answers(
        &rt,
        rt.alloc(),
        b"tv transcript 1\nend quiet\n",
        Audited::Orderly(2),
    )?;
    answers(
        &rt,
        rt.alloc(),
        b"tv transcript 1\nreply 1\nask hook 1 16 0 0 0 0\naccepted 1\nfreed 1 16\nreply ok\nend quiet\n",
        Audited::Orderly(7),
    )?;
    answers(
        &rt,
        rt.alloc(),
        b"tv transcript 1\nrow 0 0 root 0 0 0 null_context\nreply rows 1\nend wait 30000000\n",
        Audited::Orderly(4),
    )
}

#[test]
fn the_first_broken_rule_is_told(rt: HostRuntime) -> Result<(), Fail> {
    answers(
        &rt,
        rt.alloc(),
        b"tv transcript 1\naccepted 4\nask hook 4 16 0 0 0 0\nend quiet\n",
        broken(3, 1),
    )?;
    answers(
        &rt,
        rt.alloc(),
        b"tv transcript 1\nfreed 1 16\nend quiet\n",
        broken(2, 2),
    )?;
    answers(
        &rt,
        rt.alloc(),
        b"tv transcript 1\naccepted 4\nfreed 4 16\nfired timer 4 16\nend quiet\n",
        broken(4, 3),
    )?;
    answers(
        &rt,
        rt.alloc(),
        b"tv transcript 1\nreply no 5 2 3\nend quiet\n",
        broken(2, 4),
    )?;
    answers(
        &rt,
        rt.alloc(),
        b"tv transcript 1\nstate 1 2\nstate 1 4\nend quiet\n",
        broken(3, 5),
    )
}

#[test]
fn the_first_line_of_no_form_is_told(rt: HostRuntime) -> Result<(), Fail> {
    answers(&rt, rt.alloc(), b"tv transcript 1\n", broken(2, 0))?;
    answers(&rt, rt.alloc(), b"", broken(1, 0))?;
    answers(
        &rt,
        rt.alloc(),
        b"tv transcript 1\nrow 0 0 root 0 0 0 null_context\nreply rows 2\n",
        broken(3, 0),
    )?;
    answers(&rt, rt.alloc(), b"tv transcript 1\nend quiet", broken(2, 0))
}

#[test]
fn a_read_that_fails_ends_the_audit(rt: HostRuntime) -> Result<(), Fail> {
    let text = b"tv transcript 1\nend quiet\n";
    assert_eq!(rt; audit_of(rt.alloc(), text, 4, &[3])?, Audited::ReadFault);
    assert_eq!(rt;
        audit_of(rt.alloc(), b"no\nend quiet\n", 4, &[3])?,
        broken(1, 0)
    );
    Ok(())
}
