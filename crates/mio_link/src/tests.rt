use super::*;
use mio::net::UnixStream;
use outside::{Accepted, Done, Link, LinkRead, LinkWrote};
use std::io::{Read, Write};
use std::net::Shutdown;
use std::process::Abort;
use std::test::Fail;
use std::{fs, process};
use tree_specs::Want;

// What is waited for: 1 is for reading, and 3 for writing too.
const LISTENER: [Want; 1] = [Want { fd: 0, flags: 1 }];

const FIRST: [Want; 1] = [Want { fd: 1, flags: 3 }];

const LATER_FIRST: [Want; 2] = [Want { fd: 2, flags: 1 }, Want { fd: 1, flags: 1 }];

// The longest that a wait of these tests takes, in microseconds.
const LIMIT: u64 = 1_000_000;

// One byte more than a socket's path may have, by unix(7).
const TOO_LONG: &str =
    "/tmp/xxxxxxxxxxxxxxxxxxxxxxxxxxxxxxxxxxxxxxxxxxxxxxxxxxxxxxxxxxxxxxxxxxxxxxxxxxxxxxxxxxxxxxxxxxxxxxxxxxxxxxx";

// Most tests lend their link to a function, so that it is dropped at one place and not at each way out.

// A path of its own for each test.
fn path_of(rt: &HostRuntime, name: &str) -> Result<String, Fail> {
    let path = format!(in rt.alloc(); "/tmp/mio_link-{}-{name}", process::id(rt.process()))?;
    Ok(path)
}

// One more client of a link that listens at the path, and what the accept of it answers.
fn join(
    rt: &HostRuntime,
    link: &mut MioLink<&HostRuntime>,
    path: &str,
) -> Result<(UnixStream, Accepted), Fail> {
    let client = UnixStream::connect(rt, path)?;
    let answer = link.accept(0)?;
    Ok((client, answer))
}

// The first client of a link, which listens from here on.
fn first_client(
    stop: &impl Abort,
    rt: &HostRuntime,
    link: &mut MioLink<&HostRuntime>,
    path: &str,
) -> Result<UnixStream, Fail> {
    assert_eq!(stop; link.listen(path)?, Done::Done);
    let (client, answer) = join(rt, link, path)?;
    assert_eq!(stop; answer, Accepted::Took(1));
    Ok(client)
}

fn accepts_reads_and_answers(
    stop: &impl Abort,
    rt: &HostRuntime,
    link: &mut MioLink<&HostRuntime>,
) -> Result<(), Fail> {
    let path = path_of(rt, "answered")?;
    assert_eq!(stop; link.listen(path.as_str())?, Done::Done);
    let mut client = UnixStream::connect(rt, path.as_str())?;
    let mut ready = Vec::new(rt.alloc());
    assert_eq!(stop; link.wait(&LISTENER, LIMIT, &mut ready)?, Done::Done);
    assert_eq!(stop; ready.as_slice(), LISTENER.as_slice());
    assert_eq!(stop; link.accept(0)?, Accepted::Took(1));
    assert_eq!(stop; link.accept(0)?, Accepted::Again);
    client.write_all(b"hello")?;
    assert_eq!(stop; link.wait(&FIRST, LIMIT, &mut ready)?, Done::Done);
    assert_eq!(stop; ready.as_slice(), FIRST.as_slice());
    let mut buf = [0u8; 16];
    assert_eq!(stop; link.read(1, &mut buf), LinkRead::Got(5));
    assert_eq!(stop; &buf[..5], b"hello".as_slice());
    assert_eq!(stop; link.read(1, &mut buf), LinkRead::Again);
    assert_eq!(stop; link.write(1, b"yes"), LinkWrote::Wrote(3));
    let mut answer = [0u8; 3];
    assert_eq!(stop; client.read(&mut answer)?, 3);
    assert_eq!(stop; answer, *b"yes");
    Ok(())
}

#[test]
fn a_client_is_accepted_read_and_answered(rt: HostRuntime) -> Result<(), Fail> {
    let mut link = MioLink::new(&rt, rt.alloc());
    accepts_reads_and_answers(&rt, &rt, &mut link)
}

fn answers_who_sends_no_more(
    stop: &impl Abort,
    rt: &HostRuntime,
    link: &mut MioLink<&HostRuntime>,
) -> Result<(), Fail> {
    let path = path_of(rt, "half")?;
    let mut client = first_client(stop, rt, link, path.as_str())?;
    client.write_all(b"bye")?;
    client.shutdown(Shutdown::Write)?;
    let mut buf = [0u8; 16];
    assert_eq!(stop; link.read(1, &mut buf), LinkRead::Got(3));
    assert_eq!(stop; link.read(1, &mut buf), LinkRead::End);
    assert_eq!(stop; link.write(1, b"ok"), LinkWrote::Wrote(2));
    assert_eq!(stop; client.read(&mut buf)?, 2);
    Ok(())
}

#[test]
fn a_client_that_sends_no_more_is_still_answered(rt: HostRuntime) -> Result<(), Fail> {
    let mut link = MioLink::new(&rt, rt.alloc());
    answers_who_sends_no_more(&rt, &rt, &mut link)
}

fn faults_at_who_has_gone(
    stop: &impl Abort,
    rt: &HostRuntime,
    link: &mut MioLink<&HostRuntime>,
) -> Result<(), Fail> {
    let path = path_of(rt, "reset")?;
    let client = first_client(stop, rt, link, path.as_str())?;
    assert_eq!(stop; link.write(1, b"lost"), LinkWrote::Wrote(4));
    drop(client);
    assert_eq!(stop; link.read(1, &mut [0u8; 16]), LinkRead::Fault);
    assert_eq!(stop; link.write(1, b"more"), LinkWrote::Fault);
    Ok(())
}

#[test]
fn a_client_that_went_with_bytes_unread_is_a_fault(rt: HostRuntime) -> Result<(), Fail> {
    let mut link = MioLink::new(&rt, rt.alloc());
    faults_at_who_has_gone(&rt, &rt, &mut link)
}

fn tells_the_first_wanted(
    stop: &impl Abort,
    rt: &HostRuntime,
    link: &mut MioLink<&HostRuntime>,
) -> Result<(), Fail> {
    let path = path_of(rt, "order")?;
    let mut first = first_client(stop, rt, link, path.as_str())?;
    let (mut second, answer) = join(rt, link, path.as_str())?;
    assert_eq!(stop; answer, Accepted::Took(2));
    first.write_all(b"a")?;
    second.write_all(b"b")?;
    let mut ready = Vec::new(rt.alloc());
    let mut buf = [0u8; 16];
    for expected in [2, 1] {
        assert_eq!(stop; link.wait(&LATER_FIRST, LIMIT, &mut ready)?, Done::Done);
        let one = [Want {
            fd: expected,
            flags: 1,
        }];
        assert_eq!(stop; ready.as_slice(), one.as_slice());
        assert_eq!(stop; link.read(expected, &mut buf), LinkRead::Got(1));
        assert_eq!(stop; link.read(expected, &mut buf), LinkRead::Again);
    }
    assert_eq!(stop; link.wait(&LATER_FIRST, 0, &mut ready)?, Done::Done);
    assert_eq!(stop; ready.len(), 0);
    Ok(())
}

#[test]
fn the_first_in_the_order_of_what_is_wanted_is_ready(rt: HostRuntime) -> Result<(), Fail> {
    let mut link = MioLink::new(&rt, rt.alloc());
    tells_the_first_wanted(&rt, &rt, &mut link)
}

fn gives_a_closed_descriptor_again(
    stop: &impl Abort,
    rt: &HostRuntime,
    link: &mut MioLink<&HostRuntime>,
) -> Result<(), Fail> {
    let path = path_of(rt, "again")?;
    let mut client = first_client(stop, rt, link, path.as_str())?;
    link.close(1);
    assert_eq!(stop; client.read(&mut [0u8; 16])?, 0);
    let (_next, answer) = join(rt, link, path.as_str())?;
    assert_eq!(stop; answer, Accepted::Took(1));
    assert_eq!(stop; link.read(1, &mut [0u8; 16]), LinkRead::Again);
    Ok(())
}

#[test]
fn a_closed_descriptor_is_given_again(rt: HostRuntime) -> Result<(), Fail> {
    let mut link = MioLink::new(&rt, rt.alloc());
    gives_a_closed_descriptor_again(&rt, &rt, &mut link)
}

fn fails_at_these_paths(
    stop: &impl Abort,
    rt: &HostRuntime,
    link: &mut MioLink<&HostRuntime>,
) -> Result<(), Fail> {
    assert_eq!(stop;
        link.listen("/tmp/there is no such folder/link")?,
        Done::Failed
    );
    assert_eq!(stop; link.listen(TOO_LONG)?, Done::Failed);
    assert!(stop; !fs::exists(rt, TOO_LONG)?);
    Ok(())
}

#[test]
fn no_path_and_too_long_a_path_fail(rt: HostRuntime) -> Result<(), Fail> {
    let mut link = MioLink::new(&rt, rt.alloc());
    fails_at_these_paths(&rt, &rt, &mut link)
}

// Another link can't listen where this one does, and leaves the file.
fn listens_alone(
    stop: &impl Abort,
    rt: &HostRuntime,
    link: &mut MioLink<&HostRuntime>,
    path: &str,
) -> Result<(), Fail> {
    assert_eq!(stop; link.listen(path)?, Done::Done);
    let mut second = MioLink::new(rt, rt.alloc());
    let answer = second.listen(path);
    drop(second);
    assert_eq!(stop; answer?, Done::Failed);
    assert!(stop; fs::exists(rt, path)?);
    Ok(())
}

#[test]
fn a_file_goes_with_the_link_that_made_it(rt: HostRuntime) -> Result<(), Fail> {
    let path = path_of(&rt, "file")?;
    let mut link = MioLink::new(&rt, rt.alloc());
    listens_alone(&rt, &rt, &mut link, path.as_str())?;
    drop(link);
    assert!(rt; !fs::exists(&rt, path.as_str())?);
    Ok(())
}

// Somebody else's file takes the place of the link's.
fn is_replaced(
    stop: &impl Abort,
    rt: &HostRuntime,
    link: &mut MioLink<&HostRuntime>,
    path: &str,
) -> Result<(), Fail> {
    assert_eq!(stop; link.listen(path)?, Done::Done);
    fs::remove_file(rt, path)?;
    fs::write(rt, path, "mine")?;
    Ok(())
}

#[test]
fn what_somebody_else_put_there_stays(rt: HostRuntime) -> Result<(), Fail> {
    let path = path_of(&rt, "other")?;
    let mut link = MioLink::new(&rt, rt.alloc());
    is_replaced(&rt, &rt, &mut link, path.as_str())?;
    drop(link);
    assert!(rt; fs::exists(&rt, path.as_str())?);
    fs::remove_file(&rt, path.as_str())?;
    Ok(())
}
