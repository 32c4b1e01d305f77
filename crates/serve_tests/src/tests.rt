use super::*;
use host_app::{Status, host_main};
use mio_link::MioLink;
use outside::{FineSink, FineSource, MemRoutines, WallClock};
use std::test::Fail;
use std::{fs, process};

fn words(rt: &HostRuntime, texts: &[&str]) -> Result<Vec<String>, Fail> {
    let mut words = Vec::new(rt.alloc());
    for text in texts {
        words.push(text.to_string(rt.alloc())?)?;
    }
    Ok(words)
}

// The words are run over this link.
fn run(
    rt: &HostRuntime,
    texts: &[&str],
    read: &[u8],
    link: &mut WithClient<HostRuntime>,
    out: &mut FineSink,
) -> Result<Status, Fail> {
    let words = words(rt, texts)?;
    let mut input = FineSource::new(read.to_vec(rt.alloc())?);
    let mut err = FineSink::new(rt.alloc(), 0)?;
    let mut clock = WallClock::new(rt);
    let mut routines = MemRoutines::new(Vec::new(rt.alloc()));
    Ok(host_main(
        rt.alloc(),
        &words,
        &mut input,
        out,
        &mut err,
        link,
        &mut clock,
        &mut routines,
    ))
}

// What came of a service and of the replay of its record, and what its client was answered.
#[derive(Drop)]
struct Exchange {
    served: Status,
    answer: Vec<u8>,
    replayed: Status,
}

fn serve_and_replay(
    rt: &HostRuntime,
    path: &str,
    link: &mut WithClient<HostRuntime>,
) -> Result<Exchange, Fail> {
    let mut record = FineSink::new(rt.alloc(), 0)?;
    let served = run(rt, &["serve", path, "40"], b"", link, &mut record)?;
    let mut buf = [0; 16];
    let count = link.read_answer(&mut buf);
    let answer = buf[..count].to_vec(rt.alloc())?;
    let mut transcript = FineSink::new(rt.alloc(), 0)?;
    let replayed = run(rt, &["replay"], record.held(), link, &mut transcript)?;
    Ok(Exchange {
        served,
        answer,
        replayed,
    })
}

#[test]
fn a_client_in_the_same_thread_is_served(rt: HostRuntime) -> Result<(), Fail> {
    let path = format!(in rt.alloc(); "/tmp/serve_tests-{}", process::id(rt.process()))?;
    let _ = fs::remove_file(&rt, path.as_str());
    let mut link = WithClient::new(&rt, MioLink::new(&rt, rt.alloc()), path.as_str());
    let exchange = serve_and_replay(&rt, path.as_str(), &mut link)?;
    drop(link);
    let _ = fs::remove_file(&rt, path.as_str());
    assert_eq!(rt; exchange.served, Status::Done);
    assert_eq!(rt; exchange.answer.as_slice(), b"1 6\n".as_slice());
    assert_eq!(rt; exchange.replayed, Status::Done);
    Ok(())
}
