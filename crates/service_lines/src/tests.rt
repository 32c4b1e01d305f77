use super::*;
use service_rules::{Answer, Order, Serving};
use std::alloc::Global;
use std::process::Abort;
use std::test::Fail;
use text_forms::{FormFault, write_call};
use tree_specs::{Call, Obj, Refusal};

#[test]
fn writes_the_line_of_each_answer(rt: HostRuntime) -> Result<(), Fail> {
    let cases = [
        (7, Answer::Ok, b"7 ok\n".as_slice()),
        (0, Answer::Number(18), b"0 18\n".as_slice()),
        (
            4_294_967_295,
            Answer::No(Refusal::NoSuch(0)),
            b"4294967295 no 1 0\n".as_slice(),
        ),
        (1, Answer::Failed(3), b"1 failed 3\n".as_slice()),
    ];
    for (tag, answer, want) in cases {
        let mut out = Vec::new(rt.alloc());
        write_answer(tag, answer, &mut out)?;
        assert_eq!(rt; out.as_slice(), want);
    }
    Ok(())
}

// What the line asks for has this tag, and its call is written so.
fn asks_for(rt: &impl Abort, alloc: Global, line: &str, tag: u32, call: &str) -> Result<(), Fail> {
    let (found, Order::Call(wanted)) = read_order(alloc, line.as_bytes())? else {
        return Err("no call".into());
    };
    let mut text = Vec::new(alloc);
    write_call(&wanted, &mut text)?;
    assert_eq!(rt; text.as_slice(), call.as_bytes());
    assert_eq!(rt; found, tag);
    Ok(())
}

#[test]
fn reads_calls(rt: HostRuntime) -> Result<(), Fail> {
    asks_for(&rt, rt.alloc(), "7 free 0", 7, "free 0")?;
    asks_for(&rt, rt.alloc(), "0 new 0 12 a-b", 0, "new 0 12 a-b")?;
    asks_for(
        &rt,
        rt.alloc(),
        "4294967295 hook 9 16",
        4_294_967_295,
        "hook 9 16",
    )
}

#[test]
fn reads_delays(rt: HostRuntime) -> Result<(), Fail> {
    let sleep = read_order(rt.alloc(), b"1 sleep 1000000000000")?;
    assert!(rt; matches!(sleep, (1, Order::Sleep(1_000_000_000_000))));
    let job = read_order(rt.alloc(), b"2 job 0")?;
    assert!(rt; matches!(job, (2, Order::Job(0))));
    Ok(())
}

// Lines that are in no form.
const NO_ORDERS: &str = "\

1
1\x20
01 total 0
4294967296 total 0
1 total
1 hook 9 15
1 count 0
1 sleep
1 sleep 1000000000001
1 sleep 1 1
1 job 01
1 jobs 1
";

#[test]
fn reads_no_order(rt: HostRuntime) {
    for line in NO_ORDERS.lines() {
        let order = read_order(rt.alloc(), line.as_bytes());
        assert!(rt; matches!(order, Err(FormFault::NoForm)), "at {line:?}");
    }
}

// The line in front, which is done then; one that is too long is told as `long`. None where no whole line came.
fn take_line(alloc: Global, incoming: &mut Incoming) -> Result<Option<Vec<u8>>, Fail> {
    incoming.skip();
    match incoming.cut() {
        Cut::Line(length) => {
            let line = Vec::from_slice(alloc, incoming.line(length))?;
            incoming.end_line(length);
            Ok(Some(line))
        }
        Cut::Long => {
            incoming.end_long();
            Ok(Some(Vec::from_slice(alloc, b"long")?))
        }
        Cut::Part => Ok(None),
    }
}

// The bytes that came are cut into these lines, and a part of one.
fn cuts(
    rt: &impl Abort,
    alloc: Global,
    incoming: &mut Incoming,
    lines: &[&[u8]],
) -> Result<(), Fail> {
    for want in lines {
        let line = take_line(alloc, incoming)?.ok_or("no line")?;
        assert_eq!(rt; line.as_slice(), *want);
    }
    assert!(rt; take_line(alloc, incoming)?.is_none());
    Ok(())
}

#[test]
fn cuts_lines(rt: HostRuntime) -> Result<(), Fail> {
    let mut incoming = Incoming::new(rt.alloc());
    incoming.append(b"\n7 free")?;
    cuts(&rt, rt.alloc(), &mut incoming, &[b"".as_slice()])?;
    incoming.append(b" 0\n8 par")?;
    cuts(&rt, rt.alloc(), &mut incoming, &[b"7 free 0".as_slice()])
}

#[test]
fn drops_what_is_too_long(rt: HostRuntime) -> Result<(), Fail> {
    let longest = vec![in rt.alloc(); b'a'; 1_024]?;
    let mut incoming = Incoming::new(rt.alloc());
    incoming.append(&longest)?;
    incoming.append(b"\n")?;
    cuts(&rt, rt.alloc(), &mut incoming, &[longest.as_slice()])?;
    incoming.append(&longest)?;
    incoming.append(b"a")?;
    cuts(&rt, rt.alloc(), &mut incoming, &[b"long".as_slice()])?;
    incoming.append(b"aa\nb\n")?;
    cuts(&rt, rt.alloc(), &mut incoming, &[b"b".as_slice()])
}

// So many bytes are written next.
fn writes(
    rt: &impl Abort,
    alloc: Global,
    connection: &Connection,
    want: usize,
) -> Result<(), Fail> {
    let call = serving_call(Serving::Write, alloc, Obj(3), connection)?;
    let count = match &call {
        Some(Call::Write { bytes, .. }) => bytes.as_slice().len(),
        _ => 0,
    };
    assert_eq!(rt; count, want);
    Ok(())
}

#[test]
fn writes_unsent_bytes(rt: HostRuntime) -> Result<(), Fail> {
    let mut connection = Connection::new(rt.alloc(), 5, Obj(4), Obj(6));
    writes(&rt, rt.alloc(), &connection, 0)?;
    connection.append(&vec![in rt.alloc(); b'a'; 65_537]?)?;
    writes(&rt, rt.alloc(), &connection, 65_536)?;
    connection.sent(65_536);
    writes(&rt, rt.alloc(), &connection, 1)?;
    connection.sent(1);
    writes(&rt, rt.alloc(), &connection, 0)
}
