use super::{octets, replied, writes};
use std::alloc::Global;
use std::test::Fail;
use text_forms::read_name;
use tree_specs::{Reply, ReportRow, ReportRows, RowKind, Version};

#[test]
fn writes_replies(rt: HostRuntime) -> Result<(), Fail> {
    let largest = 18_446_744_073_709_551_615;
    let read = octets(rt.alloc(), b"1 n")?;
    let two = octets(rt.alloc(), b"\x0a\xff")?;
    writes(
        &rt,
        rt.alloc(),
        &[
            (replied(Reply::Ok), b"reply ok\n".as_slice()),
            (replied(Reply::Number(77)), b"reply 77\n".as_slice()),
            (
                replied(Reply::Number(largest)),
                b"reply 18446744073709551615\n".as_slice(),
            ),
            (replied(Reply::Pair(3, 77)), b"reply 3 77\n".as_slice()),
            (replied(Reply::Pair(4, 0)), b"reply 4 0\n".as_slice()),
            (
                replied(Reply::Pair(6, largest)),
                b"reply 6 18446744073709551615\n".as_slice(),
            ),
            (
                replied(Reply::Bytes(read)),
                b"reply got 31206e\n".as_slice(),
            ),
            (replied(Reply::Bytes(two)), b"reply got 0aff\n".as_slice()),
            (replied(Reply::Again), b"reply again\n".as_slice()),
            (replied(Reply::Fault), b"reply fault\n".as_slice()),
            (replied(Reply::End), b"reply end\n".as_slice()),
        ],
    )
}

fn reference_row(alloc: Global) -> Result<ReportRow, Fail> {
    Ok(ReportRow {
        depth: 2,
        id: 4,
        kind: RowKind::Reference,
        size: 0,
        refs: 0,
        target: 2,
        name: read_name(alloc, b"reference", Version::Two)?,
    })
}

#[test]
fn writes_reports(rt: HostRuntime) -> Result<(), Fail> {
    let none = ReportRows::make(Vec::new(rt.alloc()));
    let mut rows = Vec::new(rt.alloc());
    rows.push(ReportRow::root())?;
    rows.push(reference_row(rt.alloc())?)?;
    let two = ReportRows::make(rows);
    writes(
        &rt,
        rt.alloc(),
        &[
            (replied(Reply::Rows(none)), b"reply rows 0\n".as_slice()),
            (
                replied(Reply::Rows(two)),
                b"row 0 0 root 0 0 0 null_context\nrow 2 4 reference 0 0 2 reference\nreply rows 2\n".as_slice(),
            ),
        ],
    )
}
