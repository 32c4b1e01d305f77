//! Writing a reply as its lines.
ghost use Rattle.tree_specs.specs.declared.reply.Reply.TheVariants as replies;
ghost use Rattle.tree_specs.specs.Texts.Text.{reply_text};
ghost use Rattle.tree_specs.specs.Texts.Written.{Writes};

use text_forms::{write_numbers, write_octets, write_pieces, write_refusal, write_report_rows};
use tree_specs::{Memory, Refusal, Reply, ReportRows};

/// Appends the lines of a report, and then the line that tells how many they are.
fn write_report(report: &ReportRows, out: &mut Vec<u8>) -> Result<(), Memory>
    ensures { Writes out.old.items out.new.items result (reply_text (replies.Rows report.now)) }
{
    let rows = report.as_slice();
    write_report_rows(rows, out)?;
    write_numbers(b"reply rows", &[rows.len() as u64], b"\n", out)
}

/// Appends the line of a refusal.
#[tactic(auto, unfolding(tree_specs::specs::Texts::Text::reply_text))]
fn write_no(why: Refusal, out: &mut Vec<u8>) -> Result<(), Memory>
    ensures { Writes out.old.items out.new.items result (reply_text (replies.No why)) }
{
    out.extend_from_slice(b"reply no")?;
    write_refusal(why, out)
}

/// Appends a reply as its line, with its LF; a report is the lines of its rows and then that of the reply. When memory
/// runs out, a prefix of it was appended.
#[inline(always)]
#[tactic(auto, unfolding(tree_specs::specs::Texts::Text::reply_text))]
pub fn write_reply(reply: &Reply, out: &mut Vec<u8>) -> Result<(), Memory>
    ensures { Writes out.old.items out.new.items result (reply_text reply.now) }
{
    match reply {
        Reply::Ok => write_pieces(&[b"reply ok\n".as_slice()], out),
        Reply::Number(n) => write_numbers(b"reply", &[*n], b"\n", out),
        Reply::Pair(a, b) => write_numbers(b"reply", &[*a, *b], b"\n", out),
        Reply::Rows(rows) => write_report(rows, out),
        Reply::Bytes(bytes) => write_octets(b"reply got", &[], bytes, b"\n", out),
        Reply::Again => write_pieces(&[b"reply again\n".as_slice()], out),
        Reply::Fault => write_pieces(&[b"reply fault\n".as_slice()], out),
        Reply::End => write_pieces(&[b"reply end\n".as_slice()], out),
        Reply::No(why) => write_no(*why, out),
    }
}
