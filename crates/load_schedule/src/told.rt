//! What the lines of a transcript tell.
ghost use Rattle.std.specs.Prelude.{◌≡◌, ◌<◌, ◌≤◌, ◌+◌, [], take, drop, length, codes, IfSome, if◌then◌else◌};
ghost use Rattle.tree_specs.specs.Texts.Load.{begins_with};
ghost use Rattle.load_schedule.specs.Tallies.{Sums, one_more as with_line};

use line_pieces::line_end;

/// Whether the line is a reply, one that refuses too.
fn is_reply(line: &[u8]) -> bool
    ensures { result ≡ begins_with (codes "reply ") line.now }
{
    line.starts_with(b"reply ")
}

/// A count after one more line, which counts where it begins so.
fn one_more(front: &[u8], line: &[u8], count: u64) -> u64
    requires { count < u64.MAX }
    ensures { result ≡ with_line front.now line.now count }
{
    if line.starts_with(front) {
        count + 1
    } else {
        count
    }
}

/// How many lines there were of each kind that is counted.
#[derive(Clone, Copy)]
pub(crate) struct Counts {
    pub(crate) refused: u64,
    pub(crate) freed: u64,
    pub(crate) dropped: u64,
}

impl Counts {
    /// The counts of no lines.
    pub(crate) const NONE: Counts = Counts {
        refused: 0,
        freed: 0,
        dropped: 0,
    };

    /// These counts with one more line.
    pub(crate) fn with(self, line: &[u8]) -> Counts
        requires refused { self.refused < u64.MAX }
        requires freed { self.freed < u64.MAX }
        requires dropped { self.dropped < u64.MAX }
        ensures refused { result.refused ≡ with_line (codes "reply no ") line.now self.refused }
        ensures freed { result.freed ≡ with_line (codes "freed ") line.now self.freed }
        ensures dropped { result.dropped ≡ with_line (codes "unreferenced ") line.now self.dropped }
    {
        Counts {
            refused: one_more(b"reply no ", line, self.refused),
            freed: one_more(b"freed ", line, self.freed),
            dropped: one_more(b"unreferenced ", line, self.dropped),
        }
    }

    /// These counts with those of later lines. None where a count is past the greatest number.
    pub(crate) fn plus(self, later: Counts) -> Option<Counts>
        ensures refused { IfSome result (λ c. c.refused ≡ self.refused + later.refused) }
        ensures freed { IfSome result (λ c. c.freed ≡ self.freed + later.freed) }
        ensures dropped { IfSome result (λ c. c.dropped ≡ self.dropped + later.dropped) }
    {
        Some(Counts {
            refused: self.refused.checked_add(later.refused)?,
            freed: self.freed.checked_add(later.freed)?,
            dropped: self.dropped.checked_add(later.dropped)?,
        })
    }
}

/// The line where it is a reply, and else nothing.
pub(crate) fn reply_of(line: &[u8]) -> &[u8]
    ensures { result.now ≡ (if begins_with (codes "reply ") line.now then line.now else []) }
{
    let len = if is_reply(line) { line.len() } else { 0 };
    &line[..len]
}

/// What the lines at the front of some bytes tell that end there.
#[derive(Clone, Copy)]
pub(crate) struct Told {
    /// How many bytes they are, each with its LF.
    pub(crate) len: usize,
    pub(crate) counts: Counts,
    /// Where the last of them that is a reply begins.
    pub(crate) reply_at: usize,
    /// How many bytes it is; none where none is a reply.
    pub(crate) reply_len: usize,
}

impl Told {
    /// What no lines tell.
    fn nothing() -> Told
        ensures len { result.len ≡ 0 }
        ensures refused { result.counts.refused ≡ 0 }
        ensures freed { result.counts.freed ≡ 0 }
        ensures dropped { result.counts.dropped ≡ 0 }
        ensures reply_at { result.reply_at ≡ 0 }
        ensures reply_len { result.reply_len ≡ 0 }
    {
        Told {
            len: 0,
            counts: Counts::NONE,
            reply_at: 0,
            reply_len: 0,
        }
    }

    /// What these lines and one more tell.
    fn and(self, line: &[u8]) -> Told
        requires refused { self.counts.refused < u64.MAX }
        requires freed { self.counts.freed < u64.MAX }
        requires dropped { self.counts.dropped < u64.MAX }
        requires len { self.len + length line.now < usize.MAX }
        ensures len { result.len ≡ self.len + length line.now + 1 }
        ensures refused { result.counts.refused ≡ with_line (codes "reply no ") line.now self.counts.refused }
        ensures freed { result.counts.freed ≡ with_line (codes "freed ") line.now self.counts.freed }
        ensures dropped { result.counts.dropped ≡ with_line (codes "unreferenced ") line.now self.counts.dropped }
        ensures reply_at { result.reply_at ≡ (if begins_with (codes "reply ") line.now then self.len else self.reply_at) }
        ensures reply_len { result.reply_len ≡ (if begins_with (codes "reply ") line.now then length line.now else self.reply_len) }
    {
        let more = Told {
            len: self.len + line.len() + 1,
            counts: self.counts.with(line),
            ..self
        };
        if !is_reply(line) {
            return more;
        }
        Told {
            reply_at: self.len,
            reply_len: line.len(),
            ..more
        }
    }
}

/// What the lines at the front of these bytes tell that end there.
pub(crate) fn told_by(bytes: &[u8]) -> Told
    ensures within { result.len ≤ length bytes.now }
    ensures reply_within { result.reply_at + result.reply_len ≤ length bytes.now }
    ensures sums { Sums (take result.len bytes.now) result.counts.refused result.counts.freed result.counts.dropped
        (take result.reply_len (drop result.reply_at bytes.now)) }
{
    let mut told = Told::nothing();
    'lines: while let Some(len) = line_end(&bytes[told.len..]) {
        told = told.and(&bytes[told.len..told.len + len]);
    }
    told
}
