//! The words that lines begin with, or go on by.
ghost use Rattle.transcript_lines.specs.Heads.{IsLineWord, IsReplyWord, IsOutsideWord, IsEventWord};

/// The first words of the lines that come most.
#[derive(Clone, Copy)]
pub(crate) enum LineWord {
    Reply,
    Freed,
    Ask,
    Row,
}

/// The words of replies that are no numbers.
#[derive(Clone, Copy)]
pub(crate) enum ReplyWord {
    Ok,
    No,
    Rows,
    Got,
    Again,
    Fault,
    End,
}

/// The words of questions that no routine answers.
#[derive(Clone, Copy)]
pub(crate) enum OutsideWord {
    Clock,
    Wait,
    Accept,
    Read,
    Write,
}

/// The first words of the other lines: events that come more seldom, and the end.
#[derive(Clone, Copy)]
pub(crate) enum EventWord {
    Fired,
    Unreferenced,
    Accepted,
    Refused,
    Moved,
    Warned,
    Closed,
    State,
    End,
}

pub(crate) fn line_word(word: &[u8]) -> Option<LineWord>
    ensures { IsLineWord result word.now }
{
    match word {
        b"reply" => Some(LineWord::Reply),
        b"freed" => Some(LineWord::Freed),
        b"ask" => Some(LineWord::Ask),
        b"row" => Some(LineWord::Row),
        _ => None,
    }
}

pub(crate) fn reply_word(word: &[u8]) -> Option<ReplyWord>
    ensures { IsReplyWord result word.now }
{
    match word {
        b"ok" => Some(ReplyWord::Ok),
        b"no" => Some(ReplyWord::No),
        b"rows" => Some(ReplyWord::Rows),
        b"got" => Some(ReplyWord::Got),
        b"again" => Some(ReplyWord::Again),
        b"fault" => Some(ReplyWord::Fault),
        b"end" => Some(ReplyWord::End),
        _ => None,
    }
}

pub(crate) fn outside_word(word: &[u8]) -> Option<OutsideWord>
    ensures { IsOutsideWord result word.now }
{
    match word {
        b"clock" => Some(OutsideWord::Clock),
        b"wait" => Some(OutsideWord::Wait),
        b"accept" => Some(OutsideWord::Accept),
        b"read" => Some(OutsideWord::Read),
        b"write" => Some(OutsideWord::Write),
        _ => None,
    }
}

pub(crate) fn event_word(word: &[u8]) -> Option<EventWord>
    ensures { IsEventWord result word.now }
{
    match word {
        b"fired" => Some(EventWord::Fired),
        b"unreferenced" => Some(EventWord::Unreferenced),
        b"accepted" => Some(EventWord::Accepted),
        b"refused" => Some(EventWord::Refused),
        b"moved" => Some(EventWord::Moved),
        b"warned" => Some(EventWord::Warned),
        b"closed" => Some(EventWord::Closed),
        b"state" => Some(EventWord::State),
        b"end" => Some(EventWord::End),
        _ => None,
    }
}
