//! How a call is spelled: its verb, and the numbers, the name or the bytes that come after it.

ghost use Rattle.std.specs.Prelude.{◌≡◌, ◌++◌, codes, flat_map};
ghost use Rattle.tree_specs.specs.declared.schedule.Version.TheVariants.{Two};
ghost use Rattle.tree_specs.specs.Calls.Spelling.{spelling};
ghost use Rattle.tree_specs.specs.Texts.Text.{field_text};
ghost use Rattle.text_forms.specs.Spelled.{fields_text};

use tree_specs::{Call, Name, Octets};

/// The fields of a call, in order: so many numbers, with the context as one, and a name or bytes behind them.
pub(crate) enum CallFields<'a> {
    Bare,
    One(u64),
    Two(u64, u64),
    Three(u64, u64, u64),
    Four(u64, u64, u64, u64),
    Five(u64, u64, u64, u64, u64),
    Six(u64, u64, u64, u64, u64, u64),
    OneAndName(u64, &'a Name),
    TwoAndName(u64, u64, &'a Name),
    OneAndBytes(u64, &'a Octets),
}

/// The verb of a call, and its fields.
pub(crate) struct Spelling<'a> {
    pub(crate) verb: &'static [u8],
    pub(crate) fields: CallFields<'a>,
}

/// A table of calls by their fields: what these are, and then the verb of each call that has them.
macro_rules! spelled {
    ($call:ident: $($fields:expr, of $($name:ident { $($binding:tt)* } $verb:literal),+;)*) => {
        match $call {
            $($(Call::$name { $($binding)* } => Spelling { verb: $verb, fields: $fields },)+)*
        }
    };
}

/// The verb of a call, and its fields in version 2: the context of a call comes last.
#[inline(always)]
pub(crate) fn spell(call: &Call) -> Spelling<'_>
    ensures verb { result.verb.now ≡ (spelling Two call.now).verb }
    ensures fields { fields_text result.fields ≡ flat_map (λ f. codes " " ++ field_text f) (spelling Two call.now).fields }
{
    spelled!(call:
        CallFields::Bare, of Now {} b"now";
        CallFields::One(context.0), of Pending { context } b"pending", Turn { context } b"turn";
        CallFields::One(x.0), of
            Free { x } b"free", Freekids { x } b"freekids", Unhook { x } b"unhook", Parent { x } b"parent",
            Unschedule { x } b"unschedule", Getflags { x } b"getflags", Autoclose { x } b"autoclose",
            Cancel { x } b"cancel", Done { x } b"done", Oom { x } b"oom",
            Iserror { x } b"iserror", Progress { x } b"progress", Received { x } b"received";
        CallFields::One(queue.0), of
            Start { queue } b"start", Stop { queue } b"stop", Length { queue } b"length", Running { queue } b"running";
        CallFields::One(owner.number()), of
            Total { owner } b"total", Count { owner } b"count", Sum { owner } b"sum", Report { owner } b"report",
            Context { owner } b"context", Immediate { owner } b"immediate";
        CallFields::One(u64::from(*fd)), of Close { fd } b"close", Accept { fd } b"accept";
        CallFields::Two(owner.number(), x.0), of
            Steal { owner, x } b"steal", Move { owner, x } b"move", Reference { owner, x } b"reference",
            Unlink { owner, x } b"unlink";
        CallFields::Two(x.0, *n), of
            Resize { x, size: n } b"resize", Limit { x, max: n } b"limit", Error { x, error: n } b"error";
        CallFields::Two(x.0, context.0), of Defer { x, context } b"defer", Post { x, context } b"post";
        CallFields::Two(x.0, u64::from(*routine)), of
            Hook { x, routine } b"hook", Cleanup { x, routine } b"cleanup", Setcancel { x, routine } b"setcancel";
        CallFields::Two(x.0, u64::from(*flags)), of Flags { x, flags } b"flags";
        CallFields::Two(u64::from(*fd), u64::from(*len)), of Read { fd, len } b"read";
        CallFields::Three(from.number(), to.number(), x.0), of Reparent { from, to, x } b"reparent";
        CallFields::Three(x.0, u64::from(*routine), *user), of Callback { x, routine, user } b"callback";
        CallFields::Three(x.0, *time, context.0), of Endtime { x, time, context } b"endtime";
        CallFields::Four(x.0, u64::from(*routine), *user, context.0), of
            Schedule { x, routine, user, context } b"schedule";
        CallFields::Five(owner.number(), *time, u64::from(*routine), *user, context.0), of
            Timer { owner, time, routine, user, context } b"timer";
        CallFields::Five(queue.0, x.0, u64::from(*routine), *user, context.0), of
            Enqueue { queue, x, routine, user, context } b"enqueue";
        CallFields::Six(owner.number(), u64::from(*fd), u64::from(*flags), u64::from(*routine), *user, context.0), of
            Fd { owner, fd, flags, routine, user, context } b"fd";
        CallFields::OneAndName(x.0, name), of Rename { x, name } b"rename";
        CallFields::OneAndName(owner.number(), name), of Queue { owner, name } b"queue";
        CallFields::TwoAndName(owner.number(), *size, name), of
            New { owner, size, name } b"new", Req { owner, size, name } b"req";
        CallFields::OneAndBytes(u64::from(*fd), bytes), of Write { fd, bytes } b"write";
    )
}
