//! Replies that own memory: reports, and bytes that were read.
ghost use Rattle.std.specs.Prelude.{◌≡◌, ◌++◌, ◌∷◌, [], true, Some, IsSome, OnOk, OnErr, List};
ghost use Rattle.tree_specs.specs.declared.frame.Frame.TheVariants as frames;
ghost use Rattle.tree_specs.specs.declared.frame.CallFrame.TheVariants.{Telling};
ghost use Rattle.tree_specs.specs.declared.question.Ask.{Ask as AskData};
ghost use Rattle.host_core.specs.declared.waiting.Waiting.{Waiting as WaitingData};
ghost use Rattle.host_core.specs.Callers.{remembers};
ghost use Rattle.host_core.specs.Stacks.{active_frame};
ghost use Rattle.host_core.specs.Hosts.{caller_asked, IsReport};
ghost use Rattle.host_core.specs.declared.owned_reply.OwnedReply.{OwnedReply as OwnedReplyData};
ghost use Rattle.host_core.specs.Reaches.{is_bytes};
ghost use Rattle.host_core.specs.Going.{CallsOutside, Reads};

use crate::active::Active;
use crate::caller::{Caller, Stage};
use crate::owned_reply::OwnedReply;
use crate::parts::Parts;
use crate::reach::{bytes_in, made_bytes};
use crate::reports::made_report;
use crate::waiting::Waiting;
use tree_specs::{Ask, Input, Memory, Owner};

/// A caller that was asked this is told a reply that owns memory, of which a routine remembers the copy.
fn told(ask: Ask, reply: OwnedReply) -> Active
    ensures { active_frame result ≡ frames.Call (Telling (remembers ask reply.copy) reply.reply) }
{
    let mut caller = Caller {
        ask,
        stage: Stage::Asking,
    };
    caller.reply_whole(reply.reply, reply.copy);
    Active::Caller(caller)
}

/// Makes a report come next to the caller that was asked.
fn report_on(now: &mut Active, report: OwnedReply)
    requires { IsSome (caller_asked now.old) }
    ensures { (q : AskData) → caller_asked now.old ≡ Some q → active_frame now.new ≡ frames.Call (Telling (remembers q report.copy) report.reply) }
{
    let ask = now.take_ask();
    *now = told(ask, report);
}

/// Makes the report that an input asks for, which is about this owner, and lets it come next to the caller that was
/// asked. When memory runs out, nothing has changed.
#[inline(never)]
pub fn report_for(
    now: &mut Active,
    input: &Input,
    owner: Owner,
    parts: &Parts,
) -> Result<(), Memory>
    requires { IsSome (caller_asked now.old) }
    ensures ok { OnOk result ((r : OwnedReplyData) × IsReport input.now r owner parts.now.objects.pool × ((q : AskData) → caller_asked now.old ≡ Some q → active_frame now.new ≡ frames.Call (Telling (remembers q r.copy) r.reply))) }
    ensures err { OnErr result (now.new ≡ now.old) }
{
    let report = made_report(*parts.waiting.allocator(), input, owner, &parts.objects)?;
    report_on(now, report);
    Ok(())
}

/// The question of the caller whose call waits for the outside.
fn asker(waiting: &Vec<Waiting>) -> &Ask
    requires { CallsOutside waiting.now.items }
    ensures { (q : AskData) (others : List WaitingData) → waiting.now.items ≡ others ++ Waiting.Turning q ∷ [] → result.now ≡ q }
{
    match waiting.last() {
        Some(Waiting::Turning { ask }) => ask,
        _ => unreachable!(),
    }
}

/// Takes out the question of the caller whose call waits for the outside, and which waits no more.
fn take_asker(waiting: &mut Vec<Waiting>) -> Ask
    requires { CallsOutside waiting.old.items }
    ensures { waiting.old.items ≡ waiting.new.items ++ Waiting.Turning result ∷ [] }
{
    match waiting.pop() {
        Some(Waiting::Turning { ask }) => ask,
        _ => unreachable!(),
    }
}

/// Takes the bytes that were read, and lets them come next to the caller whose call asked for them. When memory runs
/// out, nothing has changed.
#[inline(never)]
pub fn read_on(now: &mut Active, input: Input, parts: &mut Parts) -> Result<(), Memory>
    requires bytes { is_bytes input ≡ true }
    requires called { CallsOutside parts.old.waiting.items }
    ensures ok { OnOk result ((q : AskData) × Reads q input now.new parts.old parts.new) }
    ensures err { OnErr result ((now.new ≡ now.old) × (parts.new ≡ parts.old)) }
{
    let alloc = *parts.waiting.allocator();
    let reply = made_bytes(alloc, asker(&parts.waiting), bytes_in(input))?;
    *now = told(take_asker(&mut parts.waiting), reply);
    Ok(())
}
