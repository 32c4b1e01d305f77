//! Reports: the replies that take memory, and are made before anything changes.
ghost use Rattle.std.specs.Prelude.{◌≡◌, IfOk};
ghost use Rattle.tree_specs.specs.declared.question.Ask.{Ask as AskData};
ghost use Rattle.tree_specs.specs.declared.call.Call.TheVariants.{Report as ReportOf};
ghost use Rattle.tree_specs.specs.Calls.Refusals.{refusals};
ghost use Rattle.tree_specs.specs.Machine.Table.{call_step, replied};
ghost use Rattle.host_core.specs.Moves.{call_of, reported};
ghost use Rattle.host_core.specs.Hosts.{IsCopy, IsReport};

use crate::checks::check_owner;
use crate::owned_reply::OwnedReply;
use object_pool::ObjectPool;
use std::alloc::Global;
use tree_specs::{Act, Call, Input, Memory, Owner, Reply};

/// The owner that a report is about. None for every other input.
pub fn report_owner(input: &Input) -> Option<Owner>
    ensures { result ≡ reported (call_of input.now) }
{
    match input {
        Input::Call(Call::Report { owner }) | Input::Act(Act::Do(Call::Report { owner })) => {
            Some(*owner)
        }
        _ => None,
    }
}

/// The reply to a report: all that it tells is copied.
#[tactic(auto, using(crate::proofs::Allowed::refused_step, crate::proofs::Allowed::allowed_step))]
fn report_reply(alloc: Global, owner: Owner, pool: &ObjectPool) -> Result<Reply, Memory>
    ensures { IfOk result (λ r. (q : AskData) → call_step (refusals pool.now.pool (ReportOf owner)) q (ReportOf owner) pool.now.pool ≡ replied q r pool.now.pool) }
{
    if let Err(why) = check_owner(owner, pool) {
        return Ok(Reply::No(why));
    }
    Ok(Reply::Rows(pool.report(alloc, owner)?))
}

/// The report once more, where a routine is to remember it. None where the call isn't a routine's.
fn report_copy(
    alloc: Global,
    input: &Input,
    owner: Owner,
    pool: &ObjectPool,
) -> Result<Option<Reply>, Memory>
    ensures { IfOk result (λ copy. IsCopy input.now copy owner pool.now.pool) }
{
    match input {
        Input::Act(_) => Ok(Some(report_reply(alloc, owner, pool)?)),
        _ => Ok(None),
    }
}

/// The report that an input asks for, which is about this owner, with the copy that a routine remembers.
pub fn made_report(
    alloc: Global,
    input: &Input,
    owner: Owner,
    pool: &ObjectPool,
) -> Result<OwnedReply, Memory>
    ensures { IfOk result (λ r. IsReport input.now r owner pool.now.pool) }
{
    let reply = report_reply(alloc, owner, pool)?;
    let copy = report_copy(alloc, input, owner, pool)?;
    Ok(OwnedReply { reply, copy })
}
