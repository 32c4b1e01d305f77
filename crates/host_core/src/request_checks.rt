//! What a call on a request is refused for.
ghost use Rattle.std.specs.Prelude.{◌≡◌, Err};
ghost use Rattle.tree_specs.specs.declared.reply.Refusal.TheVariants.{BadState};
ghost use Rattle.tree_specs.specs.Events.Requests.{state_number};
ghost use Rattle.tree_specs.specs.Calls.Refusals.{checked, number, in_progress, finished, failing};

use object_pool::ObjectPool;
use tree_specs::{Obj, Refusal, State};

/// Refuses where no number is left for something that is no object.
pub fn check_number(pool: &ObjectPool) -> Result<(), Refusal>
    ensures { result ≡ checked (number pool.now.pool) }
{
    if pool.next_number() > u64::MAX - 1 {
        return Err(Refusal::Spent);
    }
    Ok(())
}

/// Refuses a call for the state that its request is in.
fn refused(x: Obj, state: State) -> Result<(), Refusal>
    ensures { result ≡ Err (BadState x (state_number state)) }
{
    Err(Refusal::BadState {
        object: x,
        state: state.number(),
    })
}

/// Refuses a request that isn't in progress.
pub fn check_in_progress(x: Obj, pool: &ObjectPool) -> Result<(), Refusal>
    ensures { result ≡ checked (in_progress pool.now.pool x) }
{
    match pool.note(x) {
        Some(note) if note.state != State::InProgress => refused(x, note.state),
        _ => Ok(()),
    }
}

/// Refuses a request that is in progress or was received.
pub fn check_finished(x: Obj, pool: &ObjectPool) -> Result<(), Refusal>
    ensures { result ≡ checked (finished pool.now.pool x) }
{
    match pool.note(x) {
        Some(note) if matches!(note.state, State::InProgress | State::Received) => {
            refused(x, note.state)
        }
        _ => Ok(()),
    }
}

/// Refuses to let a request fail that isn't in progress. With 0 it doesn't fail, and nothing is refused.
pub fn check_failing(x: Obj, error: u64, pool: &ObjectPool) -> Result<(), Refusal>
    ensures { result ≡ checked (failing pool.now.pool x error) }
{
    if error == 0 {
        return Ok(());
    }
    check_in_progress(x, pool)
}
