//! Giving the host what the service itself answers.
ghost use Rattle.std.specs.Prelude.{◌≡◌, IsTrue, OnOk, OnErr};
ghost use Rattle.tree_specs.specs.Words.Ranges.{is_sound, is_sound_call};
ghost use Rattle.line_service.specs.Steps.{Gives, IsSetUp, SetsUp};

use host_core::Host;
use tree_specs::{Call, Input, Memory, Name, Obj, Owner};

/// The object of the service, below which its sessions are.
const SERVICE: Obj = Obj(1);

/// The host does a call that sets the service up. Its own caller is asked for one.
fn set_up(host: &mut Host, call: Call) -> Result<(), Memory>
    requires { IsTrue (is_sound_call call) }
    ensures { OnOk result (SetsUp host.old call host.new) }
{
    if !host.is_quiet() {
        return Err(Memory);
    }
    match host.call(call)? {
        Some(_reply) => Ok(()),
        None => Err(Memory),
    }
}

/// The host does the two calls that set the service up: its object is 1, and its listener's event 2.
pub fn set_service_up(host: &mut Host) -> Result<(), Memory>
    ensures { OnOk result (IsSetUp host.old host.new) }
{
    let service = Call::New {
        owner: Owner::Root,
        size: 0,
        name: Name::fixed(b"service"),
    };
    set_up(host, service)?;
    let listener = Call::Fd {
        owner: Owner::Of(SERVICE),
        fd: 0,
        flags: 1,
        routine: 1,
        user: 0,
        context: Obj::first_context(),
    };
    set_up(host, listener)
}

/// Gives the host an answer of the service's own, one of those that are left. If memory runs out, or none is left, nothing
/// has changed.
pub fn give(host: &mut Host, left: &mut u64, input: Input) -> Result<(), Memory>
    requires { IsTrue (is_sound input) }
    ensures ok { OnOk result (Gives host.old left.old input host.new left.new) }
    ensures host { OnErr result (host.new ≡ host.old) }
    ensures left { OnErr result (left.new ≡ left.old) }
{
    let fewer = left.checked_sub(1).ok_or(Memory)?;
    host.offer(input).map_err(|_fault| Memory)?;
    *left = fewer;
    Ok(())
}
