//! A text with a number in it.
ghost use Rattle.std.specs.Prelude.{◌≡◌, Err, length};
ghost use Rattle.outside.specs.Causes.{Counts};
ghost use Rattle.outside.specs.Outputs.{PutsAll, LeavesRoom};
ghost use Rattle.host_app.specs.Statuses.{numbered};

use itoa::Buffer;
use outside::{PutError, Sink, put_all};

/// Puts a number in decimal between two texts.
pub fn put_numbered<K: Sink>(
    out: &mut K,
    before: &[u8],
    number: u64,
    after: &[u8],
) -> Result<(), PutError>
    ensures bytes { PutsAll (K.held out.old) (K.held out.new) result (numbered before.now number after.now) }
    ensures cause { Counts (K.faults out.old) (K.faults out.new) (result ≡ Err PutError.Write) }
    ensures room { LeavesRoom (K.room out.old) (K.room out.new) result (length (numbered before.now number after.now)) }
{
    let mut digits = Buffer::new();
    put_all(out, before)?;
    put_all(out, digits.format(number).as_bytes())?;
    put_all(out, after)
}
