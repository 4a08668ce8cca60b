//! Bytes that are held, so that they are taken in large pieces.
ghost use Rattle.std.specs.Prelude.{◌≡◌, ◌<◌, [], length, OnOk};
ghost use Rattle.swh_outside.specs.Faults.{HasCause};
ghost use Rattle.swh_fastwrite.specs.Held.{Wrote, kept};

use crate::taker::Taker;
use swh_outside::Failed;

/// From how many held bytes on they are taken.
const ENOUGH: usize = 65_536;

/// Has what is held taken.
pub fn flush<T: Taker>(taker: &mut T, held: &mut Vec<u8>) -> Result<(), Failed>
    ensures bytes { Wrote T.takes T.takes_front (kept taker.old held.old.items) [] (kept taker.new held.new.items) result }
    ensures emptied { OnOk result (held.new.items ≡ []) }
    ensures cause { HasCause (T.failures taker.old) (T.failures taker.new) result }
{
    taker.take(held.as_slice())?;
    held.clear();
    Ok(())
}

/// Has what is held taken where it is enough.
pub fn settle<T: Taker>(taker: &mut T, held: &mut Vec<u8>) -> Result<(), Failed>
    ensures bytes { Wrote T.takes T.takes_front (kept taker.old held.old.items) [] (kept taker.new held.new.items) result }
    ensures few { OnOk result (length held.new.items < 65536) }
    ensures cause { HasCause (T.failures taker.old) (T.failures taker.new) result }
{
    if held.len() < ENOUGH {
        return Ok(());
    }
    flush(taker, held)
}

/// Has bytes taken behind those that are held, without a copy of them.
pub fn take_large<T: Taker>(taker: &mut T, held: &mut Vec<u8>, bytes: &[u8]) -> Result<(), Failed>
    ensures bytes { Wrote T.takes T.takes_front (kept taker.old held.old.items) bytes.now (kept taker.new held.new.items) result }
    ensures emptied { OnOk result (held.new.items ≡ []) }
    ensures cause { HasCause (T.failures taker.old) (T.failures taker.new) result }
{
    flush(taker, held)?;
    taker.take(bytes)
}
