//! Pieces of a text.
ghost use Rattle.std.specs.Prelude.{◌≡◌, ◌<◌, ◌++◌, ◌∷◌, [], OnOk, length};
ghost use Rattle.swh_fastwrite.specs.Held.{Wrote, kept};
ghost use Rattle.swh_fastcook.specs.Cause.{HasWriteCause};

use swh_base::Memory;
use swh_carried::CookFault;
use swh_fastwrite::{Taker, settle, take_large};

/// From how many bytes on a piece is taken where it lies.
const LARGE: usize = 65_536;

/// Holds bytes behind those that are held.
pub fn hold(held: &mut Vec<u8>, bytes: &[u8]) -> Result<(), Memory>
    ensures { OnOk result (held.new.items ≡ held.old.items ++ bytes.now) }
{
    held.extend_from_slice(bytes)?;
    Ok(())
}

/// Has bytes taken behind those that are held. Few bytes are held with them.
pub fn put_bytes<T: Taker>(taker: &mut T, held: &mut Vec<u8>, bytes: &[u8]) -> Result<(), CookFault>
    ensures bytes { Wrote T.takes T.takes_front (kept taker.old held.old.items) bytes.now (kept taker.new held.new.items) result }
    ensures few { OnOk result (length held.new.items < 131072) }
    ensures cause { HasWriteCause (T.failures taker.old) (T.failures taker.new) result }
{
    if bytes.len() >= LARGE {
        take_large(taker, held, bytes)?;
        return Ok(());
    }
    settle(taker, held)?;
    hold(held, bytes)?;
    Ok(())
}

/// Has bytes and an LF taken behind those that are held.
pub fn put_line<T: Taker>(taker: &mut T, held: &mut Vec<u8>, bytes: &[u8]) -> Result<(), CookFault>
    ensures bytes { Wrote T.takes T.takes_front (kept taker.old held.old.items) (bytes.now ++ 10 ∷ [])
        (kept taker.new held.new.items) result }
    ensures cause { HasWriteCause (T.failures taker.old) (T.failures taker.new) result }
{
    put_bytes(taker, held, bytes)?;
    hold(held, b"\n")?;
    Ok(())
}
