// Data of a source whose bytes are counted, read through a window.
ghost use Rattle.std.specs.Prelude.{◌≡◌, ◌≤◌, ◌<◌, ◌+◌, ◌^◌, IfOk, IfErr, IsErrOf, length};
ghost use Rattle.swh_outside.specs.Source.{LosesSome};
ghost use Rattle.swh_base.specs.Limits.{body_limit};
ghost use Rattle.swh_fastlex.specs.ReadOn.{IsReadOn};
ghost use Rattle.swh_fastlex.specs.Line.{unread, Takes, IsCutData, MovesBytes};
ghost use Rattle.swh_fastlex.specs.declared.fault.LineFault.TheVariants.{Failed, End, Limit};

use crate::fault::LineFault;
use crate::window::Window;
use std::alloc::{AllocError, Global};
use swh_base::BODY_LIMIT;
use swh_outside::Source;

/// Moves what is held, or as much of it as there is room for, to the end of the data.
fn move_bytes(window: &mut Window, bytes: &mut Vec<u8>, room: usize) -> Result<(), AllocError>
    requires some { 0 < room }
    requires fits { window.old.place + room < 2 ^ 64 }
    ensures moved { IfOk result (λ _. MovesBytes window.old window.new bytes.old.items bytes.new.items room) }
    ensures same { IfErr result (λ _. window.new ≡ window.old) }
{
    let held = window.held();
    let count = room.min(held.len());
    bytes.extend_from_slice(&held[..count])?;
    window.skip(count);
    Ok(())
}

/// The next bytes, as many as are wanted. Their room is taken at once, so that no growth moves what was read; a page that is
/// never written costs nothing.
///
/// # Errors
///
/// `Limit` where more are wanted than a body may have, 67,108,864: nothing is then read. `End` where the input has
/// fewer, which are then read; `Failed` where the source fails, and `Memory`, of which some bytes are lost.
pub fn next_data<S: Source>(
    alloc: Global,
    window: &mut Window,
    source: &mut S,
    wanted: u64,
) -> Result<Vec<u8>, LineFault>
    requires { window.old.place ≤ 2 ^ 63 }
    ensures count { IfOk result (λ bytes. length bytes.items ≡ wanted) }
    ensures within { IfOk result (λ _. wanted ≤ body_limit) }
    ensures counted { IfOk result (λ _. window.new.place ≡ window.old.place + wanted) }
    ensures taken { S.tells → IfOk result (λ bytes. Takes window.old window.new (S.left source.old)
        (S.left source.new) bytes.items) }
    ensures end { S.tells → IsErrOf result End → IsCutData wanted window.old window.new (S.left source.old)
        (S.left source.new) }
    ensures limit { IsErrOf result Limit → body_limit < wanted }
    ensures unread { IsErrOf result Limit → window.new ≡ window.old }
    ensures loses { S.tells → IfErr result (λ _. LosesSome (unread window.old (S.left source.old))
        (unread window.new (S.left source.new))) }
    ensures place { window.new.place ≤ window.old.place + wanted }

    ensures on { IsReadOn S.path S.faults source.old source.new Failed result }
{
    if wanted > BODY_LIMIT {
        return Err(LineFault::Limit);
    }
    let count = wanted as usize;
    let mut bytes = Vec::with_capacity(alloc, count)?;
    'pieces: while bytes.len() < count {
        if !window.fill(source)? {
            return Err(LineFault::End);
        }
        let room = count - bytes.len();
        move_bytes(window, &mut bytes, room)?;
    }
    Ok(bytes)
}
