// Sources read into a buffer whose room is reserved.
ghost use Rattle.std.specs.Prelude.{◌≡◌, ◌+◌, ◌≤◌, ◌<◌, IfOk, IsErrOf, OnOk, length, vec_capacity};
ghost use Rattle.swh_outside.specs.Faults.{Rose};
ghost use Rattle.swh_fastlex.specs.ReadOn.{IsQuietBut};
ghost use Rattle.swh_fastlex.specs.Whole.{IsAllThatWasLeft, IsCutAbove, GivesAtMost};
ghost use Rattle.swh_fastlex.specs.declared.fault.SourceFault.TheVariants.{Failed, Limit};

use crate::fault::SourceFault;
use crate::source::{WINDOW, get_more, window_of};
use std::alloc::{AllocError, Global};
use swh_outside::Source;

/// Room for a byte more. Once a window is full, there is room for all that the limit allows and for one byte above it.
fn make_room(bytes: &mut Vec<u8>, limit: usize) -> Result<(), AllocError>
    requires { length bytes.old.items ≤ limit }
    ensures same { bytes.new.items ≡ bytes.old.items }
    ensures room { OnOk result (length bytes.new.items < vec_capacity bytes.new) }
{
    let left = limit - bytes.len();
    if bytes.len() < bytes.capacity() {
        Ok(())
    } else if bytes.is_empty() {
        bytes.reserve_exact(left.min(WINDOW - 1) + 1)
    } else {
        bytes.reserve_exact(left + 1)
    }
}

/// How many bytes to ask for: those that there is room for, no more than one above the limit, and a window at most.
fn piece_size(bytes: &Vec<u8>, limit: usize) -> usize
    requires within { length bytes.now.items ≤ limit }
    requires room { length bytes.now.items < vec_capacity bytes.now }
    ensures some { 0 < result }
    ensures window { result ≤ WINDOW }
    ensures fits { length bytes.now.items + result ≤ vec_capacity bytes.now }
    ensures limit { length bytes.now.items + result ≤ limit + 1 }
{
    let left = limit - bytes.len();
    let room = bytes.capacity() - bytes.len();
    room.min(left.min(WINDOW - 1) + 1)
}

/// All that is left of a source, where it is no longer than the limit, in a buffer that moves at most once. No more
/// than one byte above the limit is taken, whatever the answer.
///
/// # Errors
///
/// `Limit` where more is left than the limit, `Failed` where the source fails, and `Memory`.
pub fn read_source_reserved<S: Source>(
    alloc: Global,
    source: &mut S,
    limit: usize,
) -> Result<Vec<u8>, SourceFault>
    ensures whole { S.tells → IfOk result (λ bytes. IsAllThatWasLeft (S.left source.old)
        (S.left source.new) bytes.items) }
    ensures within { IfOk result (λ bytes. length bytes.items ≤ limit) }
    ensures over { S.tells → IsErrOf result Limit → limit < length (S.left source.old) }
    ensures cut { S.tells → IsErrOf result Limit → IsCutAbove (S.left source.old) (S.left source.new) limit
        (limit + 1) }
    ensures given { S.tells → GivesAtMost (S.given source.old) (S.given source.new) (limit + 1) }

    ensures same_path { S.path source.new ≡ S.path source.old }
    ensures later { S.faults source.old ≤ S.faults source.new }
    ensures quiet { IsQuietBut (S.faults source.old) (S.faults source.new) Failed result }
    ensures cause { IsErrOf result Failed → Rose (S.faults source.old) (S.faults source.new) }
{
    let mut bytes = Vec::new(alloc);
    let mut window = window_of(alloc, WINDOW)?;
    'rounds: while bytes.len() <= limit {
        make_room(&mut bytes, limit)?;
        let count = piece_size(&bytes, limit);
        if get_more(source, &mut window[..count], &mut bytes)? == 0 {
            return Ok(bytes);
        }
    }
    Err(SourceFault::Limit)
}
