// Sources read a window at a time.
ghost use Rattle.std.specs.Prelude.{◌≡◌, ◌≢◌, ◌+◌, ◌≤◌, ◌<◌, IfOk, IfErr, IsErrOf, length, vec_len};
ghost use Rattle.swh_outside.specs.Faults.{Rose};
ghost use Rattle.swh_fastlex.specs.ReadOn.{IsQuietBut};
ghost use Rattle.swh_fastlex.specs.Whole.{IsAllThatWasLeft, IsFront, IsCutAbove, GivesAtMost, TakesMore};
ghost use Rattle.swh_fastlex.specs.declared.fault.SourceFault.TheVariants.{Failed, Limit};

use crate::fault::SourceFault;
use std::alloc::{AllocError, Global};
use swh_outside::Source;

/// The most bytes that are got at a time.
pub const WINDOW: usize = 65_536;

/// Room for this many bytes.
pub fn window_of(alloc: Global, size: usize) -> Result<Vec<u8>, AllocError>
    ensures { IfOk result (λ window. vec_len window ≡ size) }
{
    Vec::from_elem(alloc, 0, size)
}

/// Takes the next bytes that are left to the end of `bytes`; 0 is the end of input.
pub fn get_more<S: Source>(
    source: &mut S,
    window: &mut [u8],
    bytes: &mut Vec<u8>,
) -> Result<usize, SourceFault>
    requires { 0 < length window.old }
    ensures more { S.tells → IfOk result (λ n. TakesMore (S.left source.old) (S.left source.new)
        (S.given source.old) (S.given source.new) bytes.old.items bytes.new.items n) }
    ensures longer { IfOk result (λ n. length bytes.new.items ≡ length bytes.old.items + n) }
    ensures within { IfOk result (λ n. n ≤ length window.old) }
    // Also where it fails, or memory runs out.
    ensures given { S.tells → GivesAtMost (S.given source.old) (S.given source.new) (length window.old) }

    ensures same_path { S.path source.new ≡ S.path source.old }
    ensures later { S.faults source.old ≤ S.faults source.new }
    ensures quiet { IsQuietBut (S.faults source.old) (S.faults source.new) Failed result }
    ensures not_limit { IfErr result (λ fault. fault ≢ Limit) }
    ensures cause { IsErrOf result Failed → Rose (S.faults source.old) (S.faults source.new) }
{
    let count = source.get(window)?;
    bytes.extend_from_slice(&window[..count])?;
    Ok(count)
}

/// A front of what is left of a source: all of it where it is no longer than the limit, else more than the limit. No
/// more than a window above the limit is taken, whatever the answer.
///
/// # Errors
///
/// `Failed` where the source fails, and `Memory`.
pub fn read_front<S: Source>(
    alloc: Global,
    source: &mut S,
    limit: usize,
) -> Result<Vec<u8>, SourceFault>
    ensures front { S.tells → IfOk result (λ bytes. IsFront (S.left source.old) (S.left source.new) limit bytes.items) }
    ensures within { IfOk result (λ bytes. length bytes.items ≤ limit + WINDOW) }
    ensures given { S.tells → GivesAtMost (S.given source.old) (S.given source.new) (limit + WINDOW) }

    ensures same_path { S.path source.new ≡ S.path source.old }
    ensures later { S.faults source.old ≤ S.faults source.new }
    ensures quiet { IsQuietBut (S.faults source.old) (S.faults source.new) Failed result }
    ensures not_limit { IfErr result (λ fault. fault ≢ Limit) }
    ensures cause { IsErrOf result Failed → Rose (S.faults source.old) (S.faults source.new) }
{
    let mut bytes = Vec::new(alloc);
    let mut window = window_of(alloc, WINDOW)?;
    'rounds: while bytes.len() <= limit {
        if get_more(source, window.as_mut_slice(), &mut bytes)? == 0 {
            return Ok(bytes);
        }
    }
    Ok(bytes)
}

/// All that is left of a source, where it is no longer than the limit. No more than a window above the limit is taken,
/// whatever the answer.
///
/// # Errors
///
/// `Limit` where more is left than the limit, `Failed` where the source fails, and `Memory`.
pub fn read_source<S: Source>(
    alloc: Global,
    source: &mut S,
    limit: usize,
) -> Result<Vec<u8>, SourceFault>
    ensures whole { S.tells → IfOk result (λ bytes. IsAllThatWasLeft (S.left source.old)
        (S.left source.new) bytes.items) }
    ensures within { IfOk result (λ bytes. length bytes.items ≤ limit) }
    ensures over { S.tells → IsErrOf result Limit → limit < length (S.left source.old) }
    ensures cut { S.tells → IsErrOf result Limit → IsCutAbove (S.left source.old) (S.left source.new) limit
        (limit + WINDOW) }
    ensures given { S.tells → GivesAtMost (S.given source.old) (S.given source.new) (limit + WINDOW) }

    ensures same_path { S.path source.new ≡ S.path source.old }
    ensures later { S.faults source.old ≤ S.faults source.new }
    ensures quiet { IsQuietBut (S.faults source.old) (S.faults source.new) Failed result }
    ensures cause { IsErrOf result Failed → Rose (S.faults source.old) (S.faults source.new) }
{
    let bytes = read_front(alloc, source, limit)?;
    if bytes.len() > limit {
        return Err(SourceFault::Limit);
    }
    Ok(bytes)
}
