// Lines of a source, read through a window.
ghost use Rattle.std.specs.Prelude.{◌≡◌, ◌≤◌, ◌<◌, ◌+◌, ◌^◌, IfOk, IfErr, IfSome, IfNone, IsErrOf, length};
ghost use Rattle.swh_outside.specs.Source.{LosesSome};
ghost use Rattle.swh_base.specs.Limits.{line_limit};
ghost use Rattle.swh_fastlex.specs.ReadOn.{IsReadOn};
ghost use Rattle.swh_fastlex.specs.Line.{unread, Takes, IsLine, IsAtEnd, IsCutLine, IsLongLine, MovesFront};
ghost use Rattle.swh_fastlex.specs.declared.fault.LineFault.TheVariants.{Failed, End, Limit};

use crate::fault::LineFault;
use crate::window::Window;
use std::alloc::{AllocError, Global};
use swh_base::LINE_LIMIT;
use swh_outside::Source;

/// Moves what is held up to and with its first LF, or as much of it as there is room for, to the end of the line, and
/// answers whether there was an LF.
pub fn move_front(window: &mut Window, line: &mut Vec<u8>, room: usize) -> Result<bool, AllocError>
    requires some { 0 < room }
    requires fits { window.old.place + room < 2 ^ 64 }
    ensures moved { IfOk result (MovesFront window.old window.new line.old.items line.new.items room) }
    ensures same { IfErr result (λ _. window.new ≡ window.old) }
{
    let held = window.held();
    let front = &held[..room.min(held.len())];
    match front.iter().position(|byte| *byte == b'\n') {
        Some(i) => {
            line.extend_from_slice(&front[..i + 1])?;
            window.skip(i + 1);
            Ok(true)
        }
        None => {
            let count = front.len();
            line.extend_from_slice(front)?;
            window.skip(count);
            Ok(false)
        }
    }
}

/// The next line with its LF, at most 1,048,576 bytes. None where nothing is to be read.
///
/// # Errors
///
/// `End` where the input ends inside a line, which is then read; `Limit` where the next 1,048,576 bytes have no LF
/// and more follows, and these alone are then read; `Failed` where the source fails, and `Memory`, of which some bytes are lost.
pub fn next_line<S: Source>(
    alloc: Global,
    window: &mut Window,
    source: &mut S,
) -> Result<Option<Vec<u8>>, LineFault>
    requires { window.old.place ≤ 2 ^ 63 }
    ensures line { IfOk result (λ found. IfSome found (λ line. IsLine line.items)) }
    ensures within { IfOk result (λ found. IfSome found (λ line. length line.items ≤ line_limit)) }
    ensures counted { IfOk result (λ found. IfSome found (λ line. window.new.place
        ≡ window.old.place + length line.items)) }
    ensures taken { S.tells → IfOk result (λ found. IfSome found (λ line. Takes window.old window.new
        (S.left source.old) (S.left source.new) line.items)) }
    ensures none { S.tells → IfOk result (λ found. IfNone found (IsAtEnd window.old window.new
        (S.left source.old) (S.left source.new))) }
    ensures end { S.tells → IsErrOf result End → IsCutLine line_limit window.old window.new (S.left source.old)
        (S.left source.new) }
    ensures limit { S.tells → IsErrOf result Limit → IsLongLine line_limit window.old window.new (S.left source.old)
        (S.left source.new) }
    ensures loses { S.tells → IfErr result (λ _. LosesSome (unread window.old (S.left source.old))
        (unread window.new (S.left source.new))) }
    ensures place { window.new.place ≤ window.old.place + line_limit }

    ensures on { IsReadOn S.path S.faults source.old source.new Failed result }
{
    let mut line = Vec::new(alloc);
    'pieces: while line.len() < LINE_LIMIT {
        if !window.fill(source)? {
            return if line.is_empty() {
                Ok(None)
            } else {
                Err(LineFault::End)
            };
        }
        let room = LINE_LIMIT - line.len();
        if move_front(window, &mut line, room)? {
            return Ok(Some(line));
        }
    }
    if window.fill(source)? {
        Err(LineFault::Limit)
    } else {
        Err(LineFault::End)
    }
}
