// A line that is held until it is taken.
ghost use Rattle.std.specs.Prelude.{◌≡◌, ◌≤◌, ◌<◌, ◌+◌, ◌^◌, ◌++◌, [], Contains, IfOk, length};
ghost use Rattle.swh_fastlex.specs.ReadOn.{IsReadOn};
ghost use Rattle.swh_fastlex.specs.Line.{unread};
ghost use Rattle.swh_fastrows.specs.Held.{IsHeld, before_limit, held_limit};
ghost use Rattle.swh_fastrows.specs.declared.fail.Outside.TheVariants.{Failed};

use crate::fail::Outside;
use swh_base::LINE_LIMIT;
use swh_fastlex::{Window, move_front};
use swh_outside::Source;

/// As many bytes show that a line is too long.
const HELD_LIMIT: usize = LINE_LIMIT + 1;

/// Moves the next line with its LF into `line`, which is empty: at most 1,048,577 bytes of it, one more than a line may
/// have, and what there is where the input ends before.
///
/// # Errors
///
/// The source fails, or memory runs out; some bytes are then lost.
pub fn hold_line<S: Source>(
    window: &mut Window,
    source: &mut S,
    line: &mut Vec<u8>,
) -> Result<(), Outside>
    requires empty { line.old.items ≡ [] }
    requires place { window.old.place ≤ 2 ^ 33 }
    ensures shape { IfOk result (λ _. IsHeld line.new.items) }
    ensures within { IfOk result (λ _. length line.new.items ≤ held_limit) }
    ensures few { IfOk result (λ _. length line.new.items + length window.new.bytes ≤ before_limit) }
    ensures counted { IfOk result (λ _. window.new.place ≡ window.old.place + length line.new.items) }
    ensures onward { window.old.place ≤ window.new.place }
    ensures place { window.new.place ≤ window.old.place + held_limit }
    ensures taken { S.tells → IfOk result (λ _. unread window.old (S.left source.old)
        ≡ line.new.items ++ unread window.new (S.left source.new)) }
    ensures end { S.tells → IfOk result (λ _. length line.new.items < held_limit
        → (Contains line.new.items 10 → ⊥) → unread window.new (S.left source.new) ≡ []) }

    ensures on { IsReadOn S.path S.faults source.old source.new Failed result }
{
    let _before = window.count();
    'pieces: while line.len() < HELD_LIMIT {
        if !window.fill(source)? {
            return Ok(());
        }
        let _held = window.count();
        let room = HELD_LIMIT - line.len();
        if move_front(window, line, room)? {
            return Ok(());
        }
    }
    Ok(())
}
