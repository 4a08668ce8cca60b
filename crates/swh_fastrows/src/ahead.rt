// What the bytes that are held are.
ghost use Rattle.std.specs.Prelude.{◌≤◌, ◌+◌, ◌^◌, Contains, MatchBool, length};
ghost use Rattle.swh_fastlex.specs.Line.{IsLine};
ghost use Rattle.swh_fastrows.specs.Held.{IsHeld, IsAhead, held_limit};

use crate::row_source::STREAM_LIMIT;
use swh_base::LINE_LIMIT;

/// What comes next in a stream.
#[derive(Clone, Copy, Debug, PartialEq, Eq)]
pub enum Ahead {
    /// A line with its LF.
    Line,
    /// The end of the input, before an LF.
    End,
    /// More bytes than a line may have.
    Long,
    /// Bytes that end after the last that a stream may have.
    Over,
}

/// Whether the bytes end with an LF.
fn ends_line(held: &[u8]) -> bool
    requires { IsHeld held.now }
    ensures { MatchBool result (IsLine held.now) (Contains held.now 10 → ⊥) }
{
    match held.last() {
        Some(byte) => *byte == b'\n',
        None => false,
    }
}

/// What the bytes that are held from this place on are.
pub fn ahead_of(at: u64, held: &[u8]) -> Ahead
    requires shape { IsHeld held.now }
    requires short { length held.now ≤ held_limit }
    requires fits { at ≤ 2 ^ 34 }
    ensures { IsAhead at held.now result }
{
    if at + held.len() as u64 > STREAM_LIMIT {
        return Ahead::Over;
    }
    if held.len() > LINE_LIMIT {
        return Ahead::Long;
    }
    if ends_line(held) {
        Ahead::Line
    } else {
        Ahead::End
    }
}
