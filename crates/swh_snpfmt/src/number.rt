//! Decimal numbers in a body.

ghost use Rattle.std.specs.Prelude.{◌≡◌, ◌^◌, ◌<◌, ℕ, IfSome, IfNone, decimal};

use itoa::Buffer;

/// The number of these decimal digits, which have no leading zero but `0` itself.
pub fn number_of(digits: &[u8]) -> Option<usize>
    ensures some { IfSome result (λ n. digits.now ≡ decimal n) }
    ensures none { IfNone result ((n : ℕ) → n < 2 ^ 64 → digits.now ≡ decimal n → ⊥) }
{
    let Ok(text) = str::from_utf8(digits) else {
        return None;
    };
    let Ok(number) = text.parse::<usize>() else {
        return None;
    };
    let mut buffer = Buffer::new();
    if buffer.format(number).as_bytes() == digits {
        Some(number)
    } else {
        None
    }
}
