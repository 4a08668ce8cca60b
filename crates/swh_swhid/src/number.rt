//! Numbers of up to 18 digits, and ranges of them.

ghost use Rattle.std.specs.Prelude.{◌≡◌, ◌+◌, ◌*◌, ◌<◌, ◌≤◌, ◌^◌, IsTrue, IfOk, IfErr, ◌↔◌};
ghost use Rattle.swh_swhid.specs.Front.{BreaksAt};
ghost use Rattle.swh_swhid.specs.Number.{
  number_limit,
  IsDigit,
  IsNumberText,
  HasNumber,
  IsRange,
  HasRange,
  range_text,
  ZerosAllow,
  MayTakeDigit,
  IsNumberFront,
};

use crate::front::behind;

/// The digits at the front of a text with which a number may begin.
#[derive(Clone, Copy)]
struct Digits {
    value: u64,
    count: usize,
}

fn is_digit(c: u8) -> bool
    ensures { IsTrue result ↔ IsDigit c }
{
    c >= b'0' && c <= b'9'
}

/// Whether zeros allow the byte: none stands before other digits, and `0` alone is at least `least`.
fn zeros_allow(least: u64, value: u64, count: usize, c: u8) -> bool
    ensures { IsTrue result ↔ ZerosAllow least value count c }
{
    if count > 0 {
        value > 0
    } else {
        c != b'0' || least == 0
    }
}

/// Whether that many more digits can raise the value to `least`.
fn reaches(least: u64, value: u64, left: u32) -> bool
    requires { left ≤ 17 }
    ensures { IsTrue result ↔ (least < (value + 1) * 10 ^ left) }
{
    least / 10_u64.pow(left) <= value
}

/// Whether the byte may come after these digits, on the way to a number of at least `least`.
fn may_follow(least: u64, value: u64, count: usize, c: u8) -> bool
    requires { value < 10 ^ count }
    ensures { IsTrue result ↔ MayTakeDigit least value count c }
{
    if !is_digit(c) {
        return false;
    }
    if count >= 18 {
        return false;
    }
    if !zeros_allow(least, value, count, c) {
        return false;
    }
    reaches(least, value * 10 + u64::from(c - b'0'), 17 - count as u32)
}

/// The longest digits at the front of a text that a number of at least `least` begins with.
fn digits_front(least: u64, text: &[u8]) -> Digits
    requires { least < number_limit }
    ensures { IsNumberFront least text.now result.value result.count }
{
    let mut value = 0;
    for (i, c) in text.iter().enumerate() {
        if !may_follow(least, value, i, *c) {
            return Digits { value, count: i };
        }
        value = value * 10 + u64::from(*c - b'0');
    }
    Digits {
        value,
        count: text.len(),
    }
}

/// The number of at least `least` that the text is, or where it breaks off.
fn read_number(least: u64, text: &[u8]) -> Result<u64, usize>
    requires { least < number_limit }
    ensures ok { IfOk result (λ number. IsNumberText least text.now number) }
    ensures err { IfErr result (λ n. BreaksAt (HasNumber least) text.now n) }
{
    let digits = digits_front(least, text);
    if digits.count < text.len() {
        return Err(digits.count);
    }
    if digits.count == 0 {
        return Err(0);
    }
    if digits.value < least {
        return Err(digits.count);
    }
    Ok(digits.value)
}

/// The range of at least `least` that the text is, or where it breaks off.
pub fn read_range(least: u64, text: &[u8]) -> Result<(u64, Option<u64>), usize>
    requires { least ≤ 1 }
    ensures ok { IfOk result (λ range. IsRange least range.0 range.1 × (text.now ≡ range_text range.0 range.1)) }
    ensures err { IfErr result (λ n. BreaksAt (HasRange least) text.now n) }
{
    let first = digits_front(least, text);
    if first.count == 0 {
        return Err(0);
    }
    if first.count == text.len() {
        return Ok((first.value, None));
    }
    if text[first.count] != b'-' {
        return Err(first.count);
    }
    let start = first.count + 1;
    match read_number(first.value, behind(text, start)) {
        Ok(last) => Ok((first.value, Some(last))),
        Err(at) => Err(start + at),
    }
}
