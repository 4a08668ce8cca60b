//! Texts that several crates read: digits, refs (gitrevisions(7), git-check-ref-format(1), restricted), and persons
//! (git-fast-import(1), author and committer), which are carried byte for byte.

ghost use Rattle.std.specs.Prelude.{◌≡◌, ◌↔◌, IsTrue};
ghost use Rattle.std.specs.List.{AllPass};
ghost use Rattle.swh_base.specs.Text.{
  is_digit,
  is_ref_byte,
  is_person_byte,
  IsRef,
  IsPerson,
  IsNamed,
  IsSeconds,
  IsZone,
  IsDate,
};

use crate::limits::REF_LIMIT;
use crate::pieces::{behind, split_at_byte};

/// Whether a byte is a digit, `0` to `9`.
pub fn is_digit(byte: u8) -> bool
    ensures { result ≡ is_digit byte }
{
    byte >= b'0' && byte <= b'9'
}

/// Whether each byte of the text is a digit.
pub fn are_digits(text: &[u8]) -> bool
    ensures { IsTrue result ↔ AllPass is_digit text.now }
{
    text.iter().all(|byte| is_digit(*byte))
}

fn is_ref_byte(byte: u8) -> bool
    ensures { result ≡ is_ref_byte byte }
{
    byte >= 33
        && !(byte == 127)
        && !(byte == b'^')
        && !(byte == b':')
        && !(byte == b'~')
        && !(byte == b'?')
        && !(byte == b'*')
        && !(byte == b'[')
        && !(byte == b'\\')
}

/// Whether the text is a ref: 1 to 1,024 bytes, none up to a space, no DEL, none of `^ : ~ ? * [ \`.
pub fn is_ref(text: &[u8]) -> bool
    ensures { IsTrue result ↔ IsRef text.now }
{
    !text.is_empty() && text.len() <= REF_LIMIT && text.iter().all(|byte| is_ref_byte(*byte))
}

fn are_person_bytes(text: &[u8]) -> bool
    ensures { IsTrue result ↔ AllPass is_person_byte text.now }
{
    text.iter()
        .all(|c| *c != b'<' && *c != b'>' && *c != b'\n' && *c != b'\0')
}

/// Nothing, or a name and a space.
fn is_named(text: &[u8]) -> bool
    ensures { IsTrue result ↔ IsNamed text.now }
{
    if !are_person_bytes(text) {
        return false;
    }
    match text.split_last() {
        Some((last, _)) => *last == b' ',
        None => true,
    }
}

fn are_seconds(text: &[u8]) -> bool
    ensures { IsTrue result ↔ IsSeconds text.now }
{
    !text.is_empty() && text.len() <= 18 && are_digits(text)
}

fn is_zone(text: &[u8]) -> bool
    ensures { IsTrue result ↔ IsZone text.now }
{
    match text.split_first() {
        Some((sign, digits)) => {
            (*sign == b'+' || *sign == b'-') && digits.len() == 4 && are_digits(digits)
        }
        None => false,
    }
}

/// A space, seconds, a space and a time zone.
fn is_date(text: &[u8]) -> bool
    ensures { IsTrue result ↔ IsDate text.now }
{
    let Some(rest) = behind(b" ", text) else {
        return false;
    };
    let Some((seconds, zone)) = split_at_byte(rest, b' ') else {
        return false;
    };
    if !are_seconds(seconds) {
        return false;
    }
    is_zone(zone)
}

/// Whether the text is a person: `name <email> seconds +zone`, where the name and the space after it may lack.
pub fn is_person(text: &[u8]) -> bool
    ensures { IsTrue result ↔ IsPerson text.now }
{
    let Some((name, rest)) = split_at_byte(text, b'<') else {
        return false;
    };
    let Some((email, date)) = split_at_byte(rest, b'>') else {
        return false;
    };
    if !is_named(name) {
        return false;
    }
    if !are_person_bytes(email) {
        return false;
    }
    is_date(date)
}
