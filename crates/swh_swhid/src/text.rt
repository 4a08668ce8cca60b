//! Texts of origins and paths, and the bytes that they stand for.

ghost use Rattle.std.specs.Prelude.{◌≡◌, ℕ, List, ◌∷◌, true, IfOk, IfErr, OnOk, IfSome, IfNone};
ghost use Rattle.hex.specs.Hex.{is_hex_digit};
ghost use Rattle.percent_encoding.specs.Percent.{percent_decode};
ghost use Rattle.swh_swhid.specs.Front.{BreaksAt};
ghost use Rattle.swh_swhid.specs.Text.{is_text_byte, IsText, IsOriginText, IsPathText, IsTextBehind, IsDueNext};

use crate::front::behind;
use std::alloc::Global;
use swh_base::{Bytes, Memory};

/// How many hexadecimal digits are due at a place of a text.
#[derive(Clone, Copy)]
pub enum Due {
    Nothing,
    /// The second after a `%`.
    Second,
    /// Both after a `%`.
    Both,
}

fn is_hex_digit(c: u8) -> bool
    ensures { result ≡ is_hex_digit c }
{
    matches!(c, b'0'..=b'9' | b'A'..=b'F' | b'a'..=b'f')
}

fn is_text_byte(c: u8) -> bool
    ensures { result ≡ is_text_byte c }
{
    c >= 33 && c != b';' && c != 127
}

/// What is due after the byte, if it may stand here.
fn due_behind(due: Due, c: u8) -> Option<Due>
    ensures some { IfSome result (λ next. IsDueNext due c next) }
    ensures none { IfNone result ((y : List ℕ) → IsTextBehind due (c ∷ y) → ⊥) }
{
    match due {
        Due::Nothing if c == b'%' => Some(Due::Both),
        Due::Nothing if is_text_byte(c) => Some(Due::Nothing),
        Due::Second if is_hex_digit(c) => Some(Due::Nothing),
        Due::Both if is_hex_digit(c) => Some(Due::Second),
        _ => None,
    }
}

/// `Ok` where these bytes are a text, else the place where they break off.
fn read_text(text: &[u8]) -> Result<(), usize>
    ensures ok { OnOk result (IsText text.now) }
    ensures err { IfErr result (λ n. BreaksAt IsText text.now n) }
{
    let mut due = Due::Nothing;
    for (i, c) in text.iter().enumerate() {
        match due_behind(due, *c) {
            Some(next) => due = next,
            None => return Err(i),
        }
    }
    match due {
        Due::Nothing => Ok(()),
        _ => Err(text.len()),
    }
}

/// `Ok` where these bytes are an origin's text, else the place where they break off.
pub fn read_origin(text: &[u8]) -> Result<(), usize>
    ensures ok { OnOk result (IsOriginText text.now) }
    ensures err { IfErr result (λ n. BreaksAt IsOriginText text.now n) }
{
    if text.is_empty() {
        return Err(0);
    }
    read_text(text)
}

/// `Ok` where these bytes are a path's text, else the place where they break off.
pub fn read_path(text: &[u8]) -> Result<(), usize>
    ensures ok { OnOk result (IsPathText text.now) }
    ensures err { IfErr result (λ n. BreaksAt IsPathText text.now n) }
{
    if text.is_empty() {
        return Err(0);
    }
    if text[0] != b'/' {
        return Err(0);
    }
    match read_text(behind(text, 1)) {
        Ok(()) => Ok(()),
        Err(at) => Err(1 + at),
    }
}

/// The bytes that a text stands for (RFC 3986, percent-encoding). Fails where memory runs out.
pub fn decode(alloc: Global, text: &[u8]) -> Result<Bytes, Memory>
    ensures { IfOk result (λ bytes. bytes ≡ percent_decode text.now) }
{
    let mut bytes = Vec::new(alloc);
    percent_encoding::percent_decode(text).append_to(&mut bytes)?;
    Ok(Bytes::from_vec(bytes))
}
