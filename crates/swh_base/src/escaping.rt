//! Escaped texts (RFC 3986, percent-encoding).

ghost use Rattle.std.specs.Prelude.{◌≡◌, IfOk, string_bytes};
ghost use Rattle.swh_base.specs.Escape.{escaped};

use percent_encoding::{AsciiSet, CONTROLS, ascii_set, percent_encode};
use std::alloc::{AllocError, Global};

/// The bytes that are escaped, beside those outside ASCII.
const ESCAPED: AsciiSet = ascii_set!(CONTROLS.add(b' ').add(b'%').add(b';'));

/// The bytes as a text in which each byte up to a space, `%`, `;`, and each from 127 on is written as `%` and two
/// upper-case hexadecimal digits. Fails where memory runs out.
pub fn escape(alloc: Global, bytes: &[u8]) -> Result<String, AllocError>
    ensures { IfOk result (λ text. string_bytes text ≡ escaped bytes.now) }
{
    let mut text = String::new(alloc);
    percent_encode(bytes, ESCAPED).append_to(&mut text)?;
    Ok(text)
}
