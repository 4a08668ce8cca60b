//! SWHID texts, piece by piece: a core identifier, and qualifiers, each after a `;`.

ghost use Rattle.std.specs.Prelude.{◌≡◌, ◌<◌, ◌≤◌, length, take, drop, true, false, IfOk, IfErr, IfSome, IfNone};
ghost use Rattle.swh_swhid.specs.declared.swhid.Swhid.{Swhid};
ghost use Rattle.swh_swhid.specs.declared.swhid.Key.{Key};
ghost use Rattle.swh_swhid.specs.Qualifier.{is_free, unqualified, IsSwhid, HasSwhid};
ghost use Rattle.swh_swhid.specs.Reading.{is_whole, IsPieceEnd, IsPlace, ExplainsSwhid, GivesSwhid};

use crate::fault::SwhidFault;
use crate::front::{behind, front};
use crate::identifier::{Role, read_core};
use crate::qualifier::{add_qualifier, bad, is_free};
use crate::swhid::{Key, Swhid};
use std::alloc::Global;
use swh_base::Name;

/// Where the first piece of these bytes ends: at a `;`, or at their end.
fn piece_end(text: &[u8]) -> usize
    ensures within { result ≤ length text.now }
    ensures whole { is_whole (take result text.now) ≡ true }
    ensures closed { IsPieceEnd (drop result text.now) }
{
    for (i, c) in text.iter().enumerate() {
        if *c == b';' {
            return i;
        }
    }
    text.len()
}

fn bare(core: Name) -> Swhid
    ensures { result ≡ unqualified core }
{
    Swhid {
        core,
        origin: None,
        visit: None,
        anchor: None,
        path: None,
        lines: None,
        bytes: None,
    }
}

/// A key that the value says nothing of, if there is one.
fn free_key(swhid: &Swhid) -> Option<Key>
    ensures some { IfSome result (λ key. is_free swhid.now key ≡ true) }
    ensures none { IfNone result ((key : Key) → is_free swhid.now key ≡ false) }
{
    if is_free(swhid, Key::Origin) {
        Some(Key::Origin)
    } else if is_free(swhid, Key::Visit) {
        Some(Key::Visit)
    } else if is_free(swhid, Key::Anchor) {
        Some(Key::Anchor)
    } else if is_free(swhid, Key::Path) {
        Some(Key::Path)
    } else if is_free(swhid, Key::Lines) {
        Some(Key::Lines)
    } else if is_free(swhid, Key::Bytes) {
        Some(Key::Bytes)
    } else {
        None
    }
}

/// Takes the qualifier after the `;` here, and says where it ends.
fn read_next(alloc: Global, swhid: &mut Swhid, text: &[u8], at: usize) -> Result<usize, SwhidFault>
    requires place { IsPlace text.now at swhid.old }
    requires within { at < length text.now }
    ensures ok { IfOk result (λ next. (at < next) × IsPlace text.now next swhid.new) }
    ensures err { IfErr result (ExplainsSwhid HasSwhid text.now) }
{
    if free_key(swhid).is_none() {
        return Err(bad(at));
    }
    let start = at + 1;
    let rest = behind(text, start);
    let end = piece_end(rest);
    match add_qualifier(alloc, swhid, front(rest, end)) {
        Ok(()) => Ok(start + end),
        Err(SwhidFault::Memory) => Err(SwhidFault::Memory),
        Err(SwhidFault::BadText { at: within }) => Err(SwhidFault::BadText {
            at: start as u64 + within,
        }),
    }
}

/// Reads the text: the value that the text is a SWHID of.
fn read(alloc: Global, text: &[u8]) -> Result<Swhid, SwhidFault>
    ensures ok { IfOk result (λ swhid. IsPlace text.now (length text.now) swhid) }
    ensures err { IfErr result (ExplainsSwhid HasSwhid text.now) }
{
    let mut at = piece_end(text);
    let mut swhid = match read_core(Role::Text, front(text, at)) {
        Ok(core) => bare(core),
        Err(within) => return Err(bad(within)),
    };
    while at < text.len() {
        at = match read_next(alloc, &mut swhid, text, at) {
            Ok(next) => next,
            Err(fault) => return Err(fault),
        };
    }
    Ok(swhid)
}

/// The value that the text is a SWHID of (SWHID v1.2, core identifiers and qualified identifiers).
///
/// The text is `swh:1:`, `cnt`, `dir`, `rev`, `rel` or `snp`, a colon and 40 lower-case digits; then qualifiers in any
/// order, each once at most, as `;key=value`. The keys are `origin`, `visit`, `anchor`, `path`, `lines` and `bytes`. In
/// origin and path `%` and two hexadecimal digits of either case stand for a byte (RFC 3986, percent-encoding).
///
/// Fails with the length in bytes of the longest front that some SWHID begins with, or where memory runs out.
pub fn parse(alloc: Global, text: &[u8]) -> Result<Swhid, SwhidFault>
    // What is read is the text's value.
    ensures ok { IfOk result (λ swhid. IsSwhid text.now swhid) }
    // A SWHID's text is read, unless memory runs out.
    ensures only { (swhid : Swhid) → IsSwhid text.now swhid → GivesSwhid result swhid }
    // What is refused is no SWHID's text, and breaks off there.
    ensures err { IfErr result (ExplainsSwhid HasSwhid text.now) }
{
    read(alloc, text)
}
