//! Qualifiers: a key, a `=` and a value.

ghost use Rattle.std.specs.Prelude.{◌≡◌, ◌<◌, ◌+◌, ℕ, List, length, true, IfOk, IfErr, OnOk};
ghost use Rattle.swh_swhid.specs.declared.swhid.Key.{Key};
ghost use Rattle.swh_swhid.specs.Front.{BreaksAt, common};
ghost use Rattle.swh_swhid.specs.Qualifier.{key_word, is_free, IsValueText, Says, AddsQualifier, MayComeNext};
ghost use Rattle.swh_swhid.specs.Reading.{along_key, ExplainsSwhid};

use crate::fault::SwhidFault;
use crate::front::{behind, shared};
use crate::identifier::{Role, read_core};
use crate::number::read_range;
use crate::swhid::{Key, Swhid};
use crate::text::{decode, read_origin, read_path};
use std::alloc::Global;

/// The key and the `=` after it.
pub fn key_word(key: Key) -> &'static [u8]
    ensures { result.now ≡ key_word key }
{
    match key {
        Key::Origin => b"origin=",
        Key::Visit => b"visit=",
        Key::Anchor => b"anchor=",
        Key::Path => b"path=",
        Key::Lines => b"lines=",
        Key::Bytes => b"bytes=",
    }
}

/// Whether the value lacks what the key says.
pub fn is_free(swhid: &Swhid, key: Key) -> bool
    ensures { result ≡ is_free swhid.now key }
{
    match key {
        Key::Origin => swhid.origin.is_none(),
        Key::Visit => swhid.visit.is_none(),
        Key::Anchor => swhid.anchor.is_none(),
        Key::Path => swhid.path.is_none(),
        Key::Lines => swhid.lines.is_none(),
        Key::Bytes => swhid.bytes.is_none(),
    }
}

/// How far the piece goes along with the key's word, where the key is free.
fn along(swhid: &Swhid, key: Key, piece: &[u8]) -> usize
    ensures { result ≡ along_key swhid.now key piece.now }
{
    if is_free(swhid, key) {
        shared(key_word(key), piece)
    } else {
        0
    }
}

/// The free key whose word begins the piece, or where all the free words break off.
fn key_of(swhid: &Swhid, piece: &[u8]) -> Result<Key, usize>
    requires { (key : Key) × (is_free swhid.now key ≡ true) }
    ensures ok { IfOk result (λ key. along_key swhid.now key piece.now ≡ length (key_word key)) }
    ensures err { IfErr result (λ n. BreaksAt (MayComeNext swhid.now) piece.now n) }
{
    let origin = along(swhid, Key::Origin, piece);
    let visit = along(swhid, Key::Visit, piece);
    let anchor = along(swhid, Key::Anchor, piece);
    let path = along(swhid, Key::Path, piece);
    let lines = along(swhid, Key::Lines, piece);
    let bytes = along(swhid, Key::Bytes, piece);
    if origin == 7 {
        Ok(Key::Origin)
    } else if visit == 6 {
        Ok(Key::Visit)
    } else if anchor == 7 {
        Ok(Key::Anchor)
    } else if path == 5 {
        Ok(Key::Path)
    } else if lines == 6 {
        Ok(Key::Lines)
    } else if bytes == 6 {
        Ok(Key::Bytes)
    } else {
        Err(
            origin
                .max(visit)
                .max(anchor)
                .max(path)
                .max(lines)
                .max(bytes),
        )
    }
}

/// The refusal of a text that breaks off there.
pub fn bad(at: usize) -> SwhidFault
    ensures { result ≡ SwhidFault.BadText at }
{
    SwhidFault::BadText { at: at as u64 }
}

fn add_origin(alloc: Global, swhid: &mut Swhid, text: &[u8]) -> Result<(), SwhidFault>
    ensures ok { OnOk result (Says Key.Origin text.now swhid.old swhid.new) }
    ensures err { IfErr result (ExplainsSwhid (IsValueText Key.Origin) text.now) }
{
    if let Err(at) = read_origin(text) {
        return Err(bad(at));
    }
    swhid.origin = Some(decode(alloc, text)?);
    Ok(())
}

fn add_path(alloc: Global, swhid: &mut Swhid, text: &[u8]) -> Result<(), SwhidFault>
    ensures ok { OnOk result (Says Key.Path text.now swhid.old swhid.new) }
    ensures err { IfErr result (ExplainsSwhid (IsValueText Key.Path) text.now) }
{
    if let Err(at) = read_path(text) {
        return Err(bad(at));
    }
    swhid.path = Some(decode(alloc, text)?);
    Ok(())
}

fn add_visit(swhid: &mut Swhid, text: &[u8]) -> Result<(), SwhidFault>
    ensures ok { OnOk result (Says Key.Visit text.now swhid.old swhid.new) }
    ensures err { IfErr result (ExplainsSwhid (IsValueText Key.Visit) text.now) }
{
    match read_core(Role::Visit, text) {
        Ok(name) => swhid.visit = Some(name),
        Err(at) => return Err(bad(at)),
    }
    Ok(())
}

fn add_anchor(swhid: &mut Swhid, text: &[u8]) -> Result<(), SwhidFault>
    ensures ok { OnOk result (Says Key.Anchor text.now swhid.old swhid.new) }
    ensures err { IfErr result (ExplainsSwhid (IsValueText Key.Anchor) text.now) }
{
    match read_core(Role::Anchor, text) {
        Ok(name) => swhid.anchor = Some(name),
        Err(at) => return Err(bad(at)),
    }
    Ok(())
}

fn add_lines(swhid: &mut Swhid, text: &[u8]) -> Result<(), SwhidFault>
    ensures ok { OnOk result (Says Key.Lines text.now swhid.old swhid.new) }
    ensures err { IfErr result (ExplainsSwhid (IsValueText Key.Lines) text.now) }
{
    match read_range(1, text) {
        Ok(range) => swhid.lines = Some(range),
        Err(at) => return Err(bad(at)),
    }
    Ok(())
}

fn add_bytes(swhid: &mut Swhid, text: &[u8]) -> Result<(), SwhidFault>
    ensures ok { OnOk result (Says Key.Bytes text.now swhid.old swhid.new) }
    ensures err { IfErr result (ExplainsSwhid (IsValueText Key.Bytes) text.now) }
{
    match read_range(0, text) {
        Ok(range) => swhid.bytes = Some(range),
        Err(at) => return Err(bad(at)),
    }
    Ok(())
}

/// Takes what the text says as the key's value.
fn add_value(alloc: Global, swhid: &mut Swhid, key: Key, text: &[u8]) -> Result<(), SwhidFault>
    ensures ok { OnOk result (Says key text.now swhid.old swhid.new) }
    ensures err { IfErr result (ExplainsSwhid (IsValueText key) text.now) }
{
    match key {
        Key::Origin => add_origin(alloc, swhid, text),
        Key::Visit => add_visit(swhid, text),
        Key::Anchor => add_anchor(swhid, text),
        Key::Path => add_path(alloc, swhid, text),
        Key::Lines => add_lines(swhid, text),
        Key::Bytes => add_bytes(swhid, text),
    }
}

/// Takes what the piece says, which some key is free for.
pub fn add_qualifier(alloc: Global, swhid: &mut Swhid, piece: &[u8]) -> Result<(), SwhidFault>
    requires { (key : Key) × (is_free swhid.old key ≡ true) }
    ensures ok { OnOk result (AddsQualifier swhid.old piece.now swhid.new) }
    ensures err { IfErr result (ExplainsSwhid (MayComeNext swhid.old) piece.now) }
{
    let key = match key_of(swhid, piece) {
        Ok(key) => key,
        Err(at) => return Err(bad(at)),
    };
    let start = key_word(key).len();
    match add_value(alloc, swhid, key, behind(piece, start)) {
        Ok(()) => Ok(()),
        Err(SwhidFault::Memory) => Err(SwhidFault::Memory),
        Err(SwhidFault::BadText { at }) => Err(SwhidFault::BadText {
            at: start as u64 + at,
        }),
    }
}
