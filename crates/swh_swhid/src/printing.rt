//! The printed text of a value.

ghost use Rattle.std.specs.Prelude.{◌≡◌, ◌++◌, ◌∷◌, option_map, decimal, IfOk, OnOk};
ghost use Rattle.swh_base.specs.Escape.{escaped};
ghost use Rattle.swh_swhid.specs.Core.{core_text};
ghost use Rattle.swh_swhid.specs.Number.{range_text};
ghost use Rattle.swh_swhid.specs.Qualifier.{key_word};
ghost use Rattle.swh_swhid.specs.Printed.{said, said_range, printed};

use crate::identifier::core_text;
use crate::qualifier::key_word;
use crate::swhid::{Key, Swhid};
use itoa::Buffer;
use std::alloc::Global;
use swh_base::{Bytes, Memory, Name, escape};

fn put_core(out: &mut Vec<u8>, name: &Name) -> Result<(), Memory>
    ensures { OnOk result (out.new.items ≡ out.old.items ++ core_text name.now) }
{
    let mut text = [0; 50];
    core_text(name, &mut text);
    out.extend_from_slice(&text)?;
    Ok(())
}

fn put_key(out: &mut Vec<u8>, key: Key) -> Result<(), Memory>
    ensures { OnOk result (out.new.items ≡ out.old.items ++ 59 ∷ key_word key) }
{
    out.push(b';')?;
    out.extend_from_slice(key_word(key))?;
    Ok(())
}

fn put_escaped(alloc: Global, out: &mut Vec<u8>, bytes: &[u8]) -> Result<(), Memory>
    ensures { OnOk result (out.new.items ≡ out.old.items ++ escaped bytes.now) }
{
    let text = escape(alloc, bytes)?;
    out.extend_from_slice(text.as_bytes())?;
    Ok(())
}

fn put_number(out: &mut Vec<u8>, number: u64) -> Result<(), Memory>
    ensures { OnOk result (out.new.items ≡ out.old.items ++ decimal number) }
{
    let mut digits = Buffer::new();
    out.extend_from_slice(digits.format(number).as_bytes())?;
    Ok(())
}

fn put_text(alloc: Global, out: &mut Vec<u8>, key: Key, text: &Option<Bytes>) -> Result<(), Memory>
    ensures { OnOk result (out.new.items ≡ out.old.items ++ said key (option_map escaped text.now)) }
{
    match text {
        None => Ok(()),
        Some(bytes) => {
            put_key(out, key)?;
            put_escaped(alloc, out, bytes.as_slice())
        }
    }
}

fn put_name(out: &mut Vec<u8>, key: Key, name: &Option<Name>) -> Result<(), Memory>
    ensures { OnOk result (out.new.items ≡ out.old.items ++ said key (option_map core_text name.now)) }
{
    match name {
        None => Ok(()),
        Some(name) => {
            put_key(out, key)?;
            put_core(out, name)
        }
    }
}

fn put_last(out: &mut Vec<u8>, first: u64, last: Option<u64>) -> Result<(), Memory>
    ensures { OnOk result (out.new.items ≡ out.old.items ++ range_text first last) }
{
    put_number(out, first)?;
    match last {
        None => Ok(()),
        Some(last) => {
            out.push(b'-')?;
            put_number(out, last)
        }
    }
}

fn put_range(out: &mut Vec<u8>, key: Key, range: &Option<(u64, Option<u64>)>) -> Result<(), Memory>
    ensures { OnOk result (out.new.items ≡ out.old.items ++ said_range key range.now) }
{
    match range {
        None => Ok(()),
        Some(range) => {
            put_key(out, key)?;
            put_last(out, range.0, range.1)
        }
    }
}

/// The one printed text of the value: its core identifier, and its qualifiers in the order of their fields
/// (SWHID v1.2, qualified identifiers).
///
/// In origin and path each byte up to a space, `%`, `;`, and each from 127 on is written as `%` and two upper-case
/// hexadecimal digits (RFC 3986, percent-encoding). What is printed of a value that `parse` gives is a SWHID; of one
/// with an empty origin, say, it is none. Fails where memory runs out.
pub fn print(alloc: Global, swhid: &Swhid) -> Result<Vec<u8>, Memory>
    ensures { IfOk result (λ text. text.items ≡ printed swhid.now) }
{
    let mut out = Vec::new(alloc);
    put_core(&mut out, &swhid.core)?;
    put_text(alloc, &mut out, Key::Origin, &swhid.origin)?;
    put_name(&mut out, Key::Visit, &swhid.visit)?;
    put_name(&mut out, Key::Anchor, &swhid.anchor)?;
    put_text(alloc, &mut out, Key::Path, &swhid.path)?;
    put_range(&mut out, Key::Lines, &swhid.lines)?;
    put_range(&mut out, Key::Bytes, &swhid.bytes)?;
    Ok(out)
}
