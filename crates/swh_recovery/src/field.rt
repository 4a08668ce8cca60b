//! Fields that have to stand one after another, and the first that does not.
ghost use Rattle.std.specs.Prelude.{◌≡◌, ◌+◌, ◌<◌, ◌^◌, ◌∷◌, ◌++◌, IfOk, IfErr, OnOk, length};
ghost use Rattle.std.specs.Int.{w32, w64, to_be_bytes};
ghost use Rattle.swh_format.specs.declared.kinds.Field.TheVariants.{Byte, Snapshot};
ghost use Rattle.swh_recovery.specs.declared.harm.Harm.TheVariants.{Short};
ghost use Rattle.swh_format.specs.Fields.{IsAmong, FieldsHold};
ghost use Rattle.swh_format.specs.Kinds.{choices};
ghost use Rattle.swh_recovery.specs.Fields.{IsCut, IsFieldThen, found_at, FieldBreaks, FieldsBreak};

use crate::harm::{Found, Harm};
use swh_format::{Choice, Field, may_stand, split_bytes, split_eight, split_four};

/// Fewer bytes than needed.
pub fn cut(have: usize, need: u64, at: u64) -> Found
    ensures { result ≡ found_at at (Short have need) }
{
    let have = have as u64;
    Found {
        at,
        harm: Harm::Short { have, need },
    }
}

/// As many bytes, and what is behind them.
pub fn take_bytes(bytes: &[u8], count: u64, at: u64) -> Result<(&[u8], &[u8]), Found>
    ensures ok { IfOk result (λ x. (bytes.now ≡ x.0.now ++ x.1.now) × (length x.0.now ≡ count)) }
    ensures err { IfErr result (IsCut count bytes.now at) }
{
    match split_bytes(bytes, count) {
        Some(parts) => Ok(parts),
        None => Err(cut(bytes.len(), count, at)),
    }
}

/// A byte that may stand there, and what is behind it.
pub fn take_byte(bytes: &[u8], choice: Choice, at: u64) -> Result<(u8, &[u8]), Found>
    ensures ok { IfOk result (λ x. (bytes.now ≡ x.0 ∷ x.1.now) × IsAmong x.0 (choices choice)) }
    ensures err { IfErr result (FieldBreaks (Byte choice) bytes.now at) }
{
    let Some((byte, rest)) = bytes.split_first() else {
        return Err(cut(0, 1, at));
    };
    if !may_stand(choice, *byte) {
        let harm = Harm::Kind { found: *byte };
        return Err(Found { at, harm });
    }
    Ok((*byte, rest))
}

/// A number in four bytes, the highest first, and what is behind it.
pub fn take_four(bytes: &[u8], at: u64) -> Result<(u32, &[u8]), Found>
    ensures ok { IfOk result (λ x. (bytes.now ≡ to_be_bytes w32 x.0 ++ x.1.now) × (x.0 < 2 ^ 32)) }
    ensures err { IfErr result (IsCut 4 bytes.now at) }
{
    match split_four(bytes) {
        Some(parts) => Ok(parts),
        None => Err(cut(bytes.len(), 4, at)),
    }
}

/// A number in eight bytes, the highest first, and what is behind it.
pub fn take_eight(bytes: &[u8], at: u64) -> Result<(u64, &[u8]), Found>
    ensures ok { IfOk result (λ x. (bytes.now ≡ to_be_bytes w64 x.0 ++ x.1.now) × (x.0 < 2 ^ 64)) }
    ensures err { IfErr result (IsCut 8 bytes.now at) }
{
    match split_eight(bytes) {
        Some(parts) => Ok(parts),
        None => Err(cut(bytes.len(), 8, at)),
    }
}

// What is behind a snapshot's id, or behind the byte that says that there is none.
fn behind_snapshot(bytes: &[u8], at: u64) -> Result<&[u8], Found>
    requires { at + length bytes.now < 2 ^ 64 }
    ensures ok { IfOk result (λ rest. IsFieldThen Snapshot bytes.now rest.now) }
    ensures err { IfErr result (FieldBreaks Snapshot bytes.now at) }
{
    let (byte, rest) = take_byte(bytes, Choice::Snapshot, at)?;
    if byte == 0 {
        return Ok(rest);
    }
    let (_id, rest) = take_bytes(rest, 20, at + 1)?;
    Ok(rest)
}

// What is behind a field.
fn behind_field(field: Field, bytes: &[u8], at: u64) -> Result<&[u8], Found>
    requires { at + length bytes.now < 2 ^ 64 }
    ensures ok { IfOk result (λ rest. IsFieldThen field bytes.now rest.now) }
    ensures err { IfErr result (FieldBreaks field bytes.now at) }
{
    match field {
        Field::Four => {
            let (_front, rest) = take_bytes(bytes, 4, at)?;
            Ok(rest)
        }
        Field::Eight => {
            let (_front, rest) = take_bytes(bytes, 8, at)?;
            Ok(rest)
        }
        Field::Id => {
            let (_front, rest) = take_bytes(bytes, 20, at)?;
            Ok(rest)
        }
        Field::Byte(choice) => {
            let (_byte, rest) = take_byte(bytes, choice, at)?;
            Ok(rest)
        }
        Field::Snapshot => behind_snapshot(bytes, at),
    }
}

/// Whether bytes, which stand from a place on, begin with fields; else the first harm.
pub fn check_fields(fields: &[Field], bytes: &[u8], at: u64) -> Result<(), Found>
    requires { at + length bytes.now < 2 ^ 64 }
    ensures ok { OnOk result (FieldsHold fields.now bytes.now) }
    ensures err { IfErr result (FieldsBreak fields.now bytes.now at) }
{
    let Some((field, more)) = fields.split_first() else {
        return Ok(());
    };
    let rest = behind_field(*field, bytes, at)?;
    check_fields(more, rest, at + (bytes.len() - rest.len()) as u64)
}
