//! The records of a ledger: the first harm of one by its own bytes.
ghost use Rattle.std.specs.Prelude.{◌≡◌, ◌+◌, ◌<◌, ◌^◌, IfOk, IfErr, OnOk, length};
ghost use Rattle.swh_format.specs.LedgerReading.{IsRecordFront};
ghost use Rattle.swh_format.specs.Fields.{FieldsHold};
ghost use Rattle.swh_recovery.specs.Fields.{FieldsBreak};
ghost use Rattle.swh_format.specs.Kinds.{payload_fields};
ghost use Rattle.swh_recovery.specs.LedgerHarm.{RecordBreaks, IsRecordWithFields, IsFrame, FrameBreaks};

use crate::field::{check_fields, take_byte, take_bytes, take_four};
use crate::harm::Found;
use swh_format::{Choice, RecordParts, fields_of_payload};

// A record's kind, length and payload.
fn take_frame(bytes: &[u8], at: u64) -> Result<RecordParts<'_>, Found>
    requires { at + length bytes.now < 2 ^ 64 }
    ensures ok { IfOk result (IsFrame bytes.now) }
    ensures err { IfErr result (FrameBreaks bytes.now at) }
{
    let (kind, rest) = take_byte(bytes, Choice::Record, at)?;
    let (size, rest) = take_four(rest, at + 1)?;
    let (payload, rest) = take_bytes(rest, size as u64, at + 5)?;
    Ok(RecordParts {
        kind,
        payload,
        rest,
    })
}

fn check_payload(kind: u8, payload: &[u8], at: u64) -> Result<(), Found>
    requires { at + length payload.now < 2 ^ 64 }
    ensures ok { OnOk result (FieldsHold (payload_fields kind) payload.now) }
    ensures err { IfErr result (FieldsBreak (payload_fields kind) payload.now at) }
{
    check_fields(fields_of_payload(kind), payload, at)
}

/// The record at the front of bytes that stand from a place on, behind its open gate, with the fields of its kind; else
/// its first harm.
pub fn take_record(bytes: &[u8], at: u64) -> Result<RecordParts<'_>, Found>
    requires { at + length bytes.now < 2 ^ 64 }
    ensures ok { IfOk result (IsRecordWithFields bytes.now) }
    ensures err { IfErr result (RecordBreaks bytes.now at) }
{
    let parts = take_frame(bytes, at)?;
    check_payload(parts.kind, parts.payload, at + 5)?;
    Ok(parts)
}
