//! What is said of a batch in its record: how it is written and how it is read.
ghost use Rattle.std.specs.Prelude.{◌≡◌, ◌++◌, [], OnOk};
ghost use Rattle.swh_format.specs.Fields.{text, FieldsHold, Says};
ghost use Rattle.swh_format.specs.Kinds.{told_fields, fields_of};
ghost use Rattle.swh_format.specs.BatchRecord.{batch_contents};
ghost use Rattle.swh_format.specs.declared.kinds.RecordKind.TheVariants as kind;

use crate::number::{split_eight, split_four};
use swh_base::Memory;

/// What a batch's payload says: who wrote it, where its run begins and ends in the store, in bytes from its beginning, the
/// number of its objects, and what is left behind that.
#[derive(Clone, Copy)]
pub struct RunTold<'a> {
    pub by: u32,
    pub from: u64,
    pub to: u64,
    pub number: u32,
    pub left: &'a [u8],
}

/// Writes where a batch's run begins and ends, and the number of its objects.
pub fn push_batch(bytes: &mut Vec<u8>, at: u64, end: u64, number: u32) -> Result<(), Memory>
    ensures { OnOk result (bytes.new.items ≡ bytes.old.items
        ++ text (told_fields kind.Batch) (batch_contents at end number) []) }
{
    bytes.extend_from_slice(&at.to_be_bytes())?;
    bytes.extend_from_slice(&end.to_be_bytes())?;
    bytes.extend_from_slice(&number.to_be_bytes())?;
    Ok(())
}

/// What a batch's payload says of its run.
pub fn run_told(payload: &[u8]) -> RunTold<'_>
    requires { FieldsHold (fields_of kind.Batch) payload.now }
    ensures { Says (fields_of kind.Batch) (result.by, batch_contents result.from result.to result.number)
        payload.now result.left.now }
{
    let (by, rest) = split_four(payload).unwrap();
    let (from, rest) = split_eight(rest).unwrap();
    let (to, rest) = split_eight(rest).unwrap();
    let (number, left) = split_four(rest).unwrap();
    RunTold {
        by,
        from,
        to,
        number,
        left,
    }
}
