//! What is said of a mark in its record: how it is written and how it is read.
ghost use Rattle.std.specs.Prelude.{◌≡◌, ◌++◌, IfSome, IfNone, OnOk, List, ℕ, Option};
ghost use Rattle.swh_base.specs.declared.visit.Status.{Status as AnyStatus};
ghost use Rattle.swh_format.specs.Fields.{text, coded_snapshot, IsSnapshotId};
ghost use Rattle.swh_format.specs.Kinds.{told_fields};
ghost use Rattle.swh_format.specs.MarkRecord.{status_number, mark_contents, IsMarkStatus, IsMarkTold};
ghost use Rattle.swh_format.specs.declared.kinds.RecordKind.TheVariants as of;

use crate::number::split_eight;
use crate::stored_object::has_twenty_bytes;
use swh_base::{Memory, Status, Url};

/// A visit's status, and the bytes of its origin.
#[derive(Clone, Copy)]
pub struct MarkParts<'a> {
    pub status: Status,
    pub visit: u64,
    pub snapshot: Option<[u8; 20]>,
    pub origin: &'a [u8],
}

fn status_byte(status: Status) -> u8
    ensures { result ≡ status_number status }
{
    match status {
        Status::Created => 1,
        Status::Ongoing => 2,
        Status::Full => 3,
        Status::Partial => 4,
        Status::NotFound => 5,
        Status::Failed => 6,
    }
}

fn status_of(number: u8) -> Option<Status>
    ensures some { IfSome result (λ status. (number ≡ status_number status) × IsMarkStatus status) }
    ensures none { IfNone result ((status : AnyStatus) → IsMarkStatus status → number ≡ status_number status → ⊥) }
{
    match number {
        2 => Some(Status::Ongoing),
        3 => Some(Status::Full),
        4 => Some(Status::Partial),
        5 => Some(Status::NotFound),
        6 => Some(Status::Failed),
        _ => None,
    }
}

fn push_snapshot(bytes: &mut Vec<u8>, snapshot: &Option<[u8; 20]>) -> Result<(), Memory>
    ensures { OnOk result (bytes.new.items ≡ bytes.old.items ++ coded_snapshot snapshot.now) }
{
    match snapshot {
        None => {
            bytes.push(0)?;
            Ok(())
        }
        Some(id) => {
            bytes.push(1)?;
            bytes.extend_from_slice(id)?;
            Ok(())
        }
    }
}

// A snapshot's id or none, and what is after it.
fn split_snapshot(bytes: &[u8]) -> Option<(Option<[u8; 20]>, &[u8])>
    ensures some { IfSome result (λ x. bytes.now ≡ coded_snapshot x.0 ++ x.1.now) }
    ensures id { IfSome result (λ x. IsSnapshotId x.0) }
    ensures none { IfNone result ((snapshot : Option (List ℕ)) (x : List ℕ) → IsSnapshotId snapshot
        → bytes.now ≡ coded_snapshot snapshot ++ x → ⊥) }
{
    let Some((number, rest)) = bytes.split_first() else {
        return None;
    };
    match *number {
        0 => Some((None, rest)),
        1 => {
            let Some((id, rest)) = rest.split_first_chunk::<20>() else {
                return None;
            };
            Some((Some(*id), rest))
        }
        _ => None,
    }
}

/// Writes a visit's status, and its origin.
pub fn push_mark(
    bytes: &mut Vec<u8>,
    origin: &Url,
    visit: u64,
    status: Status,
    snapshot: &Option<[u8; 20]>,
) -> Result<(), Memory>
    ensures { OnOk result (bytes.new.items ≡ bytes.old.items
        ++ text (told_fields of.Mark) (mark_contents status visit snapshot.now) origin.now) }
{
    bytes.push(status_byte(status))?;
    bytes.extend_from_slice(&visit.to_be_bytes())?;
    push_snapshot(bytes, snapshot)?;
    bytes.extend_from_slice(origin.as_str().as_bytes())?;
    Ok(())
}

/// What the payload of a mark tells after who wrote it.
pub fn split_mark(told: &[u8]) -> Option<MarkParts<'_>>
    ensures some { IfSome result (IsMarkTold told.now) }
    ensures none { IfNone result ((status : AnyStatus) (visit : ℕ) (snapshot : Option (List ℕ)) (origin : List ℕ)
        → IsMarkStatus status → IsSnapshotId snapshot
        → told.now ≡ text (told_fields of.Mark) (mark_contents status visit snapshot) origin → ⊥) }
{
    let Some((number, rest)) = told.split_first() else {
        return None;
    };
    let Some(status) = status_of(*number) else {
        return None;
    };
    let Some((visit, rest)) = split_eight(rest) else {
        return None;
    };
    let Some((snapshot, origin)) = split_snapshot(rest) else {
        return None;
    };
    Some(MarkParts {
        status,
        visit,
        snapshot,
        origin,
    })
}

/// What the type says of a snapshot's id: it has twenty bytes.
pub fn snapshot_is_codable(snapshot: &Option<[u8; 20]>)
    ensures { IsSnapshotId snapshot.now }
{
    if let Some(id) = snapshot {
        let _twenty = has_twenty_bytes(*id);
    }
}
