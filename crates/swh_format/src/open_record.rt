//! What is said of an opening in its record: how it is written and how it is read.
ghost use Rattle.std.specs.Prelude.{◌≡◌, ◌++◌, IfSome, IfNone, OnOk, List, ℕ};
ghost use Rattle.swh_base.specs.declared.visit.VisitKind.{VisitKind as AnyVisitKind};
ghost use Rattle.swh_format.specs.Fields.{text};
ghost use Rattle.swh_format.specs.Kinds.{told_fields};
ghost use Rattle.swh_format.specs.OpenRecord.{visit_kind_number, open_contents, IsOpenTold};
ghost use Rattle.swh_format.specs.declared.kinds.RecordKind.TheVariants as of;

use crate::number::split_eight;
use swh_base::{Memory, Url, VisitKind};

/// How and when a visit was opened, and the bytes of its origin.
#[derive(Clone, Copy)]
pub struct OpenParts<'a> {
    pub kind: VisitKind,
    pub date: u64,
    pub origin: &'a [u8],
}

fn visit_kind_byte(kind: VisitKind) -> u8
    ensures { result ≡ visit_kind_number kind }
{
    match kind {
        VisitKind::Fast => 1,
        VisitKind::Dir => 2,
        VisitKind::Batch => 3,
    }
}

fn visit_kind_of(number: u8) -> Option<VisitKind>
    ensures some { IfSome result (λ kind. number ≡ visit_kind_number kind) }
    ensures none { IfNone result ((kind : AnyVisitKind) → number ≡ visit_kind_number kind → ⊥) }
{
    match number {
        1 => Some(VisitKind::Fast),
        2 => Some(VisitKind::Dir),
        3 => Some(VisitKind::Batch),
        _ => None,
    }
}

/// Writes how and when a visit was opened, and its origin.
pub fn push_open(
    bytes: &mut Vec<u8>,
    origin: &Url,
    kind: VisitKind,
    date: u64,
) -> Result<(), Memory>
    ensures { OnOk result (bytes.new.items ≡ bytes.old.items
        ++ text (told_fields of.Open) (open_contents kind date) origin.now) }
{
    bytes.push(visit_kind_byte(kind))?;
    bytes.extend_from_slice(&date.to_be_bytes())?;
    bytes.extend_from_slice(origin.as_str().as_bytes())?;
    Ok(())
}

/// What the payload of an opening tells after who wrote it.
pub fn split_open(told: &[u8]) -> Option<OpenParts<'_>>
    ensures some { IfSome result (IsOpenTold told.now) }
    ensures none { IfNone result ((kind : AnyVisitKind) (date : ℕ) (origin : List ℕ)
        → told.now ≡ text (told_fields of.Open) (open_contents kind date) origin → ⊥) }
{
    let Some((number, rest)) = told.split_first() else {
        return None;
    };
    let Some(kind) = visit_kind_of(*number) else {
        return None;
    };
    let Some((date, origin)) = split_eight(rest) else {
        return None;
    };
    Some(OpenParts { kind, date, origin })
}
