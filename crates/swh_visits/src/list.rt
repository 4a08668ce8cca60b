//! The visits of one origin, the oldest first.
ghost use Rattle.std.specs.Prelude.{◌≡◌, ◌+◌, ◌-◌, ◌<◌, ◌++◌, ◌∷◌, [], IfOk, IfErr, IfSome, IfNone, MatchOption, OnOk, OnErr, length};
ghost use Rattle.swh_model.specs.Step.{marked_at, first_of};
ghost use Rattle.swh_visits.specs.Visits.{IsAll, IsVisitFault, IsRefusal, MayBeMarked};

use crate::fault::VisitFault;
use std::alloc::Global;
use swh_base::{Memory, Status, VisitKind};
use swh_model::{Visit, created, is_final, last_of, push_status};

/// Adds a visit that is just opened, and answers its number.
pub fn push_opened(
    alloc: Global,
    visits: &mut Vec<Visit>,
    kind: VisitKind,
    date: u64,
    by: u32,
) -> Result<u64, Memory>
    ensures ok { OnOk result (visits.new.items
        ≡ visits.old.items ++ first_of (length visits.old.items + 1) date kind by ∷ []) }
    ensures number { IfOk result (λ number. number ≡ length visits.old.items + 1) }
    ensures err { OnErr result (visits.new.items ≡ visits.old.items) }
{
    let number = visits.len() as u64 + 1;
    let visit = created(alloc, number, date, kind, by)?;
    visits.push(visit)?;
    Ok(number)
}

/// Why somebody may add no status to the visit of a number.
fn refusal_of(visits: &[Visit], by: u32, number: u64) -> Option<VisitFault>
    ensures some { IfSome result (IsRefusal visits.now by number) }
    ensures none { IfNone result (MayBeMarked visits.now by number) }
{
    let have = visits.len() as u64;
    if number == 0 || number > have {
        return Some(VisitFault::NoVisit { have });
    }
    let visit = &visits[(number - 1) as usize];
    if visit.by != by {
        return Some(VisitFault::NotYours { by: visit.by });
    }
    let status = last_of(visit.statuses.as_slice());
    if is_final(status) {
        return Some(VisitFault::Ended { status });
    }
    None
}

/// Adds a status to the visit of a number, unless something stands against it.
pub fn add_status(
    visits: &mut Vec<Visit>,
    by: u32,
    number: u64,
    status: Status,
    snapshot: Option<[u8; 20]>,
) -> Result<(), VisitFault>
    ensures ok { OnOk result (visits.new.items ≡ marked_at visits.old.items (number - 1) status snapshot) }
    ensures may { OnOk result (MayBeMarked visits.old.items by number) }
    ensures fault { IfErr result (IsVisitFault visits.old.items by number) }
    ensures err { OnErr result (visits.new.items ≡ visits.old.items) }
{
    if let Some(fault) = refusal_of(visits.as_slice(), by, number) {
        return Err(fault);
    }
    match push_status(visits, (number - 1) as usize, status, snapshot) {
        Ok(()) => Ok(()),
        Err(_) => Err(VisitFault::Memory),
    }
}

/// The visits, where there are any.
pub fn where_any(visits: &[Visit]) -> Option<&[Visit]>
    ensures { MatchOption result (visits.now ≡ []) (IsAll visits.now) }
{
    if visits.is_empty() {
        None
    } else {
        Some(visits)
    }
}
