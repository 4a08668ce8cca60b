// A visit as it begins.
ghost use Rattle.std.specs.Prelude.{◌≡◌, ◌+◌, ◌++◌, ◌∷◌, [], IfOk, OnOk, OnErr, length};
ghost use Rattle.swh_model.specs.Step.{first_of};

use crate::event::Visit;
use std::alloc::Global;
use swh_base::{Items, Memory, Status, VisitKind};

/// A visit that was just opened; `Memory` where there is none.
pub fn created(
    alloc: Global,
    number: u64,
    date: u64,
    kind: VisitKind,
    by: u32,
) -> Result<Visit, Memory>
    ensures { IfOk result (λ v. v ≡ first_of number date kind by) }
{
    let mut statuses = Items::from_vec(Vec::new(alloc));
    statuses.push((Status::Created, None))?;
    Ok(Visit {
        number,
        date,
        kind,
        by,
        statuses,
    })
}

/// Adds a visit that was just opened, after those that are there. Where memory runs out they stay as they were.
pub fn push_opened(
    alloc: Global,
    visits: &mut Vec<Visit>,
    by: u32,
    kind: VisitKind,
    date: u64,
) -> Result<(), Memory>
    ensures ok { OnOk result (visits.new.items ≡ visits.old.items ++ first_of (length visits.old.items + 1) date kind by
        ∷ []) }
    ensures err { OnErr result (visits.new.items ≡ visits.old.items) }
{
    let number = visits.len() as u64 + 1;
    let visit = created(alloc, number, date, kind, by)?;
    visits.push(visit)?;
    Ok(())
}
