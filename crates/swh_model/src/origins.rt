// Origins that were opened, each with its visits, over a plain list.
ghost use Rattle.std.specs.Prelude.{◌≡◌, ◌↔◌, ◌<◌, ◌≤◌, None, IsTrue, IfOk, IfSome, IfNone, OnOk, length, map};
ghost use Rattle.std.specs.FinMap.{find};
ghost use Rattle.std.specs.Ordering.{nat_cmp};
ghost use Rattle.std.specs.Cmp.Lexicographic.{slice_cmp};
ghost use Rattle.swh_model.specs.Archive.{visits_of};
ghost use Rattle.swh_model.specs.Step.{opened, marked};
ghost use Rattle.swh_model.specs.State.{origins_in, with_visits, IsPlaceOf};

use crate::again::visits_again;
use crate::event::Visit;
use crate::marking::push_status;
use crate::opening::push_opened;
use std::alloc::Global;
use swh_base::{Memory, Status, Url, VisitKind};

/// An origin that was opened, and its visits, the oldest first.
#[derive(Drop)]
pub struct VisitedOrigin {
    pub origin: Url,
    pub visits: Vec<Visit>,
}

fn is_same_origin(a: &Url, b: &Url) -> bool
    ensures { IsTrue result ↔ (a.now ≡ b.now) }
{
    a.as_str().as_bytes() == b.as_str().as_bytes()
}

/// Where the origin stands.
fn place_of(origins: &[VisitedOrigin], origin: &Url) -> Option<usize>
    ensures some { IfSome result (IsPlaceOf origin.now origins.now) }
    ensures within { IfSome result (λ place. place < length origins.now) }
    ensures none { IfNone result (find (slice_cmp nat_cmp) origin.now (map with_visits origins.now) ≡ None) }
{
    for (place, visited) in origins.iter().enumerate() {
        if is_same_origin(&visited.origin, origin) {
            return Some(place);
        }
    }
    None
}

/// The visits of an origin, the oldest first.
pub fn visits_in<'a>(origins: &'a [VisitedOrigin], origin: &Url) -> &'a [Visit]
    ensures { result.now ≡ visits_of (origins_in origins.now) origin.now }
{
    match place_of(origins, origin) {
        Some(place) => origins[place].visits.as_slice(),
        None => &[],
    }
}

/// Opens a visit of an origin.
pub fn open_in(
    alloc: Global,
    origins: &mut Vec<VisitedOrigin>,
    origin: &Url,
    by: u32,
    kind: VisitKind,
    date: u64,
) -> Result<(), Memory>
    ensures { OnOk result (origins_in origins.new.items ≡ opened (origins_in origins.old.items) origin.now by kind date) }
{
    match place_of(origins, origin) {
        Some(place) => push_opened(alloc, &mut origins[place].visits, by, kind, date),
        None => {
            let mut visits = Vec::new(alloc);
            push_opened(alloc, &mut visits, by, kind, date)?;
            let origin = origin.again(alloc)?;
            origins.push(VisitedOrigin { origin, visits })?;
            Ok(())
        }
    }
}

/// Marks a visit that is there.
pub fn mark_in(
    origins: &mut Vec<VisitedOrigin>,
    origin: &Url,
    visit: u64,
    status: Status,
    snapshot: Option<[u8; 20]>,
) -> Result<(), Memory>
    requires positive { 0 < visit }
    requires there { visit ≤ length (visits_of (origins_in origins.old.items) origin.now) }
    ensures { OnOk result (origins_in origins.new.items
        ≡ marked (origins_in origins.old.items) origin.now visit status snapshot) }
{
    match place_of(origins, origin) {
        Some(place) => {
            push_status(
                &mut origins[place].visits,
                (visit - 1) as usize,
                status,
                snapshot,
            )
        }
        None => unreachable!(),
    }
}

/// Equal origins and visits.
pub fn origins_again(alloc: Global, origins: &[VisitedOrigin]) -> Result<Vec<VisitedOrigin>, Memory>
    ensures { IfOk result (λ copies. map with_visits copies.items ≡ map with_visits origins.now) }
{
    let mut copies = Vec::new(alloc);
    for visited in origins {
        let origin = visited.origin.again(alloc)?;
        let visits = visits_again(alloc, &visited.visits)?;
        copies.push(VisitedOrigin { origin, visits })?;
    }
    Ok(copies)
}
