//! The visits of all origins.
use crate::fault::VisitFault;
use crate::list::{add_status, push_opened, where_any};
use std::alloc::Global;
use std::collections::BTreeMap;
use std::marker::Model;
use swh_base::{Memory, Status, Url, VisitKind};
use swh_model::{Visit, push_status};

/// A finite map from origins' URLs, byte by byte, to their visits, the oldest first. It is ordered: strangers choose
/// URLs, and no choice makes a look-up longer than the logarithm of their number.
#[derive(Drop)]
pub struct Visits {
    by_origin: BTreeMap<Vec<u8>, Vec<Visit>>,
}

impl Model for Visits {
    ghost use Rattle.swh_model.specs.Archive.{Origins};
    ghost use Rattle.swh_visits.specs.Visits.{origins_code, origins_of};

    ghost Value = { Origins };

    ghost coded = { origins_code };

    ghost view = { λ v. origins_of v.by_origin.entries };
}

impl Visits {
    ghost use Rattle.std.specs.Prelude.{◌≡◌, ◌+◌, ◌-◌, ◌<◌, ◌≤◌, [], IfOk, IfErr, MatchOption, OnOk, OnErr, length};
    ghost use Rattle.std.specs.FinMap as finite;
    ghost use Rattle.swh_model.specs.Archive.{visits_of};
    ghost use Rattle.swh_model.specs.Step.{opened, marked};
    ghost use Rattle.swh_visits.specs.Visits.{IsAll, IsVisitFault, MayBeMarked};

    pub fn new(alloc: Global) -> Visits
        ensures { result ≡ finite.empty }
    {
        Visits {
            by_origin: BTreeMap::new(alloc),
        }
    }

    /// The visits of an origin, one or more; none exactly where it was never opened. It takes no memory.
    pub fn list(&self, origin: &Url) -> Option<&[Visit]>
        ensures { MatchOption result (visits_of self.now origin.now ≡ []) (IsAll (visits_of self.now origin.now)) }
    {
        self.list_of(origin.as_str().as_bytes())
    }

    /// The same by the bytes of an origin's URL.
    pub fn list_of(&self, origin: &[u8]) -> Option<&[Visit]>
        ensures { MatchOption result (visits_of self.now origin.now ≡ []) (IsAll (visits_of self.now origin.now)) }
    {
        match self.by_origin.get(origin) {
            Some(visits) => where_any(visits.as_slice()),
            None => None,
        }
    }

    /// Opens a visit of an origin, and answers its number, which is its place from 1.
    pub fn open(
        &mut self,
        alloc: Global,
        origin: &Url,
        kind: VisitKind,
        date: u64,
        by: u32,
    ) -> Result<u64, Memory>
        ensures ok { OnOk result (self.new ≡ opened self.old origin.now by kind date) }
        ensures number { IfOk result (λ number. number ≡ length (visits_of self.old origin.now) + 1) }
        ensures err { OnErr result (self.new ≡ self.old) }
    {
        let url = origin.as_str().as_bytes();
        match self.by_origin.get_mut(url) {
            Some(visits) => push_opened(alloc, visits, kind, date, by),
            None => {
                let mut visits = Vec::new(alloc);
                let number = push_opened(alloc, &mut visits, kind, date, by)?;
                self.by_origin.insert(Vec::from_slice(alloc, url)?, visits)?;
                Ok(number)
            }
        }
    }

    /// Adds a status to the visit of a number, where it is there, this one opened it, and it has not ended: the first of
    /// these that does not hold is told.
    pub fn status(
        &mut self,
        origin: &Url,
        visit: u64,
        by: u32,
        status: Status,
        snapshot: Option<[u8; 20]>,
    ) -> Result<(), VisitFault>
        ensures ok { OnOk result (self.new ≡ marked self.old origin.now visit status snapshot) }
        ensures may { OnOk result (MayBeMarked (visits_of self.old origin.now) by visit) }
        ensures fault { IfErr result (IsVisitFault (visits_of self.old origin.now) by visit) }
        ensures err { OnErr result (self.new ≡ self.old) }
    {
        let Some(visits) = self.by_origin.get_mut(origin.as_str().as_bytes()) else {
            return Err(VisitFault::NoVisit { have: 0 });
        };
        add_status(visits, by, visit, status, snapshot)
    }

    /// Adds a status to a visit that is there, whoever opened it.
    pub fn mark(
        &mut self,
        origin: &Url,
        visit: u64,
        status: Status,
        snapshot: Option<[u8; 20]>,
    ) -> Result<(), Memory>
        requires positive { 0 < visit }
        requires there { visit ≤ length (visits_of self.old origin.now) }
        ensures ok { OnOk result (self.new ≡ marked self.old origin.now visit status snapshot) }
        ensures err { OnErr result (self.new ≡ self.old) }
    {
        match self.by_origin.get_mut(origin.as_str().as_bytes()) {
            Some(visits) => push_status(visits, (visit - 1) as usize, status, snapshot),
            None => unreachable!(),
        }
    }
}
