//! The keeper: judges plans, and adds their events to the two files.
use crate::adding::{AddFault, add_event};
use crate::fault::{Refusal, refusal_for};
use crate::finding::place_of;
use crate::opening::{OpenFault, OpenWhy, Opened, open_archive, why_not_made};
use crate::stored::{StoredFault, read_bytes};
use std::alloc::Global;
use std::marker::Model;
use std::mem;
use swh_base::{Name, Namer, Url};
use swh_model::{Event, Outcome, Visit};
use swh_outside::Disk;
use swh_plan::{Plan, judge_plan};
use swh_replay::Replayed;
use swh_segment::{Both, BothBack, Ledger, Runs, make_both};
use swh_store::Store;

/// Keeps an archive. Contracts see its disks, its history, and whether a disk failed.
pub struct Keeper<N: Namer, D: Disk> {
    alloc: Global,
    namer: N,
    store: Runs<D>,
    ledger: Ledger<D>,
    replayed: Replayed,
    history: Vec<Event>,
    wounded: Option<u64>,
    /// The vector of the last run, unless that was long: the next one is written in its room.
    room: Vec<u8>,
}

impl<N: Namer, D: Disk> Model for Keeper<N, D> {
    ghost use Rattle.swh_keeper.specs.Kept.{Kept, kept_code};

    ghost Value = { Kept D };

    ghost coded = { kept_code D.code };

    ghost use Rattle.swh_keeper.specs.Keeping.{IsKeeper};

    ghost view = { λ k. record {
      store = k.store.disk;
      ledger = k.ledger.disk;
      history = k.history.items;
      wounded = k.wounded;
    } };

    ghost invariant = { λ k. IsKeeper N.id_of D.tells D.file k.ledger k.store k.replayed k.history.items k.wounded };
}

impl<N: Namer, D: Disk> Keeper<N, D> {
    ghost use Rattle.std.specs.Prelude.{
      ◌≡◌,
      ◌+◌,
      ◌≤◌,
      ℕ,
      length,
      take,
      drop,
      Some,
      None,
      IfSome,
      IfNone,
      MatchOption,
      MatchResult,
      OnOk,
      IfOk,
      IfErr,
      IsErrOf,
      [],
    };
    ghost use Rattle.swh_segment.specs.Makes.{ADiskFailed};
    ghost use Rattle.swh_plan.specs.Plan.{wish_of};
    ghost use Rattle.swh_keeper.specs.declared.fault.Refusal.TheVariants.{DiskFault, Wounded};
    ghost use Rattle.swh_outside.specs.Files.{files_of, files_done};
    ghost use Rattle.swh_segment.specs.Making.{IsMade, IsNotMade, barriers, making_calls};
    ghost use Rattle.swh_format.specs.Stands.{StandsFor};
    ghost use Rattle.swh_keeper.specs.Opening.{
      IsMakeFault,
      IsOpeningFault,
      IsLeftOfMaking,
      IsLeftFor,
      IsTheHistory,
      UnlessDiskFault,
    };
    ghost use Rattle.swh_keeper.specs.Damage.{IfDamagedAt, IsDamagedAt};
    ghost use Rattle.swh_keeper.specs.Own.{AreOwn};
    ghost use Rattle.swh_keeper.specs.declared.opening.OpenWhy.TheVariants.{
      Made,
      NotMade,
      DiskFault as DiskFaulted,
    };
    ghost use Rattle.swh_model.specs.Archive.{body_of, visits_of};
    ghost use Rattle.swh_model.specs.Step.{replay};
    ghost use Rattle.swh_replay.specs.Replay.{archive_of};
    ghost use Rattle.swh_visits.specs.Visits.{IsAll};
    ghost use Rattle.swh_model.specs.Limits.{store_length};
    ghost use Rattle.swh_format.specs.Stands.{coded_runs};
    ghost use Rattle.swh_keeper.specs.Stored.{OnlyReadsStore, IsNoLonger};
    ghost use Rattle.swh_keeper.specs.Kept.{IsKept, Applies, RefusesPlan};
    ghost use Rattle.swh_keeper.specs.Keeping.{IsCarriedOut, IsBrokenOff};

    /// Makes an archive of no event, unless the ledger is made.
    pub fn make(alloc: Global, namer: N, store: D, ledger: D) -> Result<Keeper<N, D>, OpenFault<D>>
        ensures empty { IfOk result (λ keeper. keeper.history ≡ []) }
        ensures unwounded { IfOk result (λ keeper. keeper.wounded ≡ None) }
        ensures not_made { D.tells → OnOk result (IsNotMade (D.file ledger).seen) }
        ensures calls { D.tells → IfOk result (λ keeper. files_of (D.file keeper.ledger) (D.file keeper.store)
            ≡ files_done (making_calls (D.file ledger).seen) (files_of (D.file ledger) (D.file store))) }
        ensures err { IfErr result (λ fault. IsMakeFault fault.why) }
        ensures made { D.tells → IfErr result (λ fault. fault.why ≡ Made → IsMade (D.file ledger).seen) }
        ensures cause { IfErr result (λ fault. fault.why ≡ DiskFaulted
            → ADiskFailed (D.faults store) (D.faults fault.store) (D.faults ledger) (D.faults fault.ledger)) }

        // A made archive is as it was, and each disk comes back as the one that it was.
        ensures left { D.tells → IfErr result (λ fault. IsLeftOfMaking fault.why
            (files_of (D.file ledger) (D.file store)) (files_of (D.file fault.ledger) (D.file fault.store))) }
        ensures spared { D.tells → IsMade (D.file ledger).seen → IfErr result (λ fault.
            files_of (D.file fault.ledger) (D.file fault.store) ≡ files_of (D.file ledger) (D.file store)) }

        // Of own files it leaves own files.
        ensures own { D.tells → AreOwn N.id_of (files_of (D.file ledger) (D.file store))
            → IfErr result (λ fault. AreOwn N.id_of (files_of (D.file fault.ledger) (D.file fault.store))) }

        ensures store_later { MatchResult result
            (λ keeper. D.faults store ≤ D.faults keeper.store) (λ fault. D.faults store ≤ D.faults fault.store) }
        ensures ledger_later { MatchResult result
            (λ keeper. D.faults ledger ≤ D.faults keeper.ledger) (λ fault. D.faults ledger ≤ D.faults fault.ledger) }

        // Where no disk failed, both counts are as they were.
        ensures store_quiet { MatchResult result (λ keeper. D.faults keeper.store ≡ D.faults store)
            (λ fault. UnlessDiskFault fault.why (D.faults fault.store ≡ D.faults store)) }
        ensures ledger_quiet { MatchResult result (λ keeper. D.faults keeper.ledger ≡ D.faults ledger)
            (λ fault. UnlessDiskFault fault.why (D.faults fault.ledger ≡ D.faults ledger)) }
    {
        match make_both(store, ledger) {
            Ok(both) => {
                let Both { store, ledger } = both;
                Ok(Keeper {
                    alloc,
                    namer,
                    store,
                    ledger,
                    replayed: Replayed::new(alloc),
                    history: Vec::new(alloc),
                    wounded: None,
                    room: Vec::new(alloc),
                })
            }
            Err(back) => {
                let BothBack {
                    store,
                    ledger,
                    fault,
                } = back;
                Err(OpenFault {
                    why: why_not_made(fault),
                    store,
                    ledger,
                })
            }
        }
    }

    /// Opens an archive: a barrier on each file, then the history for which they stand, and its replay.
    pub fn open(
        alloc: Global,
        namer: N,
        mut store: D,
        mut ledger: D,
    ) -> Result<Keeper<N, D>, OpenFault<D>>
        // Its history is the one for which the files stand.
        ensures stand { D.tells → IfOk result (λ keeper. StandsFor (D.file ledger).seen
            (D.file store).seen keeper.history) }
        ensures history { D.tells → IfOk result (λ keeper. IsTheHistory N.id_of (D.file ledger).seen
            (D.file store).seen keeper.history) }
        ensures unwounded { IfOk result (λ keeper. keeper.wounded ≡ None) }
        ensures made { D.tells → OnOk result (IsMade (D.file ledger).seen) }

        // Nothing but a barrier on each file was done.
        ensures calls { D.tells → IfOk result (λ keeper. files_of (D.file keeper.ledger) (D.file keeper.store)
            ≡ files_done barriers (files_of (D.file ledger) (D.file store))) }

        ensures why { IfErr result (λ fault. IsOpeningFault fault.why) }
        ensures not_made { D.tells → IfErr result (λ fault. fault.why ≡ NotMade → IsNotMade (D.file ledger).seen) }
        ensures damaged { D.tells → IfErr result (λ fault. IfDamagedAt fault.why
            (IsDamagedAt N.id_of (D.file ledger).seen (D.file store).seen)) }
        ensures cause { IfErr result (λ fault. fault.why ≡ DiskFaulted
            → ADiskFailed (D.faults store) (D.faults fault.store) (D.faults ledger) (D.faults fault.ledger)) }
        ensures left { D.tells → IfErr result (λ fault. IsLeftFor fault.why (files_of (D.file ledger) (D.file store))
            (files_of (D.file fault.ledger) (D.file fault.store))) }

        // Own files are never damaged, and are left own.
        ensures undamaged { D.tells → AreOwn N.id_of (files_of (D.file ledger) (D.file store))
            → IfErr result (λ fault. IfDamagedAt fault.why (λ file at harm. ⊥)) }
        ensures own { D.tells → AreOwn N.id_of (files_of (D.file ledger) (D.file store))
            → IfErr result (λ fault. AreOwn N.id_of (files_of (D.file fault.ledger) (D.file fault.store))) }

        ensures store_later { MatchResult result (λ keeper. D.faults store ≤ D.faults keeper.store)
            (λ fault. D.faults store ≤ D.faults fault.store) }
        ensures ledger_later { MatchResult result (λ keeper. D.faults ledger ≤ D.faults keeper.ledger)
            (λ fault. D.faults ledger ≤ D.faults fault.ledger) }

        // Where no disk failed, both counts are as they were.
        ensures store_quiet { MatchResult result (λ keeper. D.faults keeper.store ≡ D.faults store)
            (λ fault. UnlessDiskFault fault.why (D.faults fault.store ≡ D.faults store)) }
        ensures ledger_quiet { MatchResult result (λ keeper. D.faults keeper.ledger ≡ D.faults ledger)
            (λ fault. UnlessDiskFault fault.why (D.faults fault.ledger ≡ D.faults ledger)) }
    {
        match open_archive(alloc, &namer, &mut store, &mut ledger) {
            Ok(opened) => {
                let Opened { replayed, history } = opened;
                Ok(Keeper {
                    alloc,
                    namer,
                    store: Runs::at(store, replayed.store_end),
                    ledger: Ledger::at(ledger, replayed.ledger_end),
                    replayed,
                    history,
                    wounded: None,
                    room: Vec::new(alloc),
                })
            }
            Err(why) => Err(OpenFault { why, store, ledger }),
        }
    }

    /// The events so far, the newest last, and what holds of the disks, whose files are own whatever was opened.
    pub fn history(&self) -> &[Event]
        ensures value { result.now ≡ self.now.history }
        ensures kept { IsKept N.id_of D.tells D.file self.now }
        ensures own { D.tells → AreOwn N.id_of (files_of (D.file self.now.ledger) (D.file self.now.store)) }
    {
        self.history.as_slice()
    }

    /// The number of the event at which a disk failed.
    pub fn wounded(&self) -> Option<u64>
        ensures { result ≡ self.now.wounded }
    {
        self.wounded
    }

    /// What is held, unless the keeper is wounded.
    pub fn store(&self) -> &Store
        ensures { self.now.wounded ≡ None → result.now.bodies ≡ (replay self.now.history).bodies }
    {
        &self.replayed.store
    }

    /// The visits of an origin, one or more, where it was opened, unless the keeper is wounded.
    pub fn visits(&self, origin: &Url) -> Option<&[Visit]>
        ensures { self.now.wounded ≡ None → MatchOption result
            (visits_of (replay self.now.history).origins origin.now ≡ [])
            (IsAll (visits_of (replay self.now.history).origins origin.now)) }
    {
        self.replayed.visits.list(origin)
    }

    /// What the history makes of an archive, in memory, unless the keeper is wounded.
    pub fn replayed(&self) -> &Replayed
        ensures { self.now.wounded ≡ None → archive_of result.now ≡ replay self.now.history }
    {
        &self.replayed
    }

    /// So many bytes from a place of the store on, within the runs of the history, read again. Where the disks tell, they
    /// are those of the runs; of a disk that ends before, those that stand there.
    pub fn stored_bytes(
        &mut self,
        alloc: Global,
        at: u64,
        size: usize,
    ) -> Result<Vec<u8>, StoredFault>
        requires unwounded { self.old.wounded ≡ None }
        requires within { at + size ≤ store_length self.old.history }
        ensures size { IfOk result (λ bytes. length bytes.items ≤ size) }
        ensures bytes { D.tells → IfOk result (λ bytes. bytes.items
            ≡ take size (drop at (coded_runs self.old.history))) }
        ensures reads { OnlyReadsStore D.tells D.file D.faults self.old self.new result }
    {
        read_bytes(alloc, &mut self.store, at, size)
    }

    /// The bytes at the place of the body that is held under a name, read again from the store; none exactly where none is
    /// held. Where the disks tell, they are the body; of a disk that ends before the body does they are those that stand
    /// there. The place is counted from the start of the history.
    pub fn stored(&mut self, alloc: Global, name: &Name) -> Result<Option<Vec<u8>>, StoredFault>
        requires { self.old.wounded ≡ None }
        ensures none { IfOk result (λ found. IfNone found (body_of (replay self.old.history).bodies name.now ≡ None)) }
        ensures long { IfOk result (λ found. IfSome found (IsNoLonger (replay self.old.history).bodies name.now)) }
        ensures held { D.tells → IfOk result (λ found. IfSome found (λ bytes.
            body_of (replay self.old.history).bodies name.now ≡ Some bytes.items)) }
        ensures reads { OnlyReadsStore D.tells D.file D.faults self.old self.new result }
    {
        let Some(place) = place_of(self.history.as_slice(), name) else {
            return Ok(None);
        };
        let bytes = read_bytes(alloc, &mut self.store, place.at, place.size)?;
        Ok(Some(bytes))
    }

    /// Gives the store and the ledger back.
    pub fn close(self) -> (D, D)
        ensures store { result.0 ≡ self.store }
        ensures ledger { result.1 ≡ self.ledger }
        ensures kept { IsKept N.id_of D.tells D.file self }
        ensures own { D.tells → AreOwn N.id_of (files_of (D.file self.ledger) (D.file self.store)) }
    {
        let Keeper {
            alloc: _alloc,
            namer: _namer,
            store,
            ledger,
            replayed: _replayed,
            history: _history,
            wounded: _wounded,
            room: _room,
        } = self;
        (store.close(), ledger.close())
    }

    /// Judges a plan and adds its event.
    pub fn apply(&mut self, by: u32, plan: Plan<N>) -> Result<Outcome, Refusal>
        ensures ok { IfOk result (Applies self.old.history by (wish_of plan) self.new.history) }
        ensures unwounded { OnOk result ((self.old.wounded ≡ None) × (self.new.wounded ≡ None)) }
        ensures err { IfErr result (RefusesPlan self.old by (wish_of plan) self.new) }

        // A keeper whose disk failed answers so, whatever is asked of it and whatever memory there is.
        ensures wounded { (first : ℕ) → self.old.wounded ≡ Some first → IsErrOf result (Wounded first) }

        // The device calls that it makes: those that add the event, at a fault up to the one that failed.
        ensures calls { D.tells → OnOk result (IsCarriedOut self.old.history self.new.history
            (files_of (D.file self.old.ledger) (D.file self.old.store))
            (files_of (D.file self.new.ledger) (D.file self.new.store))) }
        ensures broken { D.tells → IsErrOf result DiskFault → IsBrokenOff self.old.history by (wish_of plan)
            (files_of (D.file self.old.ledger) (D.file self.old.store))
            (files_of (D.file self.new.ledger) (D.file self.new.store)) }

        ensures store_later { D.faults self.old.store ≤ D.faults self.new.store }
        ensures ledger_later { D.faults self.old.ledger ≤ D.faults self.new.ledger }
        ensures cause { IsErrOf result DiskFault → ADiskFailed (D.faults self.old.store) (D.faults self.new.store)
            (D.faults self.old.ledger) (D.faults self.new.ledger) }

        // Where the event is added, both counts are as they were.
        ensures store_quiet { OnOk result (D.faults self.new.store ≡ D.faults self.old.store) }
        ensures ledger_quiet { OnOk result (D.faults self.new.ledger ≡ D.faults self.old.ledger) }
    {
        if let Some(first) = self.wounded {
            return Err(Refusal::Wounded { first });
        }
        let number = self.history.as_slice().len() as u64 + 1;
        let room = mem::replace(&mut self.room, Vec::new(self.alloc));
        let planned = match judge_plan(self.alloc, &self.replayed, number, by, plan, room) {
            Ok(planned) => planned,
            Err(fault) => return Err(refusal_for(fault)),
        };
        let outcome = planned.outcome;
        let added = add_event(
            self.alloc,
            &mut self.store,
            &mut self.ledger,
            &mut self.replayed,
            &mut self.history,
            planned,
        );
        let fault = match added {
            Ok(run) => {
                self.room = kept_room(self.alloc, run);
                return Ok(outcome);
            }
            Err(fault) => fault,
        };
        match fault {
            AddFault::Memory => Err(Refusal::Memory { stands: false }),
            AddFault::Disk => {
                self.wounded = Some(number);
                Err(Refusal::DiskFault)
            }
        }
    }
}

/// A longer run gives its room back: it had a body of many bytes at its end, and the next run mostly has none.
const MOST_KEPT: usize = 32 << 20;

/// The vector of a run, or an empty one in the place of one that is too long to be kept.
fn kept_room(alloc: Global, run: Vec<u8>) -> Vec<u8> {
    if run.len() > MOST_KEPT {
        return Vec::new(alloc);
    }
    run
}

// What another thread may be handed.
fn is_sent<T: Send>(_value: &T) {}

/// A keeper may be handed to another thread, whatever its namer and its disks are.
pub fn keeper_is_sent<N: Namer, D: Disk>(keeper: &Keeper<N, D>) {
    is_sent(keeper)
}
