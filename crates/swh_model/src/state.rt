//! The archive as a value, over plain lists that are read from end to end.
use crate::again::entries_again;
use crate::event::{Event, EventKind, Visit};
use crate::names::is_same_name;
use crate::origins::{VisitedOrigin, mark_in, open_in, origins_again, visits_in};
use std::alloc::Global;
use std::marker::Model;
use swh_base::{Entry, Memory, Name, Url};

/// An archive: the bodies by their names, and the visits by their origins. Contracts see the two finite maps.
#[derive(Drop)]
pub struct State {
    entries: Vec<Entry>,
    origins: Vec<VisitedOrigin>,
}

impl Model for State {
    ghost use Rattle.std.specs.Prelude.{All};
    ghost use Rattle.swh_model.specs.Archive.{Archive};
    ghost use Rattle.swh_model.specs.Step.{HasItsChildren};
    ghost use Rattle.swh_model.specs.State.{archive_code, bodies_in, origins_in};

    ghost Value = { Archive };

    ghost coded = { archive_code };

    ghost view = { λ s. record { bodies = bodies_in s.entries.items; origins = origins_in s.origins.items } };

    ghost invariant = { λ s. All HasItsChildren s.entries.items };
}

ghost use Rattle.std.specs.Prelude.{◌≡◌, ◌++◌, All, Contains, IfSome, IfNone, OnOk};
ghost use Rattle.std.specs.List.{AllByRecursion};
ghost use Rattle.swh_model.specs.Archive.{Bodies, body_of};
ghost use Rattle.swh_model.specs.Step.{HasItsChildren, added};

/// The newest entry with this name.
pub fn newest<'a>(entries: &'a [Entry], name: &Name) -> Option<&'a Entry>
    ensures among { IfSome result (λ entry. Contains entries.now entry.now) }
    ensures named { IfSome result (λ entry. entry.now.name ≡ name.now) }
    ensures some { (bodies : Bodies) → IfSome result (λ entry. body_of (added bodies entries.now) name.now
        ≡ Some entry.now.body) }
    ensures none { (bodies : Bodies) → IfNone result (body_of (added bodies entries.now) name.now
        ≡ body_of bodies name.now) }
{
    let mut left = entries.len();
    while left > 0 {
        left -= 1;
        let entry = &entries[left];
        if is_same_name(&entry.name, name) {
            return Some(entry);
        }
    }
    None
}

fn add_in(entries: &mut Vec<Entry>, batch: &[Entry]) -> Result<(), Memory>
    requires good { All HasItsChildren entries.old.items }
    requires more { AllByRecursion HasItsChildren batch.now }
    ensures good { All HasItsChildren entries.new.items }
    ensures added { OnOk result (entries.new.items ≡ entries.old.items ++ batch.now) }
{
    for entry in batch {
        entries.push(entry.again()?)?;
    }
    Ok(())
}

impl State {
    ghost use Rattle.std.specs.Prelude.{◌≡◌, ◌↔◌, IsTrue, IfOk, IfSome, IfNone, OnOk, None};
    ghost use Rattle.swh_model.specs.Archive.{empty_archive, body_of, IsHeld, visits_of};
    ghost use Rattle.swh_model.specs.Step.{after};
    ghost use Rattle.swh_model.specs.Walk.{IsEntryOf};
    ghost use Rattle.swh_model.specs.Happens.{IsGoodEvent, HasItsVisit};

    /// The archive before anything happened.
    pub fn new(alloc: Global) -> State
        ensures { result ≡ empty_archive }
    {
        State {
            entries: Vec::new(alloc),
            origins: Vec::new(alloc),
        }
    }

    /// The entry that is held under a name.
    pub fn get(&self, name: &Name) -> Option<&Entry>
        ensures some { IfSome result (λ entry. IsEntryOf self.now.bodies name.now entry.now) }
        ensures none { IfNone result (body_of self.now.bodies name.now ≡ None) }
    {
        newest(self.entries.as_slice(), name)
    }

    /// Says whether a body is held under a name.
    pub fn has(&self, name: &Name) -> bool
        ensures { IsTrue result ↔ IsHeld self.now.bodies name.now }
    {
        self.get(name).is_some()
    }

    /// The visits of an origin, the oldest first.
    pub fn visits(&self, origin: &Url) -> &[Visit]
        ensures { result.now ≡ visits_of self.now.origins origin.now }
    {
        visits_in(self.origins.as_slice(), origin)
    }

    /// An equal archive, whose entries share their bodies and children.
    pub fn again(&self, alloc: Global) -> Result<State, Memory>
        ensures { IfOk result (λ state. state ≡ self.now) }
    {
        Ok(State {
            entries: entries_again(alloc, self.entries.as_slice())?,
            origins: origins_again(alloc, self.origins.as_slice())?,
        })
    }

    /// Lets an event happen. Where memory runs out the archive is one that is to be let go.
    pub fn happen(&mut self, alloc: Global, event: &Event) -> Result<(), Memory>
        requires good { IsGoodEvent event.now }
        requires there { HasItsVisit self.old event.now }
        ensures { OnOk result (self.new ≡ after self.old event.now) }
    {
        match &event.what {
            EventKind::Batch(entries) => add_in(&mut self.entries, entries.as_slice()),
            EventKind::Open { origin, kind, date } => {
                open_in(alloc, &mut self.origins, origin, event.by, *kind, *date)
            }
            EventKind::Mark {
                origin,
                visit,
                status,
                snapshot,
            } => mark_in(&mut self.origins, origin, *visit, *status, *snapshot),
        }
    }
}
