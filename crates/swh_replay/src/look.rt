//! What is in memory, as an archive to look at.
use crate::replayed::Replayed;
use swh_base::{Graph, Name, Shared};
use swh_model::{Look, Visit};

impl Graph for Replayed {
    ghost use Rattle.swh_store.specs.Stored.{children_in};

    ghost children_of = { λ r. children_in r.store };

    fn children_of(&self, name: &Name) -> Option<&[Name]> {
        self.store.children_of(name)
    }
}

impl Look for Replayed {
    ghost use Rattle.swh_replay.specs.Replay.{archive_of};

    ghost archive = { λ r. archive_of r };

    fn has(&self, name: &Name) -> bool {
        self.store.has(name)
    }

    fn body(&self, name: &Name) -> Option<&Shared<u8>> {
        match self.store.get(name) {
            Some(entry) => Some(&entry.body),
            None => None,
        }
    }

    fn visits(&self, origin: &[u8]) -> &[Visit] {
        match self.visits.list_of(origin) {
            Some(visits) => visits,
            None => &[],
        }
    }

    fn is_graph(&self) {
        self.store.is_graph();
    }

    fn is_of_bytes(&self) {
        self.store.is_of_bytes();
    }
}
