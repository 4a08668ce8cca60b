// Archives in memory of single objects.
use std::alloc::Global;
use swh_base::{Kind, Name, Sha1Namer};
use swh_object::Object;
use swh_replay::Replayed;

/// Adds an object of this body, and answers its name; none where it is no such body, or memory runs out.
pub fn add(alloc: Global, shown: &mut Replayed, kind: Kind, body: Vec<u8>) -> Option<Name> {
    let Ok(object) = Object::make(alloc, &Sha1Namer, kind, body) else {
        return None;
    };
    let name = object.name();
    let entries = [object.into_entry()];
    match shown.store.add(&entries) {
        Ok(_) => Some(name),
        Err(_) => None,
    }
}

/// What is in memory of an archive that holds these bodies; none where one is no such body, or memory runs out.
pub fn archive_of(alloc: Global, objects: &[(Kind, &[u8])]) -> Option<Replayed> {
    let mut shown = Replayed::new(alloc);
    for (kind, body) in objects {
        let Ok(body) = body.to_vec(alloc) else {
            return None;
        };
        if add(alloc, &mut shown, *kind, body).is_none() {
            return None;
        }
    }
    Some(shown)
}
