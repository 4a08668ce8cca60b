//! The objects that an input made so far: one kind with one body is given out once.
ghost use Rattle.std.specs.Prelude.{
  ◌≡◌,
  ◌↔◌,
  [],
  ℕ,
  IsTrue,
  false,
  Contains,
  map,
  slice_get,
  Some,
  IfNone,
  IfSome,
  IfOk,
  OnErr,
};
ghost use Rattle.swh_model.specs.Meaning.{Made};
ghost use Rattle.swh_dedup.specs.Making.{made_from, object_of};
ghost use Rattle.swh_dedup.specs.Seen.{
  digest_of,
  kept_made,
  mapped_at,
  IsMapped,
  IsNoted,
  IsNowhere,
  SameMapped,
  PlacesStay,
  StandsAtNone,
  Adds,
};

use crate::places::{Places, add_other, digest_of, lead, others_of};
use crate::slots::{lead_slot, slot_of};
use std::alloc::Global;
use std::marker::{Model, PhantomData};
use swh_base::{Kind, Memory, Name, Namer, Shared};
use swh_object::Object;

/// What is kept of an object: its body is shared with it, or is an equal one that was lent.
#[derive(Drop)]
pub struct Kept {
    pub kind: Kind,
    pub body: Shared<u8>,
}

/// The objects that were made, in the order in which they were added, and at which of them those of each digest stand.
#[derive(Drop)]
pub struct Seen<N: Namer> {
    made: Vec<Kept>,
    places: Places,
    namer: PhantomData<N>,
}

/// Whether an object was made before.
#[derive(Clone, Copy, Debug, PartialEq, Eq)]
pub enum Novelty {
    New,
    Known,
}

impl<N: Namer> Model for Seen<N> {
    ghost use Rattle.std.specs.Prelude.{List, map};
    ghost use Rattle.swh_model.specs.Meaning.{Made};

    ghost Value = { List Made };

    ghost use Rattle.swh_dedup.specs.Seen.{kept_made, IsIndexed};

    ghost view = { λ s. map kept_made s.made.items };

    ghost invariant = { λ s. IsIndexed N.id_of (map kept_made s.made.items) s.places };
}

/// Whether this is of the object of a kind and a body.
fn is_of(kept: &Kept, kind: Kind, body: &[u8]) -> bool
    ensures { IsTrue result ↔ (kept_made kept.now ≡ record { kind = kind; body = body.now }) }
{
    kept.kind == kind && kept.body.as_slice() == body
}

/// Whether the object of a kind and a body stands at this place.
fn stands_at(made: &[Kept], place: usize, kind: Kind, body: &[u8]) -> bool
    ensures { IsTrue result
        ↔ (slice_get (map kept_made made.now) place ≡ Some (record { kind = kind; body = body.now })) }
{
    match made.get(place) {
        Some(kept) => is_of(kept, kind, body),
        None => false,
    }
}

/// At which of these places this object stands.
fn place_among(made: &[Kept], places: &[usize], kind: Kind, body: &[u8]) -> Option<usize>
    ensures found { IfSome result (λ place.
        slice_get (map kept_made made.now) place ≡ Some (record { kind = kind; body = body.now })) }
    ensures none { IfNone result ((k : ℕ) → Contains places.now k
        → slice_get (map kept_made made.now) k ≡ Some (record { kind = kind; body = body.now }) → ⊥) }
{
    for place in places {
        let here = stands_at(made, *place, kind, body);
        if here {
            return Some(*place);
        }
    }
    None
}

/// Looks for the object of this kind and body at the places that the maps have of its id's digest; where it stands at none
/// of them, they get this place.
fn note_mapped(
    alloc: Global,
    places: &mut Places,
    made: &[Kept],
    digest: u64,
    kind: Kind,
    body: &[u8],
    place: usize,
) -> Result<Novelty, Memory>
    ensures mapped { IfOk result (IsMapped (map kept_made made.now) digest place (object_of kind body.now) places.old places.new) }
    ensures err { OnErr result (SameMapped places.old places.new) }
    ensures slots { places.new.slots.items ≡ places.old.slots.items }
{
    let Some(first) = lead(&mut places.first, digest, place)? else {
        return Ok(Novelty::New);
    };
    if stands_at(made, first, kind, body) {
        return Ok(Novelty::Known);
    }
    let others = others_of(&places.further, digest);
    if place_among(made, others, kind, body).is_some() {
        return Ok(Novelty::Known);
    }
    add_other(alloc, &mut places.further, digest, place)?;
    Ok(Novelty::New)
}

/// Looks for the object of this name and body at the places of its id's digest; where it stands at none of them, the digest
/// gets this place.
fn note(
    alloc: Global,
    places: &mut Places,
    made: &[Kept],
    name: &Name,
    body: &[u8],
    place: usize,
) -> Result<Novelty, Memory>
    ensures noted { IfOk result (IsNoted (map kept_made made.now) (digest_of name.now.id) place (object_of name.now.kind body.now)
        places.old places.new) }
    ensures err { OnErr result (PlacesStay places.old places.new) }
{
    let digest = digest_of(&name.id);
    let Some(known) = lead_slot(&mut places.slots, digest, place)? else {
        return Ok(Novelty::New);
    };
    if stands_at(made, known, name.kind, body) {
        return Ok(Novelty::Known);
    }
    note_mapped(alloc, places, made, digest, name.kind, body, place)
}

/// At which place that the maps have of this digest the object of this kind and body stands.
fn mapped_place(
    places: &Places,
    made: &[Kept],
    digest: u64,
    kind: Kind,
    body: &[u8],
) -> Option<usize>
    ensures found { IfSome result (λ place. slice_get (map kept_made made.now) place ≡ Some (object_of kind body.now)) }
    ensures none { IfNone result (StandsAtNone (map kept_made made.now) (mapped_at places.now digest) (object_of kind body.now)) }
{
    let Some(first) = places.first.get(&digest) else {
        return None;
    };
    if stands_at(made, *first, kind, body) {
        return Some(*first);
    }
    place_among(made, others_of(&places.further, digest), kind, body)
}

/// Where the object of this name and body stands.
fn place_of(places: &Places, made: &[Kept], name: &Name, body: &[u8]) -> Option<usize>
    ensures found { IfSome result (λ place.
        slice_get (map kept_made made.now) place ≡ Some (object_of name.now.kind body.now)) }
    ensures none { IfNone result
        (IsNowhere (map kept_made made.now) (digest_of name.now.id) (object_of name.now.kind body.now) places.now) }
{
    let digest = digest_of(&name.id);
    let Some(place) = slot_of(places.slots.as_slice(), digest) else {
        return None;
    };
    if stands_at(made, place, name.kind, body) {
        return Some(place);
    }
    mapped_place(places, made, digest, name.kind, body)
}

/// Puts this body in place of the one of the object of this name and body, where it stands.
fn share_body(places: &Places, made: &mut [Kept], name: &Name, body: Shared<u8>)
    ensures { map kept_made made.new ≡ map kept_made made.old }
{
    let Some(place) = place_of(places, made, name, body.as_slice()) else {
        return;
    };
    let kind = name.kind;
    made[place] = Kept { kind, body };
}

impl<N: Namer> Seen<N> {
    /// Nothing was made.
    pub fn new(alloc: Global) -> Seen<N>
        ensures { result ≡ [] }
    {
        Seen {
            made: Vec::new(alloc),
            places: Places::new(alloc),
            namer: PhantomData,
        }
    }

    /// Adds an object where none of its kind and body was made, and tells whether it did. The body is shared. Where
    /// memory runs out nothing is added.
    pub fn add(&mut self, alloc: Global, object: &Object<N>) -> Result<Novelty, Memory>
        ensures ok { IfOk result (Adds self.old (made_from object.now) self.new) }
        ensures err { OnErr result (self.new ≡ self.old) }
    {
        let name = object.name();
        let body = object.entry().body.again()?;
        self.made.reserve(1)?;
        let place = self.made.len();
        let made = self.made.as_slice();
        match note(alloc, &mut self.places, made, &name, object.body(), place)? {
            Novelty::Known => Ok(Novelty::Known),
            Novelty::New => {
                let kind = name.kind;
                self.made.push_reserved(Kept { kind, body });
                Ok(Novelty::New)
            }
        }
    }

    /// Where an object of this name and body was made, this body is kept in place of its own, which is let go. Nothing else
    /// changes.
    pub fn share(&mut self, name: &Name, body: Shared<u8>)
        ensures { self.new ≡ self.old }
    {
        share_body(&self.places, self.made.as_mut_slice(), name, body);
    }
}
