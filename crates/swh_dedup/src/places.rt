//! Where the objects of a digest may stand among those that were made: hardly ever at more than one place.
ghost use Rattle.std.specs.Prelude.{◌≡◌, [], IfOk, IfNone, IfSome, OnOk, OnErr};
ghost use Rattle.swh_dedup.specs.Seen.{digest_of, further_at, GetsOther, LeadsTo, LedTo};

use std::alloc::Global;
use std::collections::BTreeMap;
use swh_base::Memory;

/// Where the objects of each digest stand. Most have a slot of their own. Where a digest's slot was taken, the first map has
/// the next object of that digest, and the second map has the others. The nodes of a map of numbers are small, and of ids it
/// would be known of each only that it is one of these.
#[derive(Drop)]
pub struct Places {
    pub slots: Vec<u32>,
    pub first: BTreeMap<u64, usize>,
    pub further: BTreeMap<u64, Vec<usize>>,
}

impl Places {
    /// No digest has a place.
    pub fn new(alloc: Global) -> Places
        ensures slots { result.slots.items ≡ [] }
        ensures first { result.first.entries ≡ [] }
        ensures further { result.further.entries ≡ [] }
    {
        Places {
            slots: Vec::new(alloc),
            first: BTreeMap::new(alloc),
            further: BTreeMap::new(alloc),
        }
    }
}

/// A number for an id, which few others share: its last eight bytes.
pub fn digest_of(id: &[u8; 20]) -> u64
    ensures { result ≡ digest_of id.now }
{
    let mut digest: u64 = 0;
    for byte in id {
        digest = digest.wrapping_mul(256).wrapping_add(*byte as u64);
    }
    digest
}

/// Leads a digest to a place, unless it leads to one already, which is answered.
pub fn lead(
    first: &mut BTreeMap<u64, usize>,
    digest: u64,
    place: usize,
) -> Result<Option<usize>, Memory>
    ensures new { IfOk result (λ led. IfNone led (LeadsTo digest place first.old.entries first.new.entries)) }
    ensures known { IfOk result (λ led. IfSome led (LedTo digest first.old.entries first.new.entries)) }
    ensures err { OnErr result (first.new.entries ≡ first.old.entries) }
{
    let Some(known) = first.insert(digest, place)? else {
        return Ok(None);
    };
    match first.insert(digest, known) {
        Ok(_) => Ok(Some(known)),
        Err(_) => unreachable!(),
    }
}

/// The places at which others than the first object of a digest may stand.
pub fn others_of<'a>(further: &'a BTreeMap<u64, Vec<usize>>, digest: u64) -> &'a [usize]
    ensures { result.now ≡ further_at further.now.entries digest }
{
    match further.get(&digest) {
        Some(places) => places.as_slice(),
        None => &[],
    }
}

/// One more place at which another object of this digest stands.
pub fn add_other(
    alloc: Global,
    further: &mut BTreeMap<u64, Vec<usize>>,
    digest: u64,
    place: usize,
) -> Result<(), Memory>
    ensures ok { OnOk result (GetsOther digest place further.old.entries further.new.entries) }
    ensures err { OnErr result (further.new.entries ≡ further.old.entries) }
{
    let mut more = Vec::from_slice(alloc, others_of(further, digest))?;
    more.push(place)?;
    further.insert(digest, more)?;
    Ok(())
}
