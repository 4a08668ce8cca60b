//! Slots for digests: of most new objects the first look at one tells that they are new.
ghost use Rattle.std.specs.Prelude.{◌≡◌, ◌<◌, Some, length, IfNone, IfOk, IfSome, OnOk};
ghost use Rattle.swh_dedup.specs.Seen.{slot_at, SlotsStay, TakesSlot};

use swh_base::Memory;

/// How many slots there are.
const SLOTS: usize = 262_144;

/// The first place that is too far for a mark.
const FARTHEST: usize = 4_294_967_295;

/// Makes the slots where there are none yet.
fn begin(slots: &mut Vec<u32>) -> Result<(), Memory>
    ensures some { OnOk result (0 < length slots.new.items) }
    ensures stay { SlotsStay slots.old.items slots.new.items }
{
    if slots.len() == 0 {
        slots.resize(SLOTS, 0)?;
    }
    Ok(())
}

/// To which place the slot of a digest leads.
pub fn slot_of(slots: &[u32], digest: u64) -> Option<usize>
    ensures { result ≡ slot_at slots.now digest }
{
    let slot = (digest as usize).checked_rem(slots.len())?;
    let mark = slots.get(slot)?;
    let place = mark.checked_sub(1)?;
    Some(place as usize)
}

/// Leads the slot of a digest to a place, where it is free; otherwise answers to which place it leads.
pub fn lead_slot(slots: &mut Vec<u32>, digest: u64, place: usize) -> Result<Option<usize>, Memory>
    ensures new { IfOk result (λ led. IfNone led (TakesSlot digest place slots.old.items slots.new.items)) }
    ensures known { IfOk result (λ led. IfSome led (λ k. slot_at slots.new.items digest ≡ Some k)) }
    ensures stay { SlotsStay slots.old.items slots.new.items }
{
    begin(slots)?;
    if let Some(known) = slot_of(slots.as_slice(), digest) {
        return Ok(Some(known));
    }
    let slot = digest as usize % slots.len();
    if place < FARTHEST {
        slots[slot] = place as u32 + 1;
        return Ok(None);
    }
    slots[slot] = 1;
    Ok(Some(0))
}
