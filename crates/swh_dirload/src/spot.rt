//! The names of what stands in a folder, also by its listing.
ghost use Rattle.std.specs.Prelude.{◌≡◌, ◌<◌, List, IfOk, length};
ghost use Rattle.swh_dirmade.specs.declared.member.Member.{Member};
ghost use Rattle.swh_dirload.specs.Found.{items_of, ArePlaced, AreNamedBehind, HavePaths};
ghost use Rattle.swh_dirload.specs.Places.{places_of};
ghost use Rattle.swh_dirmade.specs.Spots.{IsTable, Stand};

use crate::found::Found;
use std::alloc::Global;
use swh_base::{Bytes, Memory};
use swh_dirmade::Spot;

/// The table of what a walk found.
pub fn spots_of(alloc: Global, found: &[Found]) -> Result<Vec<Spot>, Memory>
    requires some { 0 < length found.now }
    requires placed { ArePlaced 0 found.now }
    requires named { AreNamedBehind found.now }
    ensures table { IfOk result (λ spots. IsTable spots.items) }
    ensures count { IfOk result (λ spots. length spots.items ≡ length found.now) }
    ensures paths { IfOk result (λ spots. HavePaths spots.items (items_of found.now)) }
    ensures stand { (standing : List Member) → length standing ≡ length found.now
        → IfOk result (λ spots. Stand spots.items standing (places_of (items_of found.now) standing)) }
{
    let mut spots = Vec::new(alloc);
    'found: for number in 0..found.len() {
        let item = &found[number];
        let name = Bytes::from_slice(alloc, item.name.as_bytes())?;
        let above = item.above;
        spots.push(Spot { above, name })?;
    }
    Ok(spots)
}
