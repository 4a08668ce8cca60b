//! Names, and lists of them in the order in which they were met.
ghost use Rattle.std.specs.Prelude.{◌≡◌, ◌↔◌, ◌≤◌, Some, IsTrue, MatchOption, OnOk, Contains, length, slice_get};
ghost use Rattle.swh_model.specs.Walk.{MayGain};

use swh_base::{Memory, Name};

pub fn is_same_name(a: &Name, b: &Name) -> bool
    ensures { IsTrue result ↔ (a.now ≡ b.now) }
{
    *a == *b
}

fn has_name(names: &[Name], name: &Name) -> bool
    ensures { IsTrue result ↔ Contains names.now name.now }
{
    for other in names {
        if is_same_name(other, name) {
            return true;
        }
    }
    false
}

/// Lists a name at the end, unless it is listed.
pub fn list_name(names: &mut Vec<Name>, name: Name) -> Result<(), Memory>
    ensures gains { MayGain names.old.items names.new.items name }
    ensures there { OnOk result (Contains names.new.items name) }
{
    if has_name(names.as_slice(), &name) {
        return Ok(());
    }
    names.push(name)?;
    Ok(())
}

/// The name at a place.
pub fn name_at(names: &[Name], place: usize) -> Option<Name>
    ensures { MatchOption result (length names.now ≤ place) (λ name. slice_get names.now place ≡ Some name) }
{
    names.get(place).copied()
}
