//! The tags that a stream makes.
ghost use Rattle.std.specs.Prelude.{◌≡◌, ◌↔◌, ◌<◌, [], IsTrue, OnOk, IfOk, Contains, length, map, min, ◌^◌, ◌-◌};
ghost use Rattle.swh_base.specs.declared.kind.Kind.TheVariants.{Release as ReleaseKind};
ghost use Rattle.swh_base.specs.declared.name.Name.{Name as Named};
ghost use Rattle.swh_base.specs.Limits.{body_limit};
ghost use Rattle.swh_base.specs.Snapshot.{branch_text, snapshot_text};
ghost use Rattle.swh_model.specs.Archive.{IsHeld};
ghost use Rattle.swh_fastcook.specs.Loaded.{Tags, SetsTag, SetTags, branch_of_tag, AreMany, tags_in};

use std::alloc::Global;
use std::collections::BTreeMap;
use swh_base::{BODY_LIMIT, Kind, Memory, Name};
use swh_graph::{GraphFault, release_at};
use swh_model::Look;

/// The branches that a stream may load, but for the head.
pub const BRANCHES_LIMIT: usize = 65_536;

/// Sets the tag of a release, which is held.
fn set_release<'a, L: Look>(
    look: &'a L,
    tags: &mut BTreeMap<&'a [u8], [u8; 20]>,
    name: Name,
) -> Result<(), Memory>
    requires held { IsHeld (L.archive look.now).bodies name }
    requires kind { name.kind ≡ ReleaseKind }
    ensures { OnOk result (SetsTag (L.archive look.now).bodies name ReleaseKind (tags_in tags.old.entries)
        (tags_in tags.new.entries)) }
{
    let release = match release_at(look, name) {
        Ok(release) => release,
        Err(GraphFault::Memory) => return Err(Memory),
        Err(GraphFault::NotHeld { .. }) => unreachable!(),
        Err(GraphFault::NoPath { .. }) => unreachable!(),
    };
    tags.insert(release.tag, name.id)?;
    Ok(())
}

/// Sets the tag of a name that is held, where that is a release's.
fn set_tag<'a, L: Look>(
    look: &'a L,
    tags: &mut BTreeMap<&'a [u8], [u8; 20]>,
    name: Name,
) -> Result<(), Memory>
    requires { IsHeld (L.archive look.now).bodies name }
    ensures { OnOk result (SetsTag (L.archive look.now).bodies name name.kind (tags_in tags.old.entries)
        (tags_in tags.new.entries)) }
{
    match name.kind {
        Kind::Release => set_release(look, tags, name),
        Kind::Content | Kind::Directory | Kind::Revision | Kind::Snapshot => Ok(()),
    }
}

/// The tags of the releases among these names, which are held, each with the last release of its name.
fn tags_of<'a, L: Look>(
    alloc: Global,
    look: &'a L,
    order: &[Name],
) -> Result<BTreeMap<&'a [u8], [u8; 20]>, Memory>
    requires { (n : Named) → Contains order.now n → IsHeld (L.archive look.now).bodies n }
    ensures { IfOk result (λ tags. SetTags (L.archive look.now).bodies order.now [] (tags_in tags.entries)) }
{
    let mut tags = BTreeMap::new(alloc);
    for name in order {
        set_tag(look, &mut tags, *name)?;
    }
    Ok(tags)
}

/// How many bytes the branch of a tag has in a snapshot, as far as a number goes: `release`, a space, `refs/tags/`, the tag,
/// a NUL, `20:` and the id.
fn branch_bytes(tag: &[u8], id: [u8; 20]) -> u64
    ensures { result ≡ min (length (branch_text (branch_of_tag (tag.now, id)))) (2 ^ 64 - 1) }
{
    let id: &[u8] = &id;
    let size = id.len() as u64;
    (tag.len() as u64).saturating_add(22 + size)
}

/// Whether the snapshot of these tags has a longer body than a snapshot may have.
fn are_long(tags: &BTreeMap<&[u8], [u8; 20]>) -> bool
    ensures { IsTrue result ↔ (body_limit < length (snapshot_text (map branch_of_tag (tags_in tags.now.entries)))) }
{
    let mut left: u64 = BODY_LIMIT;
    for (tag, id) in tags.iter() {
        let Some(rest) = left.checked_sub(branch_bytes(tag, *id)) else {
            return true;
        };
        left = rest;
    }
    false
}

/// Whether the tags of these names, which are held, are more than may be loaded.
pub fn make_many<L: Look>(alloc: Global, look: &L, order: &[Name]) -> Result<bool, Memory>
    requires { (n : Named) → Contains order.now n → IsHeld (L.archive look.now).bodies n }
    ensures { IfOk result (λ many. IsTrue many ↔ ((tags : Tags)
        × SetTags (L.archive look.now).bodies order.now [] tags × AreMany (map branch_of_tag tags))) }
{
    let tags = tags_of(alloc, look, order)?;
    if tags.len() > BRANCHES_LIMIT {
        return Ok(true);
    }
    Ok(are_long(&tags))
}
