//! The branches of a snapshot on both sides of `HEAD`.
ghost use Rattle.std.specs.Prelude.{◌≡◌, ◌++◌, [], ◌∷◌, List, IfOk};
ghost use Rattle.swh_snpfmt.specs.Branches.{branch_view, branch_views};
ghost use Rattle.std.specs.Option.{option_map, option_copied};
ghost use Rattle.swh_base.specs.Snapshot.{SnapshotBranch};
ghost use Rattle.swh_model.specs.Meaning.{head_branch};
ghost use Rattle.swh_fastmeaning.specs.Ending.{AreSides, middle};

use std::alloc::Global;
use std::cmp::Ordering;
use swh_base::{Bytes, Memory};
use swh_snpfmt::{Branch, Target};

/// The refs with a tip, but for `HEAD`, that a snapshot may have.
pub const REFS_LIMIT: u64 = 65_536;

/// Branches in three parts: those whose names come before `HEAD`, those of that name, and those whose names come after
/// it.
#[derive(Drop)]
pub struct Sides {
    pub before: Vec<Branch>,
    pub same: Vec<Branch>,
    pub after: Vec<Branch>,
}

/// No branches.
pub fn no_sides(alloc: Global) -> Sides
    ensures { AreSides [] result }
{
    Sides {
        before: Vec::new(alloc),
        same: Vec::new(alloc),
        after: Vec::new(alloc),
    }
}

/// One branch more, at its side.
pub fn with_branch(sides: Sides, branch: Branch) -> Result<Sides, Memory>
    ensures { (all : List SnapshotBranch) → AreSides all sides
        → IfOk result (λ s. AreSides (all ++ branch_view branch ∷ []) s) }
{
    let Sides {
        before,
        same,
        after,
    } = sides;
    let mut before = before;
    let mut same = same;
    let mut after = after;
    match b"HEAD".as_slice().cmp(branch.name.as_slice()) {
        Ordering::Greater => {
            before.push(branch)?;
            Ok(Sides {
                before,
                same,
                after,
            })
        }
        Ordering::Equal => {
            same.push(branch)?;
            Ok(Sides {
                before,
                same,
                after,
            })
        }
        Ordering::Less => {
            after.push(branch)?;
            Ok(Sides {
                before,
                same,
                after,
            })
        }
    }
}

/// All branches in the order of their names, where there is a head with it in place of that of the name `HEAD`.
pub fn joined(sides: Sides, head: Option<Branch>) -> Result<Vec<Branch>, Memory>
    ensures { IfOk result (λ bs. branch_views bs.items ≡ branch_views sides.before.items
        ++ (middle (option_map branch_view head) (branch_views sides.same.items) ++ branch_views sides.after.items)) }
{
    let Sides {
        before,
        same,
        after,
    } = sides;
    let mut all = before;
    let mut same = same;
    let mut after = after;
    match head {
        Some(head) => {
            all.push(head)?;
            all.append(&mut after)?;
            Ok(all)
        }
        None => {
            same.append(&mut after)?;
            all.append(&mut same)?;
            Ok(all)
        }
    }
}

/// The branch `HEAD`, an alias to a head, where one is named.
pub fn head_branch_of(alloc: Global, head: Option<&[u8]>) -> Result<Option<Branch>, Memory>
    ensures { IfOk result (λ b. option_map branch_view b ≡ option_map head_branch (option_copied head.entry)) }
{
    match head {
        Some(head) => {
            let name = Bytes::from_slice(alloc, b"HEAD")?;
            let target = Target::Alias(Bytes::from_slice(alloc, head)?);
            Ok(Some(Branch { name, target }))
        }
        None => Ok(None),
    }
}
