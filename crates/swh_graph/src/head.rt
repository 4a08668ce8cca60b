//! Where the branch HEAD of a snapshot leads.
ghost use Rattle.std.specs.Prelude.{◌≡◌, ◌≢◌, IfOk, IfSome, IfNone, MatchOption, Contains, codes};
ghost use Rattle.swh_base.specs.Snapshot.{SnapshotBranch, AreBranches};
ghost use Rattle.swh_base.specs.declared.name.Name.{Name};
ghost use Rattle.swh_snpfmt.specs.Branches.{branches_in_body};
ghost use Rattle.swh_graph.specs.Root.{BranchLeads};
ghost use Rattle.swh_graph.specs.Search.{IsPlaceOf};

use std::alloc::Global;
use std::cmp::Ordering;
use swh_base::{Memory, Name};
use swh_snpfmt::{SpelledBranch, SpelledTarget};

/// The place of the branch of a name among branches that ascend. It is found by halves.
fn place_of(branches: &[SpelledBranch<'_>], name: &[u8]) -> Option<usize>
    requires { AreBranches (branches_in_body branches.now) }
    ensures some { IfSome result (IsPlaceOf branches.now name.now) }
    ensures none { IfNone result ((branch : SnapshotBranch) → Contains (branches_in_body branches.now) branch
        → branch.name ≢ name.now) }
{
    let mut low = 0;
    let mut high = branches.len();
    'halves: while low < high {
        let middle = low + (high - low) / 2;
        match branches[middle].name.cmp(name) {
            Ordering::Less => low = middle + 1,
            Ordering::Equal => return Some(middle),
            Ordering::Greater => high = middle,
        }
    }
    None
}

/// The object to which HEAD leads, by itself or through aliases; none where it leads to none, or aliases run in a circle.
/// Each branch is met once at most.
pub fn head_of(alloc: Global, branches: &[SpelledBranch<'_>]) -> Result<Option<Name>, Memory>
    requires { AreBranches (branches_in_body branches.now) }
    ensures { IfOk result (λ head. MatchOption head
        ((object : Name) → BranchLeads (branches_in_body branches.now) (codes "HEAD") object → ⊥)
        (BranchLeads (branches_in_body branches.now) (codes "HEAD"))) }
{
    let mut seen = vec![in alloc; false; branches.len()]?;
    let mut name: &[u8] = b"HEAD";
    'aliases: while let Some(place) = place_of(branches, name) {
        if seen[place] {
            return Ok(None);
        }
        seen[place] = true;
        match branches[place].target {
            SpelledTarget::Object(kind, id) => return Ok(Some(Name { kind, id: *id })),
            SpelledTarget::Alias(other) => name = other,
            SpelledTarget::Dangling => return Ok(None),
        }
    }
    Ok(None)
}
