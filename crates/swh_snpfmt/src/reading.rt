//! Bodies read into branches.

ghost use Rattle.std.specs.Prelude.{◌≡◌, ◌↔◌, List, ◌++◌, IsTrue, IfOk, IfErr, IfSome, IfNone};
ghost use Rattle.std.specs.Ordering.{nat_cmp, is_lt};
ghost use Rattle.std.specs.Cmp.Lexicographic.{slice_cmp};
ghost use Rattle.std.specs.List.{AllByRecursion};
ghost use Rattle.swh_base.specs.Snapshot.{SnapshotBranch, AreBranches, BranchIsBefore, branch_text, IsSnapshot};
ghost use Rattle.swh_snpfmt.specs.Branches.{branch_view, branch_views, branch_of, branches_in_body};
ghost use Rattle.swh_snpfmt.specs.Fault.{MayFollowBranches, BeginsNextBranch};
ghost use Rattle.swh_snpfmt.specs.Reading.{ExplainsSnp, GivesBranches};

use crate::branch::{Branch, SpelledBranch, SpelledTarget, Target};
use crate::branches::Branches;
use crate::fault::{BadSnp, ReadSnpFault};
use crate::front::front_branch;
use std::alloc::Global;
use swh_base::{Bytes, Memory, Name};

fn is_before(name: &[u8], next: &[u8]) -> bool
    ensures { result ≡ is_lt (slice_cmp nat_cmp name.now next.now) }
{
    name.cmp(next).is_lt()
}

/// Whether this branch comes after all of the branches.
fn is_after(before: &[SpelledBranch<'_>], next: &SpelledBranch<'_>) -> bool
    requires { AreBranches (branches_in_body before.now) }
    ensures { IsTrue result ↔ AllByRecursion (λ other. BranchIsBefore other (branch_of next.now))
        (branches_in_body before.now) }
{
    match before.last() {
        Some(last) => is_before(last.name, next.name),
        None => true,
    }
}

/// The branch at the front of these bytes, if it may follow the branches before it, and the bytes after it.
fn next_branch<'a>(
    before: &[SpelledBranch<'_>],
    bytes: &'a [u8],
) -> Option<(SpelledBranch<'a>, &'a [u8])>
    requires { AreBranches (branches_in_body before.now) }
    ensures some { IfSome result (λ x. MayFollowBranches (branches_in_body before.now) (branch_of x.0)
        × (bytes.now ≡ branch_text (branch_of x.0) ++ x.1.now)) }
    ensures none { IfNone result (BeginsNextBranch (branches_in_body before.now) bytes.now → ⊥) }
{
    let (next, rest) = front_branch(bytes)?;
    if is_after(before, &next) {
        Some((next, rest))
    } else {
        None
    }
}

/// The branches as they stand in a snapshot's body, in linear time. No byte of it is copied. Fails with the place of
/// the first branch that breaks, or where memory runs out.
pub fn spelled_snp(alloc: Global, body: &[u8]) -> Result<Vec<SpelledBranch<'_>>, ReadSnpFault>
    ensures ok { IfOk result (λ list. IsSnapshot body.now (branches_in_body list.items)) }
    ensures err { IfErr result (ExplainsSnp body.now) }
{
    let mut list = Vec::new(alloc);
    let mut rest = body;
    while !rest.is_empty() {
        let at = (body.len() - rest.len()) as u64;
        let Some((next, after)) = next_branch(&list, rest) else {
            return Err(ReadSnpFault::Bad(BadSnp { at }));
        };
        list.push(next)?;
        rest = after;
    }
    Ok(list)
}

fn owned_branch(alloc: Global, spelled: &SpelledBranch<'_>) -> Result<Branch, Memory>
    ensures { IfOk result (λ branch. branch_view branch ≡ branch_of spelled.now) }
{
    let name = Bytes::from_slice(alloc, spelled.name)?;
    let target = match spelled.target {
        SpelledTarget::Object(kind, id) => Target::Object(Name { kind, id: *id }),
        SpelledTarget::Alias(alias) => Target::Alias(Bytes::from_slice(alloc, alias)?),
        SpelledTarget::Dangling => Target::Dangling,
    };
    Ok(Branch { name, target })
}

fn owned(alloc: Global, spelled: &[SpelledBranch<'_>]) -> Result<Vec<Branch>, Memory>
    ensures { IfOk result (λ list. branch_views list.items ≡ branches_in_body spelled.now) }
{
    let mut list = Vec::new(alloc);
    for branch in spelled {
        list.push(owned_branch(alloc, branch)?)?;
    }
    Ok(list)
}

fn read(alloc: Global, body: &[u8]) -> Result<Branches, ReadSnpFault>
    ensures ok { IfOk result (λ branches. IsSnapshot body.now branches) }
    ensures err { IfErr result (ExplainsSnp body.now) }
{
    let spelled = spelled_snp(alloc, body)?;
    let list = owned(alloc, &spelled)?;
    Ok(Branches::of(list))
}

/// The branches of a snapshot's body (SWHID v1.2, core identifiers, snapshots), in linear time. Fails with the place of
/// the first branch that breaks, or where memory runs out.
pub fn read_snp(alloc: Global, body: &[u8]) -> Result<Branches, ReadSnpFault>
    // What is read is the body's branches.
    ensures ok { IfOk result (λ branches. IsSnapshot body.now branches) }
    // What is a snapshot is read, unless memory runs out.
    ensures only { (branches : List SnapshotBranch) → IsSnapshot body.now branches → GivesBranches result branches }
    // Of what is refused this is the first branch that breaks.
    ensures err { IfErr result (ExplainsSnp body.now) }
{
    read(alloc, body)
}
