//! Branches written as a body.

ghost use Rattle.std.specs.Prelude.{◌≡◌, ◌++◌, ℕ, List, IfOk, OnOk};
ghost use Rattle.swh_base.specs.Snapshot.{SnapshotBranch, branch_text, IsSnapshot};
ghost use Rattle.swh_snpfmt.specs.Branches.{branch_view};

use crate::branch::Branch;
use crate::branches::Branches;
use crate::target::{bytes_of, word_of};
use itoa::Buffer;
use std::alloc::Global;
use swh_base::Memory;

fn put_branch(out: &mut Vec<u8>, branch: &Branch) -> Result<(), Memory>
    ensures { OnOk result (out.new.items ≡ out.old.items ++ branch_text (branch_view branch.now)) }
{
    let target = bytes_of(&branch.target);
    let mut length = Buffer::new();
    out.extend_from_slice(word_of(&branch.target))?;
    out.push(b' ')?;
    out.extend_from_slice(branch.name.as_slice())?;
    out.push(b'\0')?;
    out.extend_from_slice(length.format(target.len()).as_bytes())?;
    out.push(b':')?;
    out.extend_from_slice(target)?;
    Ok(())
}

/// The body that has these branches (SWHID v1.2, core identifiers, snapshots). Fails where memory runs out.
pub fn write_snp(alloc: Global, branches: &Branches) -> Result<Vec<u8>, Memory>
    ensures snapshot { IfOk result (λ body. IsSnapshot body.items branches.now) }
    // What was read is written again, byte for byte.
    ensures same { (body : List ℕ) → IsSnapshot body branches.now → IfOk result (λ out. out.items ≡ body) }
{
    let mut out = Vec::new(alloc);
    for branch in branches.list() {
        put_branch(&mut out, branch)?;
    }
    Ok(out)
}

/// A list of branches is the list of one body at most.
pub fn one_spelling()
    ensures { (a b : List ℕ) (branches : List SnapshotBranch) → IsSnapshot a branches → IsSnapshot b branches → a ≡ b }
{}
