//! Branches that a stream cannot carry.
ghost use Rattle.std.specs.Prelude.{◌≡◌, ◌≢◌, ◌↔◌, ◌++◌, IsTrue, IfSome, IfNone, Contains, codes};
ghost use Rattle.swh_base.specs.declared.kind.Kind.TheVariants.{Release as ReleaseKind};
ghost use Rattle.swh_base.specs.Text.{IsRef};
ghost use Rattle.swh_snpfmt.specs.declared.branch.SpelledBranch.{SpelledBranch as Spelled};
ghost use Rattle.swh_snpfmt.specs.Branches.{branch_of, branches_in_body};
ghost use Rattle.swh_fastcarried.specs.Rules.{
  tag_branch,
  IsAtOwnBranch,
  IsCarriedObject,
  IsCarriedTarget,
  HaveOddBranch,
};

use swh_base::{Kind, Name, behind, is_ref};
use swh_model::Look;
use swh_revfmt::spelled_rel;
use swh_snpfmt::{SpelledBranch, SpelledTarget};

/// Whether a branch is that of a tag of this name.
fn is_tag_branch(branch: &[u8], tag: &[u8]) -> bool
    ensures { IsTrue result ↔ (branch.now ≡ tag_branch tag.now) }
{
    let Some(rest) = behind(b"refs/tags/", branch) else {
        return false;
    };
    rest == tag
}

/// Whether the release of this name is held, and the branch is its own.
pub fn is_at_own_branch<L: Look>(look: &L, branch: &[u8], name: Name) -> bool
    requires { name.kind ≡ ReleaseKind }
    ensures { IsTrue result ↔ IsAtOwnBranch (L.archive look.now).bodies branch.now name }
{
    look.is_graph();
    let Some(body) = look.body(&name) else {
        return false;
    };
    match spelled_rel(body.as_slice()) {
        Ok(release) => is_tag_branch(branch, release.tag),
        Err(_) => unreachable!(),
    }
}

/// Whether a branch is the head, which is another ref.
fn is_head(branch: &[u8], target: &[u8]) -> bool
    ensures { IsTrue result ↔ ((branch.now ≡ codes "HEAD") × IsRef target.now × (target.now ≢ codes "HEAD")) }
{
    if branch != b"HEAD".as_slice() {
        return false;
    }
    if target == b"HEAD".as_slice() {
        return false;
    }
    is_ref(target)
}

/// Whether a stream carries a branch to an object.
fn is_carried_object<L: Look>(look: &L, branch: &[u8], name: Name) -> bool
    ensures { IsTrue result ↔ IsCarriedObject (L.archive look.now).bodies branch.now name name.kind }
{
    match name.kind {
        Kind::Revision => is_ref(branch),
        Kind::Release => is_at_own_branch(look, branch, name),
        Kind::Content | Kind::Directory | Kind::Snapshot => false,
    }
}

/// Whether a stream carries a branch.
fn is_carried<L: Look>(look: &L, branch: &SpelledBranch<'_>) -> bool
    ensures { IsTrue result ↔ IsCarriedTarget (L.archive look.now).bodies (branch_of branch.now).name
        (branch_of branch.now).target }
{
    match branch.target {
        SpelledTarget::Object(kind, id) => {
            is_carried_object(look, branch.name, Name { kind, id: *id })
        }
        SpelledTarget::Alias(other) => is_head(branch.name, other),
        SpelledTarget::Dangling => false,
    }
}

/// The first of these branches that a stream cannot carry.
fn first_odd<'a, L: Look>(look: &L, branches: &[SpelledBranch<'a>]) -> Option<SpelledBranch<'a>>
    ensures some { IfSome result (λ b. Contains branches.now b
        × (IsCarriedTarget (L.archive look.now).bodies (branch_of b).name (branch_of b).target → ⊥)) }
    ensures none { IfNone result ((b : Spelled) → Contains branches.now b
        → IsCarriedTarget (L.archive look.now).bodies (branch_of b).name (branch_of b).target) }
{
    for branch in branches {
        if !is_carried(look, branch) {
            return Some(*branch);
        }
    }
    None
}

/// Whether one of these is a branch that a stream cannot carry.
pub fn have_odd_branch<L: Look>(look: &L, branches: &[SpelledBranch<'_>]) -> bool
    ensures { IsTrue result ↔ HaveOddBranch (L.archive look.now).bodies (branches_in_body branches.now) }
{
    match first_odd(look, branches) {
        Some(_) => true,
        None => false,
    }
}
