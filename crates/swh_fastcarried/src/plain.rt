//! Revisions and releases that a stream cannot carry.
ghost use Rattle.std.specs.Prelude.{◌≡◌, ◌↔◌, IsTrue, IfOk};
ghost use Rattle.swh_base.specs.declared.kind.Kind.TheVariants.{Revision as RevisionKind, Release as ReleaseKind};
ghost use Rattle.swh_fastcarried.specs.Rules.{IsOddRevision, IsOddRelease};

use std::alloc::Global;
use swh_base::{Memory, Name};
use swh_model::Look;
use swh_revfmt::{plain_rel, plain_rev};

/// Whether a revision is held under the name that is not plain.
pub fn is_odd_revision<L: Look>(alloc: Global, look: &L, name: Name) -> Result<bool, Memory>
    requires { name.kind ≡ RevisionKind }
    ensures { IfOk result (λ odd. IsTrue odd ↔ IsOddRevision (L.archive look.now).bodies name) }
{
    let Some(body) = look.body(&name) else {
        return Ok(false);
    };
    let plain = plain_rev(alloc, body.as_slice())?;
    Ok(plain.is_none())
}

/// Whether a release is held under the name that is not plain.
pub fn is_odd_release<L: Look>(alloc: Global, look: &L, name: Name) -> Result<bool, Memory>
    requires { name.kind ≡ ReleaseKind }
    ensures { IfOk result (λ odd. IsTrue odd ↔ IsOddRelease (L.archive look.now).bodies name) }
{
    let Some(body) = look.body(&name) else {
        return Ok(false);
    };
    let plain = plain_rel(alloc, body.as_slice())?;
    Ok(plain.is_none())
}
