//! What is held under a name, read as what it is.
ghost use Rattle.std.specs.Prelude.{◌≡◌, IfOk, IfErr};
ghost use Rattle.swh_base.specs.declared.kind.Kind.TheVariants.{Directory, Revision, Release, Snapshot};
ghost use Rattle.swh_dirfmt.specs.Entries.{entries_in_body};
ghost use Rattle.swh_revfmt.specs.Reading.{revision_spelled, release_spelled};
ghost use Rattle.swh_snpfmt.specs.Branches.{branches_in_body};
ghost use Rattle.swh_graph.specs.Holding.{HoldsDirectory, HoldsRevision, HoldsRelease, HoldsSnapshot, IsNotHeld};
ghost use Rattle.swh_graph.specs.Named.{IsDirectoryHeld};

use crate::fault::GraphFault;
use std::alloc::Global;
use swh_base::Name;
use swh_dirfmt::{ReadDirFault, SpelledEntry, spelled_dir};
use swh_model::Look;
use swh_revfmt::{ReadRevFault, SpelledRel, SpelledRev, spelled_rel, spelled_rev};
use swh_snpfmt::{ReadSnpFault, SpelledBranch, spelled_snp};

/// The entries of the directory of this name.
pub fn directory_at<L: Look>(
    alloc: Global,
    look: &L,
    name: Name,
) -> Result<Vec<SpelledEntry<'_>>, GraphFault>
    requires { name.kind ≡ Directory }
    ensures ok { IfOk result (λ entries.
        HoldsDirectory (L.archive look.now).bodies name (entries_in_body entries.items)) }
    ensures err { IfErr result (IsNotHeld (L.archive look.now).bodies name) }
{
    look.is_graph();
    let Some(body) = look.body(&name) else {
        return Err(GraphFault::NotHeld { name });
    };
    match spelled_dir(alloc, body.as_slice()) {
        Ok(entries) => Ok(entries),
        Err(ReadDirFault::Memory) => Err(GraphFault::Memory),
        Err(ReadDirFault::Bad(_)) => unreachable!(),
    }
}

/// The body of the directory of this name.
pub fn directory_body<L: Look>(look: &L, name: Name) -> Result<&[u8], GraphFault>
    requires { name.kind ≡ Directory }
    ensures ok { IfOk result (λ body. IsDirectoryHeld (L.archive look.now).bodies name body.now) }
    ensures err { IfErr result (IsNotHeld (L.archive look.now).bodies name) }
{
    look.is_graph();
    match look.body(&name) {
        Some(body) => Ok(body.as_slice()),
        None => Err(GraphFault::NotHeld { name }),
    }
}

/// The parts of the revision of this name.
pub fn revision_at<L: Look>(
    alloc: Global,
    look: &L,
    name: Name,
) -> Result<SpelledRev<'_>, GraphFault>
    requires { name.kind ≡ Revision }
    ensures ok { IfOk result (λ rev. HoldsRevision (L.archive look.now).bodies name (revision_spelled rev)) }
    ensures err { IfErr result (IsNotHeld (L.archive look.now).bodies name) }
{
    look.is_graph();
    let Some(body) = look.body(&name) else {
        return Err(GraphFault::NotHeld { name });
    };
    match spelled_rev(alloc, body.as_slice()) {
        Ok(rev) => Ok(rev),
        Err(ReadRevFault::Memory) => Err(GraphFault::Memory),
        Err(ReadRevFault::Bad(_)) => unreachable!(),
    }
}

/// The parts of the release of this name.
pub fn release_at<L: Look>(look: &L, name: Name) -> Result<SpelledRel<'_>, GraphFault>
    requires { name.kind ≡ Release }
    ensures ok { IfOk result (λ rel. HoldsRelease (L.archive look.now).bodies name (release_spelled rel)) }
    ensures err { IfErr result (IsNotHeld (L.archive look.now).bodies name) }
{
    look.is_graph();
    let Some(body) = look.body(&name) else {
        return Err(GraphFault::NotHeld { name });
    };
    match spelled_rel(body.as_slice()) {
        Ok(rel) => Ok(rel),
        Err(_) => unreachable!(),
    }
}

/// The branches of the snapshot of this name.
pub fn snapshot_at<L: Look>(
    alloc: Global,
    look: &L,
    name: Name,
) -> Result<Vec<SpelledBranch<'_>>, GraphFault>
    requires { name.kind ≡ Snapshot }
    ensures ok { IfOk result (λ branches.
        HoldsSnapshot (L.archive look.now).bodies name (branches_in_body branches.items)) }
    ensures err { IfErr result (IsNotHeld (L.archive look.now).bodies name) }
{
    look.is_graph();
    let Some(body) = look.body(&name) else {
        return Err(GraphFault::NotHeld { name });
    };
    match spelled_snp(alloc, body.as_slice()) {
        Ok(branches) => Ok(branches),
        Err(ReadSnpFault::Memory) => Err(GraphFault::Memory),
        Err(ReadSnpFault::Bad(_)) => unreachable!(),
    }
}
