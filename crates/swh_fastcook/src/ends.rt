//! The end of a stream.
ghost use Rattle.std.specs.Prelude.{◌≡◌, ◌≢◌, ◌↔◌, ◌++◌, Bool, IsTrue, OnOk, IfOk, IfSome, IfNone, Contains, codes};
ghost use Rattle.swh_base.specs.declared.kind.Kind.TheVariants.{Revision as RevisionKind, Snapshot as SnapshotKind};
ghost use Rattle.swh_base.specs.declared.name.Name.{Name as Named};
ghost use Rattle.swh_fastwrite.specs.Text.{cook_branch};
ghost use Rattle.swh_graph.specs.Holding.{HoldsSnapshot};
ghost use Rattle.swh_postorder.specs.Cycle.{IsSomePostorder, ArePreceded};
ghost use Rattle.swh_snpfmt.specs.declared.branch.SpelledBranch.{SpelledBranch as Spelled};
ghost use Rattle.swh_snpfmt.specs.Branches.{branches_in_body};
ghost use Rattle.swh_fastwrite.specs.Held.{WroteSome, kept};
ghost use Rattle.swh_fastcook.specs.Cause.{HasWriteCause};
ghost use Rattle.swh_fastcook.specs.Ends.{HasRevision, LackCookBranch, end_or_none, main_tip, IsEnd};

use crate::pieces::hold;
use crate::tips::write_tips;
use std::alloc::Global;
use swh_base::{Kind, Memory, Name};
use swh_carried::CookFault;
use swh_fastwrite::{Taker, push_end, push_tip};
use swh_graph::{GraphFault, snapshot_at};
use swh_marks::Marks;
use swh_model::Look;
use swh_snpfmt::SpelledBranch;

fn is_revision(kind: Kind) -> bool
    ensures { IsTrue result ↔ (kind ≡ RevisionKind) }
{
    match kind {
        Kind::Revision => true,
        Kind::Content | Kind::Directory | Kind::Release | Kind::Snapshot => false,
    }
}

/// The first of the names that is a revision's.
fn first_revision(names: &[Name]) -> Option<Name>
    ensures some { IfSome result (λ name. Contains names.now name × (name.kind ≡ RevisionKind)) }
    ensures none { IfNone result ((n : Named) → Contains names.now n → n.kind ≢ RevisionKind) }
{
    for name in names {
        if is_revision(name.kind) {
            return Some(*name);
        }
    }
    None
}

/// Whether a revision is one of the names.
fn has_revision(names: &[Name]) -> bool
    ensures { IsTrue result ↔ HasRevision names.now }
{
    match first_revision(names) {
        Some(_) => true,
        None => false,
    }
}

fn is_cook_branch(name: &[u8]) -> bool
    ensures { IsTrue result ↔ (name.now ≡ cook_branch) }
{
    name == b"refs/swh/cook".as_slice()
}

/// The branch of all commits, where it is one of these.
fn find_cook_branch<'a>(branches: &[SpelledBranch<'a>]) -> Option<SpelledBranch<'a>>
    ensures some { IfSome result (λ b. Contains branches.now b × (b.name.now ≡ cook_branch)) }
    ensures none { IfNone result ((b : Spelled) → Contains branches.now b → b.name.now ≢ cook_branch) }
{
    for branch in branches {
        if is_cook_branch(branch.name) {
            return Some(*branch);
        }
    }
    None
}

/// Whether none of these is the branch of all commits.
fn lack_cook_branch(branches: &[SpelledBranch<'_>]) -> bool
    ensures { IsTrue result ↔ LackCookBranch (branches_in_body branches.now) }
{
    match find_cook_branch(branches) {
        Some(_) => false,
        None => true,
    }
}

/// Whether the branch of all commits is left behind by these names, and none of these.
fn leaves_branch(names: &[Name], branches: &[SpelledBranch<'_>]) -> bool
    ensures { IsTrue result ↔ (HasRevision names.now × LackCookBranch (branches_in_body branches.now)) }
{
    has_revision(names) && lack_cook_branch(branches)
}

/// Appends what takes the branch of all commits away, where that is to be.
fn push_away(held: &mut Vec<u8>, leaves: bool) -> Result<(), Memory>
    ensures { OnOk result (held.new.items ≡ held.old.items ++ end_or_none leaves) }
{
    if leaves {
        return push_end(held, b"refs/swh/cook");
    }
    Ok(())
}

/// Appends the same, and the last line.
fn push_last(held: &mut Vec<u8>, leaves: bool) -> Result<(), Memory>
    ensures { OnOk result (held.new.items ≡ held.old.items ++ (end_or_none leaves ++ codes "done\n")) }
{
    push_away(held, leaves)?;
    hold(held, b"done\n")
}

/// The branches of a snapshot that is held.
fn branches_of<'a, L: Look>(
    alloc: Global,
    look: &'a L,
    marks: &Marks,
    root: Name,
) -> Result<Vec<SpelledBranch<'a>>, Memory>
    requires order { IsSomePostorder (L.children_of look.now) marks.now }
    requires there { Contains marks.now root }
    requires kind { root.kind ≡ SnapshotKind }
    ensures { IfOk result (λ branches. HoldsSnapshot (L.archive look.now).bodies root (branches_in_body branches.items)) }
{
    look.is_graph();
    match snapshot_at(alloc, look, root) {
        Ok(branches) => Ok(branches),
        Err(GraphFault::Memory) => Err(Memory),
        Err(GraphFault::NotHeld { .. }) => unreachable!(),
        Err(GraphFault::NoPath { .. }) => unreachable!(),
    }
}

/// Writes the end of a snapshot's stream.
fn write_snapshot_end<L: Look, T: Taker>(
    alloc: Global,
    look: &L,
    marks: &Marks,
    root: Name,
    taker: &mut T,
    held: &mut Vec<u8>,
) -> Result<(), CookFault>
    requires order { IsSomePostorder (L.children_of look.now) marks.now }
    requires preceded { ArePreceded (L.children_of look.now) marks.now }
    requires there { Contains marks.now root }
    requires kind { root.kind ≡ SnapshotKind }
    ensures bytes { WroteSome T.takes T.takes_front (kept taker.old held.old.items)
        (IsEnd (L.archive look.now).bodies marks.now root) (kept taker.new held.new.items) result }
    ensures cause { HasWriteCause (T.failures taker.old) (T.failures taker.new) result }
{
    look.is_graph();
    let branches = branches_of(alloc, look, marks, root)?;
    write_tips(taker, held, marks, branches.as_slice())?;
    let leaves = leaves_branch(marks.order(), branches.as_slice());
    push_last(held, leaves)?;
    Ok(())
}

/// Appends the branch of a revision.
fn push_main(held: &mut Vec<u8>, marks: &Marks, root: Name) -> Result<(), Memory>
    requires { Contains marks.now root }
    ensures { OnOk result (held.new.items ≡ held.old.items ++ main_tip marks.now root root.kind) }
{
    match root.kind {
        Kind::Revision => push_tip(held, b"refs/heads/main", marks.get(&root)),
        Kind::Content | Kind::Directory | Kind::Release | Kind::Snapshot => Ok(()),
    }
}

/// Appends the end of the stream of a name that is no snapshot.
fn push_object_end(held: &mut Vec<u8>, marks: &Marks, root: Name) -> Result<(), Memory>
    requires { Contains marks.now root }
    ensures { OnOk result ((leaves : Bool) × (IsTrue leaves ↔ HasRevision marks.now) × (held.new.items
        ≡ held.old.items ++ (main_tip marks.now root root.kind ++ (end_or_none leaves ++ codes "done\n")))) }
{
    push_main(held, marks, root)?;
    let leaves = has_revision(marks.order());
    push_last(held, leaves)
}

fn is_snapshot(kind: Kind) -> bool
    ensures { IsTrue result ↔ (kind ≡ SnapshotKind) }
{
    match kind {
        Kind::Snapshot => true,
        Kind::Content | Kind::Directory | Kind::Revision | Kind::Release => false,
    }
}

/// Writes what stands behind the objects of a stream.
pub fn write_end<L: Look, T: Taker>(
    alloc: Global,
    look: &L,
    marks: &Marks,
    root: Name,
    taker: &mut T,
    held: &mut Vec<u8>,
) -> Result<(), CookFault>
    requires order { IsSomePostorder (L.children_of look.now) marks.now }
    requires preceded { ArePreceded (L.children_of look.now) marks.now }
    requires there { Contains marks.now root }
    ensures bytes { WroteSome T.takes T.takes_front (kept taker.old held.old.items)
        (IsEnd (L.archive look.now).bodies marks.now root) (kept taker.new held.new.items) result }
    ensures cause { HasWriteCause (T.failures taker.old) (T.failures taker.new) result }
{
    if is_snapshot(root.kind) {
        return write_snapshot_end(alloc, look, marks, root, taker, held);
    }
    push_object_end(held, marks, root)?;
    Ok(())
}
