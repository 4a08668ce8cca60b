//! The branches of what was cooked.
ghost use Rattle.std.specs.Prelude.{◌≡◌, ◌++◌, ◌∷◌, [], ℕ, List, OnOk, Contains};
ghost use Rattle.swh_base.specs.declared.name.Name.{Name};
ghost use Rattle.swh_base.specs.declared.kind.Kind.TheVariants.{Revision as RevisionKind};
ghost use Rattle.swh_base.specs.Snapshot.{SnapshotBranch, ToObject};
ghost use Rattle.swh_snpfmt.specs.Branches.{branch_of, branches_in_body};
ghost use Rattle.swh_fastwrite.specs.Held.{Wrote, kept};
ghost use Rattle.swh_fastcook.specs.Cause.{HasWriteCause};
ghost use Rattle.swh_fastcook.specs.Stream.{object_tip, target_tip, tips_text};
ghost use Rattle.swh_fastcook.specs.Tips.{LeadInOrder};

use swh_base::{Kind, Memory, Name};
use swh_carried::CookFault;
use swh_fastwrite::{Taker, push_tip, settle};
use swh_marks::Marks;
use swh_snpfmt::{SpelledBranch, SpelledTarget};

/// Appends the tip of a branch that leads to an object, where that is a revision.
fn push_object_tip(
    held: &mut Vec<u8>,
    marks: &Marks,
    branch: &[u8],
    name: Name,
) -> Result<(), Memory>
    requires { name.kind ≡ RevisionKind → Contains marks.now name }
    ensures { OnOk result (held.new.items ≡ held.old.items ++ object_tip marks.now branch.now name name.kind) }
{
    match name.kind {
        Kind::Revision => push_tip(held, branch, marks.get(&name)),
        Kind::Content | Kind::Directory | Kind::Release | Kind::Snapshot => Ok(()),
    }
}

/// Appends the tip of a branch, where it leads to a revision.
fn push_branch(held: &mut Vec<u8>, marks: &Marks, branch: &SpelledBranch<'_>) -> Result<(), Memory>
    requires { (n : Name) → (branch_of branch.now).target ≡ ToObject n → n.kind ≡ RevisionKind → Contains marks.now n }
    ensures { OnOk result (held.new.items
        ≡ held.old.items ++ target_tip marks.now (branch_of branch.now).name (branch_of branch.now).target) }
{
    match branch.target {
        SpelledTarget::Object(kind, id) => {
            push_object_tip(held, marks, branch.name, Name { kind, id: *id })
        }
        SpelledTarget::Alias(_) | SpelledTarget::Dangling => Ok(()),
    }
}

/// Writes the tips of branches.
pub fn write_tips<T: Taker>(
    taker: &mut T,
    held: &mut Vec<u8>,
    marks: &Marks,
    branches: &[SpelledBranch<'_>],
) -> Result<(), CookFault>
    requires { LeadInOrder marks.now (branches_in_body branches.now) }
    ensures bytes { Wrote T.takes T.takes_front (kept taker.old held.old.items)
        (tips_text marks.now (branches_in_body branches.now)) (kept taker.new held.new.items) result }
    ensures cause { HasWriteCause (T.failures taker.old) (T.failures taker.new) result }
{
    for branch in branches {
        push_branch(held, marks, branch)?;
        settle(taker, held)?;
    }
    Ok(())
}
