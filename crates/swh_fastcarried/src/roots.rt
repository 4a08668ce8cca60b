//! Directories of revisions.
ghost use Rattle.std.specs.Prelude.{◌≡◌, ◌↔◌, ◌⊎◌, OnOk, IfOk, IfSome, IfNone, Contains};
ghost use Rattle.swh_base.specs.declared.kind.Kind.TheVariants.{Revision as RevisionKind};
ghost use Rattle.swh_base.specs.declared.name.Name.{Name as Named};
ghost use Rattle.swh_fastcarried.specs.First.{IsRootAt};
ghost use Rattle.swh_fastcarried.specs.Rules.{IsRevisionRoot};

use std::alloc::Global;
use swh_base::{Kind, Memory, Name};
use swh_model::Look;

/// The directory of a revision that is held under the name: the first of its children.
fn directory_of<L: Look>(look: &L, name: Name) -> Option<Name>
    requires { name.kind ≡ RevisionKind }
    ensures some { IfSome result (IsRootAt (L.archive look.now).bodies name) }
    ensures none { IfNone result ((n : Named) → IsRootAt (L.archive look.now).bodies name n → ⊥) }
{
    look.is_graph();
    let Some(kids) = look.children_of(&name) else {
        return None;
    };
    let Some((first, _)) = kids.split_first() else {
        return None;
    };
    Some(*first)
}

/// The directory of what is held under the name, where that is a revision.
fn root_of<L: Look>(look: &L, name: Name) -> Option<Name>
    ensures some { IfSome result (IsRootAt (L.archive look.now).bodies name) }
    ensures none { IfNone result ((n : Named) → IsRootAt (L.archive look.now).bodies name n → ⊥) }
{
    match name.kind {
        Kind::Revision => directory_of(look, name),
        Kind::Content | Kind::Directory | Kind::Release | Kind::Snapshot => None,
    }
}

/// Adds the directory of what is held under the name, where that is a revision.
fn add_of<L: Look>(look: &L, name: Name, roots: &mut Vec<Name>) -> Result<(), Memory>
    ensures { OnOk result ((n : Named) → Contains roots.new.items n
        ↔ (Contains roots.old.items n ⊎ IsRootAt (L.archive look.now).bodies name n)) }
{
    if let Some(root) = root_of(look, name) {
        roots.push(root)?;
    }
    Ok(())
}

/// The directories of those of these names that are revisions, one for each revision.
pub(crate) fn roots_of<L: Look>(
    alloc: Global,
    look: &L,
    order: &[Name],
) -> Result<Vec<Name>, Memory>
    ensures { IfOk result (λ roots. (n : Named) → Contains roots.items n
        ↔ IsRevisionRoot (L.archive look.now).bodies order.now n) }
{
    let mut roots = Vec::new(alloc);
    for name in order {
        add_of(look, *name, &mut roots)?;
    }
    Ok(roots)
}
