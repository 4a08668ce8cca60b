//! The snapshot of a folder (SWHID v1.2, core identifiers, snapshots).
ghost use Rattle.std.specs.Prelude.{◌≡◌, ◌∷◌, [], IfOk, Contains, length};
ghost use Rattle.swh_base.specs.declared.kind.Kind.TheVariants.{Snapshot};
ghost use Rattle.swh_snpfmt.specs.Branches.{branch_views};
ghost use Rattle.swh_dedup.specs.Making.{made, names_of_made};
ghost use Rattle.swh_dirmade.specs.Making.{directory_name};
ghost use Rattle.swh_dirmade.specs.Snapshots.{head, GivesSnapshot};

use crate::given::Given;
use std::alloc::Global;
use swh_base::{Bytes, Kind, Memory, Name, Namer};
use swh_dedup::{MakeFault, make_object, whole_id};
use swh_snpfmt::{Branch, Branches, Target, write_snp};

/// The one branch `HEAD`, to the directory of this id.
fn head_to(alloc: Global, root: [u8; 20]) -> Result<Vec<Branch>, Memory>
    ensures { IfOk result (λ list. branch_views list.items ≡ head root ∷ []) }
{
    let name = Bytes::from_slice(alloc, b"HEAD")?;
    let target = Target::Object(Name {
        kind: Kind::Directory,
        id: root,
    });
    let mut list = Vec::new(alloc);
    list.push(Branch { name, target })?;
    Ok(list)
}

/// Makes the snapshot whose one branch is `HEAD`, to the directory of this id, which was given, and tells its id.
pub fn make_snapshot<N: Namer>(
    alloc: Global,
    namer: &N,
    given: &mut Given<N>,
    root: [u8; 20],
) -> Result<[u8; 20], Memory>
    requires { Contains (names_of_made N.id_of (made given.old)) (directory_name root) }
    ensures { IfOk result (GivesSnapshot N.id_of root given.old given.new) }
{
    let root = whole_id(&root);
    let list = head_to(alloc, root)?;
    let body = write_snp(alloc, &Branches::of(list))?;
    match make_object(alloc, namer, Kind::Snapshot, body) {
        Ok(object) => {
            let id = whole_id(&object.name().id);
            given.give(alloc, object)?;
            Ok(id)
        }
        Err(MakeFault::TooLong { len: _ }) => unreachable!(),
        Err(MakeFault::Memory) => Err(Memory),
    }
}
