//! The cooking of a directory.
ghost use Rattle.std.specs.Prelude.{◌≡◌, ◌≢◌, OnOk, IfOk, IfErr, IfSome, IfNone, Contains};
ghost use Rattle.swh_base.specs.declared.kind.Kind.TheVariants.{Directory as DirectoryKind};
ghost use Rattle.swh_base.specs.declared.name.Name.{Name as Named};
ghost use Rattle.swh_carried.specs.Cause.{HasCookCause};
ghost use Rattle.swh_carried.specs.Uncarried.{AreCarried, HasNoCycle, IsFirstToBreak, BreaksNone};
ghost use Rattle.swh_graph.specs.Path.{directory_name};
ghost use Rattle.swh_postorder.specs.Postorder.{IsPostorder};
ghost use Rattle.swh_dircook.specs.Cook.{
  IsCarriedFolder,
  MakesFolder,
  ExplainsUncarried,
  ExplainsNoFolder,
};
ghost use Rattle.swh_dircook.specs.Made.{yarded};
ghost use Rattle.swh_dircook.specs.Rules.{BreaksInFolder};

use crate::first::first_in_order;
use crate::long::is_long;
use crate::whole::make_whole;
use std::alloc::Global;
use swh_base::{Kind, Memory, Name};
use swh_carried::{CookFault, Why, acyclic_order};
use swh_model::Look;
use swh_outside::{OutFault, Yard};

/// The first object that a folder cannot carry, of those that are reached from a directory in this order, and the first rule
/// that it breaks.
fn first_uncarried<L: Look>(
    alloc: Global,
    look: &L,
    order: &[Name],
    directory: [u8; 20],
) -> Result<Option<(Name, Why)>, Memory>
    requires order { IsPostorder (L.children_of look.now) (directory_name directory) order.now }
    requires acyclic { HasNoCycle (L.children_of look.now) order.now }
    ensures some { IfOk result (λ found. IfSome found (λ x.
        IsFirstToBreak (BreaksInFolder (L.archive look.now).bodies (directory_name directory)) order.now x.0 x.1)) }
    ensures none { IfOk result (λ found. IfNone found ((n : Named) → Contains order.now n
        → BreaksNone (BreaksInFolder (L.archive look.now).bodies (directory_name directory)) n)) }
{
    look.is_graph();
    let root = Name {
        kind: Kind::Directory,
        id: directory,
    };
    if let Some(found) = first_in_order(alloc, look, order, root)? {
        return Ok(Some(found));
    }
    let long = is_long(alloc, look, order, directory)?;
    if long {
        return Ok(Some((root, Why::Length)));
    }
    Ok(None)
}

/// The names that are reached from a directory, in the order in which a walk leaves them, where a folder carries all of them.
fn carried_order<L: Look>(
    alloc: Global,
    look: &L,
    directory: [u8; 20],
) -> Result<Vec<Name>, CookFault>
    ensures order { IfOk result (λ order. IsPostorder (L.children_of look.now) (directory_name directory) order.items) }
    ensures carried { IfOk result (λ order. AreCarried (L.children_of look.now)
        (BreaksInFolder (L.archive look.now).bodies (directory_name directory)) order.items) }
    ensures err { IfErr result (ExplainsUncarried (L.archive look.now).bodies (L.children_of look.now) (directory_name directory)) }
{
    let kind = Kind::Directory;
    let id = directory;
    let order = acyclic_order(alloc, look, Name { kind, id })?;
    let found = first_uncarried(alloc, look, order.as_slice(), directory)?;
    match found {
        Some((name, why)) => Err(CookFault::Uncarried { name, why }),
        None => Ok(order),
    }
}

/// Makes the folder of the directory of this id.
fn cook_folder<L: Look, Y: Yard>(
    alloc: Global,
    look: &L,
    directory: [u8; 20],
    yard: &mut Y,
    out: &str,
) -> Result<(), CookFault>
    ensures carried { OnOk result (IsCarriedFolder (L.archive look.now).bodies (L.children_of look.now) (directory_name directory)) }
    ensures made { OnOk result (Y.Sink.tells → MakesFolder (L.archive look.now).bodies (directory_name directory) out.now
        (yarded (Y.Sink.begun yard.old) (Y.Sink.taken yard.old)) (yarded (Y.Sink.begun yard.new) (Y.Sink.taken yard.new))) }
    ensures err { IfErr result (ExplainsNoFolder (L.archive look.now).bodies (L.children_of look.now) (directory_name directory)
        out.now Y.Sink.tells (yard.new ≡ yard.old)
        (yarded (Y.Sink.begun yard.old) (Y.Sink.taken yard.old)) (yarded (Y.Sink.begun yard.new) (Y.Sink.taken yard.new))) }
    ensures cause { HasCookCause (Y.Sink.faults yard.old) (Y.Sink.faults yard.new) result }
{
    look.is_graph();
    let order = carried_order(alloc, look, directory)?;
    match make_whole(alloc, look, order.as_slice(), directory, yard, out) {
        Ok(()) => Ok(()),
        Err(OutFault::Failed) => Err(CookFault::WriteFault),
        Err(OutFault::Memory) => Err(CookFault::Memory),
    }
}

/// Makes a folder of a directory: the folder `out`; then, in the walk over the directory's paths, its folders, and its files
/// with their bytes, and nothing for revisions of other projects; then the listing `out.modes`. Where a name that is reached
/// is not held, it fails with the first that a walk enters; where a folder cannot carry all of them, with the first that it
/// cannot, and the first rule that this breaks. In both cases nothing is made. Where the yard fails, or memory runs out, what
/// stands is a front of the whole.
pub fn cook_dir<L: Look, Y: Yard>(
    alloc: Global,
    look: &L,
    name: Name,
    yard: &mut Y,
    out: &str,
) -> Result<(), CookFault>
    requires { name.kind ≡ DirectoryKind }
    ensures carried { OnOk result (IsCarriedFolder (L.archive look.now).bodies (L.children_of look.now) name) }
    ensures made { OnOk result (Y.Sink.tells → MakesFolder (L.archive look.now).bodies name out.now
        (yarded (Y.Sink.begun yard.old) (Y.Sink.taken yard.old)) (yarded (Y.Sink.begun yard.new) (Y.Sink.taken yard.new))) }
    ensures err { IfErr result (ExplainsNoFolder (L.archive look.now).bodies (L.children_of look.now) name
        out.now Y.Sink.tells (yard.new ≡ yard.old)
        (yarded (Y.Sink.begun yard.old) (Y.Sink.taken yard.old)) (yarded (Y.Sink.begun yard.new) (Y.Sink.taken yard.new))) }
    ensures cause { HasCookCause (Y.Sink.faults yard.old) (Y.Sink.faults yard.new) result }
{
    cook_folder(alloc, look, name.id, yard, out)
}
