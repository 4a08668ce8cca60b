//! A name becomes a folder or a file.
ghost use Rattle.std.specs.Prelude.{◌≡◌, IfOk, IfErr};
ghost use Rattle.swh_base.specs.declared.kind.Kind.TheVariants.{Directory as DirectoryKind};
ghost use Rattle.swh_carried.specs.Cause.{HasCookCause};
ghost use Rattle.swh_dircook.specs.Made.{yarded};
ghost use Rattle.swh_cook.specs.Cook.{IsCooked, ExplainsUncooked};

use crate::file::{cook_content, cook_stream};
use std::alloc::Global;
use swh_base::{Bytes, Kind, Name};
use swh_carried::CookFault;
use swh_dircook::cook_dir;
use swh_model::Look;
use swh_outside::Yard;

/// Cooks a directory.
fn cook_folder<L: Look, Y: Yard>(
    alloc: Global,
    look: &L,
    name: Name,
    yard: &mut Y,
    out: &str,
) -> Result<Option<Bytes>, CookFault>
    requires { name.kind ≡ DirectoryKind }
    ensures ok { IfOk result (IsCooked (L.archive look.now).bodies (L.children_of look.now) name out.now Y.Sink.tells
        (yarded (Y.Sink.begun yard.old) (Y.Sink.taken yard.old)) (yarded (Y.Sink.begun yard.new) (Y.Sink.taken yard.new))) }
    ensures err { IfErr result (ExplainsUncooked (L.archive look.now).bodies (L.children_of look.now) name out.now
        Y.Sink.tells (yard.new ≡ yard.old)
        (yarded (Y.Sink.begun yard.old) (Y.Sink.taken yard.old)) (yarded (Y.Sink.begun yard.new) (Y.Sink.taken yard.new))) }
    ensures cause { HasCookCause (Y.Sink.faults yard.old) (Y.Sink.faults yard.new) result }
{
    look.is_of_bytes();
    match cook_dir(alloc, look, name, yard, out) {
        Ok(()) => Ok(None),
        Err(fault) => Err(fault),
    }
}

/// Cooks a name into a yard, at the path `out`: of a directory the folder `out` and the listing `out.modes`, of a content a
/// file of its bytes, and of each other name a file of its stream. The answer is where the alias `HEAD` of a snapshot leads.
///
/// # Errors
///
/// The first name that a walk enters and that is not held; where all are held, the first that the form cannot carry, and why;
/// before either nothing is begun. The yard fails, or memory runs out; then a front of it all was made.
pub fn cook_name<L: Look, Y: Yard>(
    alloc: Global,
    look: &L,
    name: Name,
    yard: &mut Y,
    out: &str,
) -> Result<Option<Bytes>, CookFault>
    ensures ok { IfOk result (IsCooked (L.archive look.now).bodies (L.children_of look.now) name out.now Y.Sink.tells
        (yarded (Y.Sink.begun yard.old) (Y.Sink.taken yard.old)) (yarded (Y.Sink.begun yard.new) (Y.Sink.taken yard.new))) }
    ensures err { IfErr result (ExplainsUncooked (L.archive look.now).bodies (L.children_of look.now) name out.now
        Y.Sink.tells (yard.new ≡ yard.old)
        (yarded (Y.Sink.begun yard.old) (Y.Sink.taken yard.old)) (yarded (Y.Sink.begun yard.new) (Y.Sink.taken yard.new))) }
    ensures cause { HasCookCause (Y.Sink.faults yard.old) (Y.Sink.faults yard.new) result }
{
    match name.kind {
        Kind::Content => cook_content(look, name, yard, out),
        Kind::Directory => cook_folder(alloc, look, name, yard, out),
        Kind::Revision | Kind::Release | Kind::Snapshot => {
            cook_stream(alloc, look, name, yard, out)
        }
    }
}
