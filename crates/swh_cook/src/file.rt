//! A text becomes a file of a yard.
ghost use Rattle.std.specs.Prelude.{◌≡◌, ◌≢◌, ◌++◌, ◌∷◌, [], length, IfOk, IfErr, OnOk, OnErr};
ghost use Rattle.swh_base.specs.declared.kind.Kind.TheVariants.{Content as ContentKind, Directory as DirectoryKind};
ghost use Rattle.swh_outside.specs.Sink.{FileAt};
ghost use Rattle.swh_carried.specs.Cause.{HasCookCause};
ghost use Rattle.swh_fastcook.specs.Cause.{HasWriteCause};
ghost use Rattle.swh_dircook.specs.Made.{yarded};
ghost use Rattle.swh_cook.specs.Cook.{IsCooked, ExplainsUncooked};

use std::alloc::Global;
use swh_base::{Bytes, Name};
use swh_carried::CookFault;
use swh_fastcook::{make_ready, write_stream};
use swh_model::Look;
use swh_outside::{OutFault, Yard};

/// Begins the file at a path.
fn begin_file<Y: Yard>(yard: &mut Y, out: &str) -> Result<(), CookFault>
    ensures begun { Y.Sink.tells → OnOk result (Y.Sink.begun yard.new
        ≡ Y.Sink.begun yard.old ++ FileAt out.now (length (Y.Sink.taken yard.old)) ∷ []) }
    ensures refused { Y.Sink.tells → OnErr result (Y.Sink.begun yard.new ≡ Y.Sink.begun yard.old) }
    ensures same_taken { Y.Sink.tells → Y.Sink.taken yard.new ≡ Y.Sink.taken yard.old }
    ensures cause { HasWriteCause (Y.Sink.faults yard.old) (Y.Sink.faults yard.new) result }
{
    match yard.file(out) {
        Ok(()) => Ok(()),
        Err(OutFault::Failed) => Err(CookFault::WriteFault),
        Err(OutFault::Memory) => Err(CookFault::Memory),
    }
}

/// Cooks a content: the file has its bytes.
pub fn cook_content<L: Look, Y: Yard>(
    look: &L,
    name: Name,
    yard: &mut Y,
    out: &str,
) -> Result<Option<Bytes>, CookFault>
    requires { name.kind ≡ ContentKind }
    ensures ok { IfOk result (IsCooked (L.archive look.now).bodies (L.children_of look.now) name out.now Y.Sink.tells
        (yarded (Y.Sink.begun yard.old) (Y.Sink.taken yard.old)) (yarded (Y.Sink.begun yard.new) (Y.Sink.taken yard.new))) }
    ensures err { IfErr result (ExplainsUncooked (L.archive look.now).bodies (L.children_of look.now) name out.now
        Y.Sink.tells (yard.new ≡ yard.old)
        (yarded (Y.Sink.begun yard.old) (Y.Sink.taken yard.old)) (yarded (Y.Sink.begun yard.new) (Y.Sink.taken yard.new))) }
    ensures cause { HasCookCause (Y.Sink.faults yard.old) (Y.Sink.faults yard.new) result }
{
    look.is_graph();
    look.is_of_bytes();
    let Some(body) = look.body(&name) else {
        return Err(CookFault::NotHeld { name });
    };
    if let Err(fault) = begin_file(yard, out) {
        return Err(fault);
    }
    match yard.put(body.as_slice()) {
        Ok(()) => Ok(None),
        Err(_) => Err(CookFault::WriteFault),
    }
}

/// Cooks all that is reached from a name as a stream: the file has its text.
pub fn cook_stream<L: Look, Y: Yard>(
    alloc: Global,
    look: &L,
    name: Name,
    yard: &mut Y,
    out: &str,
) -> Result<Option<Bytes>, CookFault>
    requires content { name.kind ≢ ContentKind }
    requires directory { name.kind ≢ DirectoryKind }
    ensures ok { IfOk result (IsCooked (L.archive look.now).bodies (L.children_of look.now) name out.now Y.Sink.tells
        (yarded (Y.Sink.begun yard.old) (Y.Sink.taken yard.old)) (yarded (Y.Sink.begun yard.new) (Y.Sink.taken yard.new))) }
    ensures err { IfErr result (ExplainsUncooked (L.archive look.now).bodies (L.children_of look.now) name out.now
        Y.Sink.tells (yard.new ≡ yard.old)
        (yarded (Y.Sink.begun yard.old) (Y.Sink.taken yard.old)) (yarded (Y.Sink.begun yard.new) (Y.Sink.taken yard.new))) }
    ensures cause { HasCookCause (Y.Sink.faults yard.old) (Y.Sink.faults yard.new) result }
{
    look.is_graph();
    look.is_of_bytes();
    let ready = match make_ready(alloc, look, name) {
        Ok(ready) => ready,
        Err(fault) => return Err(fault),
    };
    if let Err(fault) = begin_file(yard, out) {
        return Err(fault);
    }
    match write_stream(alloc, look, &ready.marks, name, yard) {
        Ok(()) => Ok(ready.head),
        Err(fault) => Err(fault),
    }
}
