//! What the tests of cooking share.
ghost use Rattle.std.specs.Prelude.{◌≢◌};
ghost use Rattle.swh_base.specs.declared.kind.Kind.TheVariants.{Content as ContentKind};

use std::alloc::Global;
use std::test::Fail;
use swh_base::{Bytes, Kind, Name};
use swh_carried::CookFault;
use swh_fastcook::{make_ready, write_stream};
use swh_graph_fixtures::objects::OBJECTS;
use swh_graph_fixtures::{add, archive_of};
use swh_memory_input::MemorySink;
use swh_model::Look;
use swh_replay::Replayed;
use swh_swhid::{core_text, parse_core};

/// The objects that tests of reading share, and these.
pub fn archive_with(alloc: Global, made: &[(Kind, &[u8])]) -> Result<Replayed, Fail> {
    let Some(mut shown) = archive_of(alloc, OBJECTS) else {
        return Err(Fail::from("an archive"));
    };
    for (kind, body) in made {
        let body = body.to_vec(alloc)?;
        put(alloc, &mut shown, *kind, body)?;
    }
    Ok(shown)
}

/// Adds an object, and answers its name.
pub fn put(alloc: Global, shown: &mut Replayed, kind: Kind, body: Vec<u8>) -> Result<Name, Fail> {
    match add(alloc, shown, kind, body) {
        Some(name) => Ok(name),
        None => Err(Fail::from("an object")),
    }
}

/// The name of a core identifier.
pub fn name_of(core: &[u8]) -> Result<Name, Fail> {
    match parse_core(core) {
        Some(name) => Ok(name),
        None => Err(Fail::from("a core identifier")),
    }
}

/// Appends the id of a name in hexadecimal digits.
pub fn push_id(body: &mut Vec<u8>, name: &Name) -> Result<(), Fail> {
    let mut spelled = [0; 50];
    core_text(name, &mut spelled);
    match spelled.as_slice().get(10..) {
        Some(digits) => Ok(body.extend_from_slice(digits)?),
        None => Err(Fail::from("an id")),
    }
}

/// Writes the stream of all that is reached from a root, and answers its head.
fn cook_stream<L: Look>(
    alloc: Global,
    look: &L,
    root: Name,
    sink: &mut MemorySink,
) -> Result<Option<Bytes>, CookFault>
    requires { root.kind ≢ ContentKind }
{
    let ready = match make_ready(alloc, look, root) {
        Ok(ready) => ready,
        Err(fault) => return Err(fault),
    };
    match write_stream(alloc, look, &ready.marks, root, sink) {
        Ok(()) => Ok(ready.head),
        Err(fault) => Err(fault),
    }
}

/// What the writing of a stream answers of a root that is neither a content nor a directory.
pub fn cooked(
    alloc: Global,
    shown: &Replayed,
    root: Name,
    sink: &mut MemorySink,
) -> Result<Option<Bytes>, CookFault> {
    match root.kind {
        Kind::Content | Kind::Directory => Err(CookFault::Memory),
        Kind::Revision | Kind::Release | Kind::Snapshot => cook_stream(alloc, shown, root, sink),
    }
}

/// Why a root is refused, before the sink is called; or none where it is not, by a sink without room.
pub fn refusal(alloc: Global, shown: &Replayed, root: Name) -> Result<Option<CookFault>, Fail> {
    let mut sink = MemorySink::without_room(alloc);
    match cooked(alloc, shown, root, &mut sink) {
        Err(CookFault::WriteFault) => Ok(None),
        Err(fault) if sink.faults() == 0 => Ok(Some(fault)),
        _ => Err(Fail::from("a call of the sink")),
    }
}
