// Loads of streams in memory, and what they make.
use std::alloc::{AllocError, Global};
use std::process::Abort;
use std::test::Fail;
use swh_base::{Kind, Name, Sha1Namer};
use swh_fastload::{InputFault, Objects, load_source};
use swh_memory_input::MemorySource;
use swh_object::Object;

/// A stream, and what it makes: how many objects, the snapshot among them, the snapshot's id, and the objects at the
/// tips, their ids in digits.
pub struct Row {
    pub title: &'static str,
    pub stream: &'static [u8],
    pub objects: usize,
    pub snapshot: &'static [u8],
    pub tips: &'static [(Kind, &'static [u8])],
}

/// What a load of a stream, which comes in small pieces, makes.
pub fn load(
    alloc: Global,
    stream: &[u8],
) -> Result<Result<Objects<Sha1Namer>, InputFault>, AllocError> {
    let bytes = Vec::from_slice(alloc, stream)?;
    let mut source = MemorySource::new(String::new(alloc), bytes, 61, Vec::new(alloc));
    Ok(load_source(alloc, &Sha1Namer, None, &mut source))
}

/// How many of the objects have this kind, and this id in digits.
fn count_of(objects: &[Object<Sha1Namer>], kind: Kind, id: &[u8]) -> usize {
    let name = Name::from_hex(kind, id);
    objects
        .iter()
        .filter(|object| Some(object.name()) == name)
        .count()
}

/// Checks that a row's stream makes what the row says.
pub fn check(rt: &impl Abort, alloc: Global, row: &Row) -> Result<(), Fail> {
    let loaded = load(alloc, row.stream)??;
    let name = Name {
        kind: Kind::Snapshot,
        id: loaded.snapshot,
    };
    assert_eq!(rt;
        Some(name),
        Name::from_hex(Kind::Snapshot, row.snapshot),
        "{}",
        row.title
    );
    let objects = loaded.objects.as_slice();
    assert_eq!(rt; objects.len(), row.objects, "{}", row.title);
    for (number, (kind, id)) in row.tips.iter().enumerate() {
        assert_eq!(rt;
            count_of(objects, *kind, id),
            1,
            "{}, tip {number}",
            row.title
        );
    }
    Ok(())
}
