// How inputs were found: the first part that is not there decides.
use crate::held_bodies::MemoryInput;
use std::alloc::Global;
use std::test::Fail;
use swh_base::VisitKind;
use swh_ingest::Opening;
use swh_inputs::Input;
use swh_memory_input::{MemoryFolder, MemorySource};
use swh_outside::Opened;

fn source_found(alloc: Global) -> MemorySource {
    MemorySource::new(String::new(alloc), Vec::new(alloc), 1, Vec::new(alloc))
}

/// A source as it was opened.
fn source_as(alloc: Global, opening: Opening) -> Opened<MemorySource> {
    match opening {
        Opening::Found => Opened::Found(source_found(alloc)),
        Opening::NotFound => Opened::NotFound,
        Opening::Failed => Opened::Failed,
        Opening::Memory => Opened::Memory,
    }
}

fn is_found_so(input: &MemoryInput, kind: VisitKind, opening: Opening) -> bool {
    input.kind() == kind && input.opening() == opening
}

fn stream_as(alloc: Global, opening: Opening) -> MemoryInput {
    let stream = source_as(alloc, opening);
    Input::Fast { stream, head: None }
}

fn batch_as(alloc: Global, first: Opening, second: Opening) -> MemoryInput {
    let objects = source_as(alloc, first);
    let refs = source_as(alloc, second);
    Input::Batch { objects, refs }
}

/// A folder that is not found, with a listing.
fn folder_as(alloc: Global, folder: Opened<MemoryFolder>, second: Opening) -> MemoryInput {
    let modes = Some(source_as(alloc, second));
    Input::Dir { folder, modes }
}

/// How the parts of a batch were found, and how it was.
static BATCHES: [(Opening, Opening, Opening); 7] = [
    (Opening::Found, Opening::Found, Opening::Found),
    (Opening::Found, Opening::NotFound, Opening::NotFound),
    (Opening::Found, Opening::Failed, Opening::Failed),
    (Opening::NotFound, Opening::Found, Opening::NotFound),
    (Opening::NotFound, Opening::Failed, Opening::NotFound),
    (Opening::Failed, Opening::NotFound, Opening::Failed),
    (Opening::Memory, Opening::Failed, Opening::Memory),
];

#[test]
fn the_first_part_decides(rt: HostRuntime) -> Result<(), Fail> {
    let alloc = rt.alloc();
    for (number, (first, second, whole)) in BATCHES.iter().enumerate() {
        if !is_found_so(&batch_as(alloc, *first, *second), VisitKind::Batch, *whole) {
            return Err(Fail::new(number));
        }
    }
    Ok(())
}

#[test]
fn streams_and_folders(rt: HostRuntime) {
    let alloc = rt.alloc();
    assert!(rt;
        is_found_so(
            &stream_as(alloc, Opening::Failed),
            VisitKind::Fast,
            Opening::Failed
        )
    );
    let absent = folder_as(alloc, Opened::NotFound, Opening::Failed);
    assert!(rt; is_found_so(&absent, VisitKind::Dir, Opening::NotFound));
}
