// Batches and refs in memory, and the objects that are read of them.
use std::alloc::{AllocError, Global};
use std::process::Abort;
use std::test::Fail;
use swh_base::{Kind, Name, Namer, Sha1Namer};
use swh_batchread::{BatchFault, read_batch, read_refs};
use swh_dedup::Objects;
use swh_memory_input::MemorySource;
use swh_object::Object;

/// How many bytes a read gives at most.
pub const PIECES: &[usize] = &[1, 2, 7, 100_000];

/// A batch, and the objects that are read of it: their kinds, and their ids in digits.
pub struct Row {
    pub title: &'static str,
    pub batch: &'static [u8],
    pub objects: &'static [(Kind, &'static [u8])],
}

/// What is read of a batch that comes in pieces.
pub fn read<N: Namer>(
    alloc: Global,
    namer: &N,
    batch: &[u8],
    piece: usize,
) -> Result<Result<Vec<Object<N>>, BatchFault>, AllocError> {
    let bytes = Vec::from_slice(alloc, batch)?;
    let mut source = MemorySource::new(String::new(alloc), bytes, piece, Vec::new(alloc));
    Ok(read_batch(alloc, namer, &mut source))
}

/// Checks that a row's batch, in pieces of this size, gives the row's objects in their order.
fn check_in(rt: &impl Abort, alloc: Global, row: &Row, piece: usize) -> Result<(), Fail> {
    let objects = read(alloc, &Sha1Namer, row.batch, piece)??;
    assert_eq!(rt; objects.len(), row.objects.len(), "{}", row.title);
    for (object, (kind, id)) in objects.iter().zip(row.objects.iter()) {
        let name = Name::from_hex(*kind, id);
        assert_eq!(rt; Some(object.name()), name, "{}", row.title);
    }
    Ok(())
}

/// Checks a row in pieces of each size.
pub fn check(rt: &impl Abort, alloc: Global, row: &Row) -> Result<(), Fail> {
    for piece in PIECES {
        check_in(rt, alloc, row, *piece)?;
    }
    Ok(())
}

/// What is read of a batch and then of its refs, both in pieces of this size.
pub fn read_both<N: Namer>(
    alloc: Global,
    namer: &N,
    batch: &[u8],
    refs: &[u8],
    piece: usize,
) -> Result<Result<Objects<N>, BatchFault>, AllocError> {
    let objects = match read(alloc, namer, batch, piece)? {
        Ok(objects) => objects,
        Err(fault) => return Ok(Err(fault)),
    };
    let bytes = Vec::from_slice(alloc, refs)?;
    let mut source = MemorySource::new(String::new(alloc), bytes, piece, Vec::new(alloc));
    Ok(read_refs(alloc, namer, &mut source, objects))
}

/// The fault of reading a batch and then its refs.
pub fn fault_of_both<N: Namer>(
    alloc: Global,
    namer: &N,
    batch: &[u8],
    refs: &[u8],
    piece: usize,
) -> Result<Option<BatchFault>, AllocError> {
    match read_both(alloc, namer, batch, refs, piece)? {
        Ok(_) => Ok(None),
        Err(fault) => Ok(Some(fault)),
    }
}
