// A source that fails at each of its reads in turn.
use std::alloc::{AllocError, Global};
use std::test::Fail;
use swh_base::Sha1Namer;
use swh_batchread::{BatchFault, read_batch, read_refs};
use swh_memory_input::MemorySource;

/// Two objects of 49 and 50 bytes: 20 reads of five bytes, and one that meets the end.
const BATCH: &[u8] = b"e69de29bb2d1d6434b8b29ae775ad8c2e48c5391 blob 0\n\n\
c1b0730e0133447badcfd47fd144e254807b06e1 blob 1\nx\n";

/// The fault of reading a source whose read of this number fails, none where it does not fail, and the source's count of faults.
fn fault_at(alloc: Global, call: u64) -> Result<(Option<BatchFault>, u64), AllocError> {
    let bytes = Vec::from_slice(alloc, BATCH)?;
    let mut failing = Vec::new(alloc);
    failing.push(call)?;
    let mut source = MemorySource::new(String::new(alloc), bytes, 5, failing);
    let fault = match read_batch(alloc, &Sha1Namer, &mut source) {
        Ok(_) => None,
        Err(fault) => Some(fault),
    };
    Ok((fault, source.faults()))
}

#[test]
fn failing_reads(rt: HostRuntime) -> Result<(), Fail> {
    let alloc = rt.alloc();
    for call in 0..21 {
        let (fault, faults) = fault_at(alloc, call)?;
        assert_eq!(&rt; fault, Some(BatchFault::ReadFault), "read {call}");
        assert_eq!(&rt; faults, 1, "read {call}");
    }
    let (fault, faults) = fault_at(alloc, 21)?;
    assert_eq!(&rt; fault, None);
    assert_eq!(&rt; faults, 0);
    Ok(())
}

/// A line of a ref to the first object, and one of what a tag leads to: 52 and 53 bytes, 21 reads of five bytes, and one that
/// meets the end.
const REFS: &[u8] = b"e69de29bb2d1d6434b8b29ae775ad8c2e48c5391 refs/t/one\n\
e69de29bb2d1d6434b8b29ae775ad8c2e48c5391 refs/t/a^{}\n";

/// The same of reading refs, whose objects are read before.
fn refs_fault_at(alloc: Global, call: u64) -> Result<(Option<BatchFault>, u64), AllocError> {
    let batch = Vec::from_slice(alloc, BATCH)?;
    let mut before = MemorySource::new(String::new(alloc), batch, 5, Vec::new(alloc));
    let objects = match read_batch(alloc, &Sha1Namer, &mut before) {
        Ok(objects) => objects,
        Err(fault) => return Ok((Some(fault), before.faults())),
    };
    let bytes = Vec::from_slice(alloc, REFS)?;
    let mut failing = Vec::new(alloc);
    failing.push(call)?;
    let mut source = MemorySource::new(String::new(alloc), bytes, 5, failing);
    let fault = match read_refs(alloc, &Sha1Namer, &mut source, objects) {
        Ok(_) => None,
        Err(fault) => Some(fault),
    };
    Ok((fault, source.faults()))
}

#[test]
fn failing_reads_of_refs(rt: HostRuntime) -> Result<(), Fail> {
    let alloc = rt.alloc();
    for call in 0..22 {
        let (fault, faults) = refs_fault_at(alloc, call)?;
        assert_eq!(&rt; fault, Some(BatchFault::ReadFault), "read {call}");
        assert_eq!(&rt; faults, 1, "read {call}");
    }
    let (fault, faults) = refs_fault_at(alloc, 22)?;
    assert_eq!(&rt; fault, None);
    assert_eq!(&rt; faults, 0);
    Ok(())
}
