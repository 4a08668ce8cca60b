// A body of as many bytes as may be, and of one more. The id is that of `git hash-object`.
use crate::batch_world::read;
use std::alloc::{AllocError, Global};
use std::test::Fail;
use swh_base::{Sha1Namer, Which};
use swh_batchread::{BatchFault, read_batch};
use swh_memory_input::MemorySource;
use swh_outside::{Failed, Source};

/// A header, so many zeros and an LF.
fn zeros(alloc: Global, header: &[u8], size: usize) -> Result<Vec<u8>, AllocError> {
    let mut batch = Vec::from_elem(alloc, 0, size)?;
    let mut whole = Vec::from_slice(alloc, header)?;
    whole.append(&mut batch)?;
    whole.push(b'\n')?;
    Ok(whole)
}

#[test]
fn body_of_the_limit(rt: HostRuntime) -> Result<(), Fail> {
    let alloc = rt.alloc();
    let header = b"51c513d36451ab389b5b3e9bca9b478b84a2e2ce blob 67108864\n";
    let batch = zeros(alloc, header, 67_108_864)?;
    let objects = read(alloc, &Sha1Namer, batch.as_slice(), 65_536)??;
    assert_eq!(&rt; objects.len(), 1);
    Ok(())
}

#[test]
fn body_above_the_limit(rt: HostRuntime) -> Result<(), Fail> {
    let alloc = rt.alloc();
    let header = b"51c513d36451ab389b5b3e9bca9b478b84a2e2ce blob 67108865\n";
    let batch = zeros(alloc, header, 67_108_865)?;
    let fault = match read(alloc, &Sha1Namer, batch.as_slice(), 65_536)? {
        Ok(_) => None,
        Err(fault) => Some(fault),
    };
    let told = BatchFault::Limit {
        which: Which::Body,
        number: 67_108_865,
    };
    assert_eq!(&rt; fault, Some(told));
    Ok(())
}

/// Batches that are refused, and how many bytes are left of them then, where a read gives one byte at most.
const REFUSED: &[(&[u8], u64)] = &[
    // A line that is no header.
    (b"x\nbehind", 6),
    // A body above the limit, of which nothing is read.
    (
        b"e69de29bb2d1d6434b8b29ae775ad8c2e48c5391 blob 67108865\nbehind",
        6,
    ),
    // Another byte where the LF behind the body stands.
    (
        b"c1b0730e0133447badcfd47fd144e254807b06e1 blob 1\nxybehind",
        6,
    ),
    // A body that is none of its kind, and one of another name.
    (
        b"4b825dc642cb6eb9a060e54bf8d69288fbee4904 tree 1\nx\nbehind",
        6,
    ),
    (
        b"e69de29bb2d1d6434b8b29ae775ad8c2e48c5392 blob 0\n\nbehind",
        6,
    ),
];

/// How many bytes a source still gives, one by one, 100 at most.
fn count_left(source: &mut MemorySource) -> Result<u64, Failed> {
    for count in 0..100u64 {
        let mut byte = [0u8];
        if source.get(byte.as_mut_slice())? == 0 {
            return Ok(count);
        }
    }
    Ok(100)
}

/// How many bytes are left of a batch that is refused; none is told where it is not.
fn left_behind(alloc: Global, batch: &[u8]) -> Result<Option<u64>, AllocError> {
    let bytes = Vec::from_slice(alloc, batch)?;
    let mut source = MemorySource::new(String::new(alloc), bytes, 1, Vec::new(alloc));
    let refused = read_batch(alloc, &Sha1Namer, &mut source).is_err();
    let left = count_left(&mut source);
    Ok(if refused { left.ok() } else { None })
}

#[test]
fn nothing_read_behind(rt: HostRuntime) -> Result<(), Fail> {
    for (number, (batch, left)) in REFUSED.iter().enumerate() {
        let found = left_behind(rt.alloc(), batch)?;
        assert_eq!(&rt; found, Some(*left), "row {number}");
    }
    Ok(())
}
