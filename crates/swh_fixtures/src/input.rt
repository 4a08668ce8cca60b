// Inputs in memory.
use std::alloc::{AllocError, Global};
use swh_memory::MemorySource;
use swh_outside::Opened;

/// An input that is found. It gives these bytes in pieces of 64, and its calls of these numbers fail.
pub fn found(
    alloc: Global,
    text: &[u8],
    failing: &[u64],
) -> Result<Opened<MemorySource>, AllocError> {
    let path = String::from_str(alloc, "input")?;
    let source = MemorySource::new(path, text.to_vec(alloc)?, 64, failing.to_vec(alloc)?);
    Ok(Opened::Found(source))
}
