//! The frame of a record: its kind, its payload's length and its payload.
ghost use Rattle.std.specs.Prelude.{◌≡◌, ◌++◌, ◌∷◌, [], ◌<◌, ◌^◌, IfOk, length};
ghost use Rattle.swh_format.specs.Record.{framed};

use std::alloc::Global;
use swh_base::Memory;

/// A record after its gate, and what is after it.
#[derive(Clone, Copy)]
pub struct RecordParts<'a> {
    pub kind: u8,
    pub payload: &'a [u8],
    pub rest: &'a [u8],
}

/// A record of this kind and payload, with the next gate, which is closed. `Memory` where there is none.
#[tactic(auto, unfolding(crate::specs::Record::framed))]
pub fn framed_record(alloc: Global, kind: u8, payload: &[u8]) -> Result<Vec<u8>, Memory>
    requires { length payload.now < 2 ^ 32 }
    ensures { IfOk result (λ bytes. bytes.items ≡ framed kind payload.now ++ 0 ∷ []) }
{
    let mut bytes = Vec::new(alloc);
    bytes.push(kind)?;
    bytes.extend_from_slice(&(payload.len() as u32).to_be_bytes())?;
    bytes.extend_from_slice(payload)?;
    bytes.push(0)?;
    Ok(bytes)
}
