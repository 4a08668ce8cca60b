//! The writing of an event: what it adds to the store is on the disk before its record, and its record before its gate.
ghost use Rattle.std.specs.Prelude.{◌+◌, ◌≤◌, ◌<◌, ◌^◌, Some, length};
ghost use Rattle.swh_outside.specs.Disk.{Runs};
ghost use Rattle.swh_outside.specs.Faults.{HasCause};
ghost use Rattle.swh_segment.specs.Calls.{append_calls, run_calls};

use crate::writing::write_synced;
use swh_outside::{Disk, Failed};

/// What an event adds to the store.
#[derive(Clone, Copy)]
pub enum Run<'a> {
    /// Nothing, and the store is left alone.
    None,
    /// The run of a batch. It may be empty: then there is only a barrier.
    Batch(&'a [u8]),
}

/// The run of a batch, on the disk at `Ok`.
pub fn append_run<D: Disk>(store: &mut D, at: u64, bytes: &[u8]) -> Result<(), Failed>
    requires { D.tells → at ≤ length (D.file store.old).seen }
    ensures runs { D.tells → Runs (run_calls at (Some bytes.now)) (D.file store.old) (D.file store.new) result }
    ensures cause { HasCause (D.faults store.old) (D.faults store.new) result }
{
    if bytes.is_empty() {
        return store.sync();
    }
    write_synced(store, at, bytes)
}

/// The record of an event, after the closed gate at the ledger's end, and then its gate.
pub fn append_record<D: Disk>(ledger: &mut D, end: u64, entry: &[u8]) -> Result<(), Failed>
    requires limit { end + 1 < 2 ^ 64 }
    requires place { D.tells → end + 1 ≤ length (D.file ledger.old).seen }
    ensures runs { D.tells → Runs (append_calls end entry.now) (D.file ledger.old) (D.file ledger.new) result }
    ensures cause { HasCause (D.faults ledger.old) (D.faults ledger.new) result }
{
    write_synced(ledger, end + 1, entry)?;
    write_synced(ledger, end, &[1])
}
