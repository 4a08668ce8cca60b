//! The limits of the two files.
ghost use Rattle.std.specs.Prelude.{◌+◌, ◌≤◌, ◌<◌, ◌^◌, List, IfSome, IfNone};
ghost use Rattle.swh_model.specs.declared.event.Event.{Event};
ghost use Rattle.swh_model.specs.declared.event.EventKind.{EventKind};
ghost use Rattle.swh_model.specs.Judge.{FilePasses};
ghost use Rattle.swh_model.specs.Judged.{IsFirstOf, NonePasses, AreLengths};

use swh_base::{FILE_LIMIT, Which};

/// The first of the two files that an event would make too long.
pub fn limit_of_files(
    store_end: u64,
    run: u64,
    end: u64,
    record_length: u64,
) -> Option<(Which, u64)>
    requires store_fits { store_end + run < 2 ^ 64 }
    requires ledger_fits { end + 1 + record_length < 2 ^ 64 }
    ensures some { (h : List Event) (event : EventKind) → AreLengths h event store_end run end record_length
        → IfSome result (IsFirstOf (FilePasses h event)) }
    ensures none { (h : List Event) (event : EventKind) → AreLengths h event store_end run end record_length
        → IfNone result (NonePasses (FilePasses h event)) }
    ensures store_fits { IfNone result (store_end + run ≤ 2 ^ 62) }
    ensures ledger_fits { IfNone result (end + 1 + record_length ≤ 2 ^ 62) }
{
    let store = store_end + run;
    if store > FILE_LIMIT {
        return Some((Which::Store, store));
    }
    let ledger = end + 1 + record_length;
    if ledger > FILE_LIMIT {
        return Some((Which::Ledger, ledger));
    }
    None
}
