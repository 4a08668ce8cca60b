//! The snapshot at the end of a stream (SWHID v1.2, core identifiers, snapshots).
ghost use Rattle.std.specs.Prelude.{◌≡◌, ◌≤◌, ◌+◌, Contains, length, map, IfOk, IfErr};
ghost use Rattle.std.specs.List.{AllByRecursion};
ghost use Rattle.std.specs.Option.{option_copied};
ghost use Rattle.swh_base.specs.Snapshot.{IsBranch, AreBranches};
ghost use Rattle.swh_object.specs.Object.{IsObject};
ghost use Rattle.swh_model.specs.Meaning.{with_head};
ghost use Rattle.swh_dedup.specs.Making.{made_from, names_of_made};
ghost use Rattle.swh_fastmeaning.specs.Ending.{IsHead, EndsParts, ExplainsEnd, refs_limit};
ghost use Rattle.swh_fastmeaning.specs.Parting.{stock_of};
ghost use Rattle.swh_fastmeaning.specs.Stock.{loading_of, IsStocked};
ghost use Rattle.swh_fastmeaning.specs.Snapshots.{tip_branch, refs_of, snapshot_of};

use std::alloc::Global;
use swh_base::{Kind, Namer, Which};
use swh_fastmeaning::{
    FeedFault, MarksAndTips, Parts, REFS_LIMIT, Sides, head_branch_of, joined, make_or_refuse,
};
use swh_object::Object;
use swh_snpfmt::{Branches, write_snp};

/// The branches beside that of the name `HEAD`.
fn count(sides: &Sides) -> u64
    ensures { result ≡ length sides.now.before.items + length sides.now.after.items }
{
    sides.before.len() as u64 + sides.after.len() as u64
}

/// The snapshot of a head, where one is named, and of the tips.
pub fn make_snapshot<N: Namer>(
    alloc: Global,
    namer: &N,
    aims: &MarksAndTips,
    head: Option<&[u8]>,
) -> Result<Object<N>, FeedFault>
    requires head { IsHead (option_copied head) }
    requires branches { AllByRecursion IsBranch (map tip_branch aims.now.tips) }
    ensures few { IfOk result (λ _. length (refs_of aims.now) ≤ refs_limit) }
    ensures snapshot { IfOk result (λ o. made_from o ≡ snapshot_of (option_copied head.entry) aims.now) }
    ensures object { IfOk result (IsObject N.id_of) }
    ensures branches { IfOk result (λ _. AreBranches (with_head (option_copied head.entry) (map tip_branch aims.now.tips))) }
    ensures err { IfErr result (ExplainsEnd (option_copied head.entry) aims.now) }
{
    let sides = aims.sides(alloc)?;
    let number = count(&sides);
    if number > REFS_LIMIT {
        return Err(FeedFault::Limit {
            which: Which::Refs,
            number,
        });
    }
    let head = head_branch_of(alloc, head)?;
    let branches = joined(sides, head)?;
    let body = write_snp(alloc, &Branches::of(branches))?;
    make_or_refuse(alloc, namer, Kind::Snapshot, body)
}

/// The snapshot of a head, where one is named, and of what the tips lead to.
pub fn end_parts<N: Namer>(
    alloc: Global,
    parts: &Parts<N>,
    head: Option<&[u8]>,
) -> Result<Object<N>, FeedFault>
    requires stocked { IsStocked N.id_of (stock_of parts.now) }
    requires head { IsHead (option_copied head) }
    ensures ok { IfOk result (EndsParts (option_copied head.entry) (loading_of (stock_of parts.now))) }
    ensures kids { IfOk result (λ o. AllByRecursion (Contains (names_of_made N.id_of (stock_of parts.now).given)) o.kids) }
    ensures err { IfErr result (ExplainsEnd (option_copied head.entry) (loading_of (stock_of parts.now)).aims) }
{
    make_snapshot(alloc, &parts.namer, &parts.aims, head)
}
