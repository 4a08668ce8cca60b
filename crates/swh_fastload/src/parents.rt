//! The parents of a commit (git-fast-import(1), from and merge).
ghost use Rattle.std.specs.Prelude.{◌≡◌, [], Ok, IfOk, IfErr};
ghost use Rattle.std.specs.Option.{option_map};
ghost use Rattle.swh_fastmeaning.specs.Changes.{ExplainsChange};
ghost use Rattle.swh_fastmeaning.specs.Commands.{first_parent, commits_at, parents_of};
ghost use Rattle.swh_fastload.specs.Committing.{HasParents};
ghost use Rattle.swh_fastmeaning.specs.Missings.{ExplainsMissing};
ghost use Rattle.swh_fastmeaning.specs.Tips.{aim_of};

use std::alloc::Global;
use swh_base::Memory;
use swh_fastgrammar::{At, Commitish, Start};
use swh_fastmeaning::{FeedFault, MarksAndTips, Target, commit_of};

/// The first parent of a commit, where it has one: what its line `from` names, or else the commit that is the tip of its
/// ref.
pub fn first_parent(
    aims: &MarksAndTips,
    branch: &[u8],
    parent: &Start,
) -> Result<Option<Target>, FeedFault>
    ensures ok { IfOk result (λ t. first_parent aims.now branch.now parent.now ≡ Ok (option_map aim_of t)) }
    ensures err { IfErr result (ExplainsMissing (first_parent aims.now branch.now parent.now)) }
{
    match parent {
        Start::Absent => Ok(commit_of(aims.tip(branch))),
        Start::NoTip => Ok(None),
        Start::Of(from) => {
            let target = aims.commit_at(from.at, &from.it)?;
            Ok(Some(target))
        }
    }
}

/// The id of the first parent, where there is one.
fn first_id(alloc: Global, first: Option<Target>) -> Result<Vec<[u8; 20]>, Memory>
    ensures { IfOk result (λ ids. ids.items ≡ parents_of (option_map aim_of first) []) }
{
    match first {
        Some(target) => Ok(vec![in alloc; target.name.id]?),
        None => Ok(Vec::new(alloc)),
    }
}

/// The ids of the parents: the first, where there is one, and those that the lines `merge` name, repeats kept.
pub fn parent_ids(
    alloc: Global,
    aims: &MarksAndTips,
    first: Option<Target>,
    merges: &[At<Commitish>],
) -> Result<Vec<[u8; 20]>, FeedFault>
    ensures ok { IfOk result (λ ids. HasParents aims.now (option_map aim_of first) merges.now ids.items) }
    ensures err { IfErr result (ExplainsChange (commits_at aims.now merges.now)) }
{
    let mut ids = first_id(alloc, first)?;
    for merge in merges {
        let target = aims.commit_at(merge.at, &merge.it)?;
        ids.push(target.name.id)?;
    }
    Ok(ids)
}
