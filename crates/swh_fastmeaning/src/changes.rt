//! The changes of a commit, made to its tree (git-fast-import(1), filemodify, filedelete, filecopy, filerename).
ghost use Rattle.std.specs.Prelude.{◌≡◌, [], List, Some, None, IfOk, IfErr};
ghost use Rattle.std.specs.List.{AllByRecursion};
ghost use Rattle.swh_model.specs.Meaning.{Made};
ghost use Rattle.swh_trees.specs.Grove.{map_of, IsTree, Keeps};
ghost use Rattle.swh_fastmeaning.specs.Changes.{HoldsContents, IsChangedTo, IsGivableChange, ExplainsChange, IsSetTo, changed_of};
ghost use Rattle.swh_fastmeaning.specs.Commands.{set_to, changed, all_changed};
ghost use Rattle.swh_fastmeaning.specs.declared.feed_fault.FeedFault.TheVariants.{BadStream};
ghost use Rattle.swh_fastgrammar.specs.declared.fault.StreamWhy.TheVariants.{Place as NoPlace};

use crate::aims::MarksAndTips;
use crate::contents::{Contents, add_content};
use crate::feed_fault::FeedFault;
use std::alloc::Global;
use swh_base::Namer;
use swh_fastgrammar::{At, Change, Dataref, StreamWhy};
use swh_trees::{Leaf, Tree, Trees};

/// The id of what a file is set to, in the line at this place. Inline bytes become a content.
fn id_at<N: Namer>(
    alloc: Global,
    namer: &N,
    aims: &MarksAndTips,
    contents: &mut Contents<N>,
    at: u64,
    what: &Dataref,
) -> Result<[u8; 20], FeedFault>
    ensures ok { (ms : List Made) → HoldsContents ms contents.old.objects.items contents.old.over
        → IfOk result (λ id. IsSetTo (set_to N.id_of aims.now at what.now) id ms contents.new.objects.items contents.new.over) }
    ensures err { IfErr result (ExplainsChange (set_to N.id_of aims.now at what.now)) }
{
    match what {
        Dataref::Mark(mark) => {
            let blob = aims.blob_at(at, *mark)?;
            Ok(blob.name.id)
        }
        Dataref::Inline(bytes) => Ok(add_content(alloc, namer, bytes.as_slice(), contents)?),
        Dataref::Hex(id) => Ok(*id),
    }
}

/// The tree, or that the source in the line at this place is not there.
fn or_no_place(tree: Option<Tree>, at: u64) -> Result<Tree, FeedFault>
    ensures ok { IfOk result (λ t. tree ≡ Some t) }
    ensures err { IfErr result (λ fault. (tree ≡ None) × (fault ≡ BadStream at NoPlace)) }
{
    match tree {
        Some(tree) => Ok(tree),
        None => Err(FeedFault::BadStream {
            at,
            why: StreamWhy::Place,
        }),
    }
}

/// The tree after a change.
#[tactic(none)]
fn changed<N: Namer>(
    alloc: Global,
    namer: &N,
    aims: &MarksAndTips,
    trees: &mut Trees<N>,
    contents: &mut Contents<N>,
    tree: Tree,
    change: &At<Change>,
) -> Result<Tree, FeedFault>
    requires tree { IsTree trees.old tree }
    requires change { IsGivableChange change.now.it }
    ensures keeps { Keeps trees.old trees.new }
    ensures ok { (ms : List Made) → HoldsContents ms contents.old.objects.items contents.old.over
        → IfOk result (λ t. IsChangedTo (changed N.id_of aims.now change.now.at change.now.it
        (changed_of (map_of trees.old tree) ms)) trees.new t contents.new.objects.items contents.new.over) }
    ensures err { (ms : List Made) → IfErr result (ExplainsChange (changed N.id_of aims.now change.now.at change.now.it
        (changed_of (map_of trees.old tree) ms))) }
{
    match &change.it {
        Change::Set { mode, what, path } => {
            let id = id_at(alloc, namer, aims, contents, change.at, what)?;
            let leaf = Leaf { mode: *mode, id };
            Ok(trees.set(alloc, tree, path.as_slice(), leaf)?)
        }
        Change::Delete { path } => Ok(trees.delete(alloc, tree, path.as_slice())?),
        Change::Copy { source, path } => {
            let found = trees.copy(alloc, tree, source.as_slice(), path.as_slice())?;
            or_no_place(found, change.at)
        }
        Change::Move { source, path } => {
            let found = trees.rename(alloc, tree, source.as_slice(), path.as_slice())?;
            or_no_place(found, change.at)
        }
        Change::Clear => Ok(Tree::empty()),
    }
}

/// The tree after all changes of a commit, and the contents that they bring with them. `BadStream` tells the place of the
/// first line that names a mark or a source that is not there.
pub fn changed_tree<N: Namer>(
    alloc: Global,
    namer: &N,
    aims: &MarksAndTips,
    trees: &mut Trees<N>,
    tree: Tree,
    changes: &[At<Change>],
) -> Result<(Tree, Contents<N>), FeedFault>
    requires tree { IsTree trees.old tree }
    requires changes { AllByRecursion (λ a. IsGivableChange a.it) changes.now }
    ensures keeps { Keeps trees.old trees.new }
    ensures ok { IfOk result (λ r. IsChangedTo (all_changed N.id_of aims.now changes.now
        (changed_of (map_of trees.old tree) [])) trees.new r.0 r.1.objects.items r.1.over) }
    ensures err { IfErr result (ExplainsChange (all_changed N.id_of aims.now changes.now
        (changed_of (map_of trees.old tree) []))) }
{
    let mut contents = Contents::new(alloc);
    let mut here = tree;
    for change in changes {
        here = changed(alloc, namer, aims, trees, &mut contents, here, change)?;
    }
    Ok((here, contents))
}
