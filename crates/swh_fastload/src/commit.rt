//! What a loader makes of a commit (git-fast-import(1), commit).
ghost use Rattle.std.specs.Prelude.{◌≡◌, ◌++◌, ◌∷◌, [], List, unwrap_or, Some, Ok, IfOk, IfErr, IfNone, IfSome};
ghost use Rattle.std.specs.List.{AllByRecursion};
ghost use Rattle.swh_base.specs.declared.kind.Kind.TheVariants.{Revision};
ghost use Rattle.swh_base.specs.declared.visit.Which.TheVariants.{Body};
ghost use Rattle.swh_base.specs.Manifest.{IsWellFormed};
ghost use Rattle.swh_revfmt.specs.Plain.{plain_revision_text};
ghost use Rattle.swh_model.specs.Meaning.{Made as MadeObject};
ghost use Rattle.swh_base.specs.Text.{IsRef};
ghost use Rattle.swh_trees.specs.Grove.{Grove, map_of, IsTree, StandsFor};
ghost use Rattle.swh_dedup.specs.Making.{made_from, made, object_of, HaveIds};
ghost use Rattle.swh_fastmeaning.specs.Changes.{AreShort, HoldsContents, IsGivableChange, IsOver, changed_of};
ghost use Rattle.swh_fastmeaning.specs.Commands.{step, first_parent, all_changed, revision_parts};
ghost use Rattle.swh_fastmeaning.specs.Aims.{Aim, aims_with};
ghost use Rattle.swh_fastmeaning.specs.Feeding.{ExplainsFeed};
ghost use Rattle.swh_fastload.specs.Committing.{
  rest_of,
  command_of,
  IsPrepared,
  MakesTree,
  ExplainsTreeMade,
  commit_made,
  GivesCommit,
  ExplainsOver,
};
ghost use Rattle.swh_dedup.specs.Giving.{AreReady};
ghost use Rattle.swh_fastmeaning.specs.Stock.{IsStocked, Leads, loading_of};
ghost use Rattle.swh_fastmeaning.specs.Parting.{ExplainsBody, stock_of};

use crate::parents::{first_parent, parent_ids};
use std::alloc::Global;
use swh_base::{Bytes, Items, Kind, Memory, Name, Namer, Which};
use swh_dedup::{Seen, give_all, whole_id};
use swh_fastgrammar::{At, Change, Commitish, Start};
use swh_fastmeaning::{
    Contents, FeedFault, MarksAndTips, Parts, Target, changed_tree, make_or_refuse,
};
use swh_object::Object;
use swh_revfmt::{PlainRev, write_plain_rev};
use swh_trees::{Made, Tree, TreeFault, Trees};

/// What the lines of a commit say for its body.
#[derive(Drop)]
pub struct CommitText {
    /// The committer is the author, where there is none.
    pub author: Option<Bytes>,
    pub committer: Bytes,
    pub encoding: Option<Bytes>,
    pub message: Bytes,
}

/// What the lines of a commit say of its place: its ref and mark, its parents and its tree.
#[derive(Drop)]
pub struct Commit {
    pub branch: Bytes,
    pub mark: Option<u64>,
    pub parent: Start,
    pub merges: Items<At<Commitish>>,
    pub changes: Items<At<Change>>,
}

/// What stands before the revision of a commit is made: the ids of its parents, its tree with the directories that are made
/// for it, and its contents.
#[derive(Drop)]
pub struct Prepared<N: Namer> {
    pub parents: Vec<[u8; 20]>,
    pub made: Made<N>,
    pub contents: Vec<Object<N>>,
}

/// The contents, or the length of the first that is above the limit.
fn within_limit<N: Namer>(contents: Contents<N>) -> Result<Vec<Object<N>>, FeedFault>
    ensures ok { (ms : List MadeObject) → HoldsContents ms contents.objects.items contents.over
        → IfOk result (λ os. made os.items ≡ ms) }
    ensures short { (ms : List MadeObject) → HoldsContents ms contents.objects.items contents.over
        → IfOk result (λ _. AreShort ms) }
    ensures err { (ms : List MadeObject) → HoldsContents ms contents.objects.items contents.over
        → IfErr result (ExplainsOver ms) }
{
    let Contents { objects, over } = contents;
    match over {
        Some(number) => Err(FeedFault::Limit {
            which: Which::Body,
            number,
        }),
        None => Ok(objects),
    }
}

/// The tree after the changes of a commit, with the directories and the contents that are made for it.
fn make_tree<N: Namer>(
    alloc: Global,
    namer: &N,
    aims: &MarksAndTips,
    trees: &mut Trees<N>,
    start: Tree,
    changes: &[At<Change>],
) -> Result<(Made<N>, Vec<Object<N>>), FeedFault>
    requires tree { IsTree trees.old start }
    requires changes { AllByRecursion (λ a. IsGivableChange a.it) changes.now }
    ensures ok { IfOk result (λ r. MakesTree N.id_of (all_changed N.id_of aims.now changes.now
        (changed_of (map_of trees.old start) [])) trees.old trees.new r.0.tree r.0.id r.0.objects.items r.1.items) }
    ensures err { IfErr result (ExplainsTreeMade N.id_of (all_changed N.id_of aims.now changes.now
        (changed_of (map_of trees.old start) []))) }
{
    let (tree, contents) = changed_tree(alloc, namer, aims, trees, start, changes)?;
    let contents = within_limit(contents)?;
    match trees.make(alloc, tree) {
        Ok(made) => Ok((made, contents)),
        Err(TreeFault::TooLong { len }) => Err(FeedFault::Limit {
            which: Which::Body,
            number: len,
        }),
        Err(TreeFault::Memory) => Err(FeedFault::Memory),
    }
}

/// The tree that a commit starts from: that of its first parent, where it has one.
fn start_of(first: Option<Target>) -> Tree
    ensures none { IfNone first ((trees : Grove) → StandsFor trees result []) }
    ensures some { IfSome first (λ t. result ≡ t.tree) }
{
    match first {
        Some(target) => target.tree,
        None => Tree::empty(),
    }
}

/// Finds the parents of a commit and makes its tree.
fn prepare<N: Namer>(
    alloc: Global,
    namer: &N,
    aims: &MarksAndTips,
    trees: &mut Trees<N>,
    commit: &Commit,
) -> Result<Prepared<N>, FeedFault>
    requires aims { (a : Aim Tree) → first_parent aims.now commit.now.branch commit.now.parent ≡ Ok (Some a)
        → IsTree trees.old a.tree }
    requires changes { AllByRecursion (λ a. IsGivableChange a.it) commit.now.changes }
    ensures ok { IfOk result (λ p. IsPrepared N.id_of trees.old aims.now commit.now trees.new p) }
    ensures err { (text : CommitText) → IfErr result (ExplainsFeed N.id_of (step N.id_of (aims_with (map_of trees.old) aims.now)
        (command_of commit.now text))) }
{
    let first = first_parent(aims, commit.branch.as_slice(), &commit.parent)?;
    let parents = parent_ids(alloc, aims, first, commit.merges.as_slice())?;
    let start = start_of(first);
    let (made, contents) = make_tree(alloc, namer, aims, trees, start, commit.changes.as_slice())?;
    Ok(Prepared {
        parents,
        made,
        contents,
    })
}

/// The author, or else the committer.
fn author_of(alloc: Global, author: Option<Bytes>, committer: &Bytes) -> Result<Bytes, Memory>
    ensures { IfOk result (λ person. person ≡ unwrap_or author committer.now) }
{
    match author {
        Some(author) => Ok(author),
        None => Bytes::from_slice(alloc, committer.as_slice()),
    }
}

/// The body of the plain revision of a directory.
fn revision_body(
    alloc: Global,
    directory: [u8; 20],
    parents: Vec<[u8; 20]>,
    text: CommitText,
) -> Result<Vec<u8>, Memory>
    ensures { IfOk result (λ body. body.items ≡ plain_revision_text (revision_parts directory parents.items (rest_of text))) }
{
    let CommitText {
        author,
        committer,
        encoding,
        message,
    } = text;
    let author = author_of(alloc, author, &committer)?;
    let plain = PlainRev {
        directory,
        parents: Items::from_vec(parents),
        author,
        committer,
        encoding,
        message,
    };
    write_plain_rev(alloc, &plain)
}

/// All of these objects in this order.
fn joined<N: Namer>(
    contents: Vec<Object<N>>,
    directories: Vec<Object<N>>,
    revision: Object<N>,
) -> Result<Vec<Object<N>>, Memory>
    ensures { IfOk result (λ all. all.items ≡ contents.items ++ (directories.items ++ revision ∷ [])) }
{
    let mut all = contents;
    let mut more = directories;
    more.push(revision)?;
    all.append(&mut more)?;
    Ok(all)
}

/// Gives the contents, the directories and the revision of this body out where they are new, and answers the revision's
/// name, too.
fn give_commit<N: Namer>(
    alloc: Global,
    namer: &N,
    seen: &mut Seen<N>,
    contents: Vec<Object<N>>,
    directories: Vec<Object<N>>,
    body: Vec<u8>,
) -> Result<(Name, Vec<Object<N>>), FeedFault>
    requires body { IsWellFormed Revision body.items }
    requires ids { HaveIds N.id_of seen.old }
    requires ready { AreReady N.id_of seen.old (commit_made contents.items directories.items body.items) }
    ensures ok { IfOk result (λ r. GivesCommit N.id_of (commit_made contents.items directories.items body.items) body.items
        seen.old seen.new r.0 r.1.items) }
    ensures err { IfErr result (ExplainsBody body.items) }
{
    let revision = make_or_refuse(alloc, namer, Kind::Revision, body)?;
    let name = revision.name();
    let all = joined(contents, directories, revision)?;
    let objects = give_all(alloc, seen, all)?;
    Ok((name, objects))
}

/// The contents, directories and revision of a commit, where they are new; its mark, where it has one, and its ref lead to
/// the revision.
pub fn feed_commit<N: Namer>(
    alloc: Global,
    parts: &mut Parts<N>,
    commit: &Commit,
    text: CommitText,
) -> Result<Vec<Object<N>>, FeedFault>
    requires stocked { IsStocked N.id_of (stock_of parts.old) }
    requires branch { IsRef commit.now.branch }
    requires changes { AllByRecursion (λ a. IsGivableChange a.it) commit.now.changes }
    ensures ok { IfOk result (λ os. Leads N.id_of (stock_of parts.old) (command_of commit.now text) (stock_of parts.new)
        os.items) }
    ensures err { IfErr result (ExplainsFeed N.id_of (step N.id_of (loading_of (stock_of parts.old)).aims
        (command_of commit.now text))) }
{
    let prepared = prepare(alloc, &parts.namer, &parts.aims, &mut parts.trees, commit)?;
    let Prepared {
        parents,
        made,
        contents,
    } = prepared;
    let Made {
        tree,
        id,
        objects: directories,
    } = made;
    let root = whole_id(&id);
    let body = revision_body(alloc, root, parents, text)?;
    let (name, objects) = give_commit(
        alloc,
        &parts.namer,
        &mut parts.seen,
        contents,
        directories,
        body,
    )?;
    let target = Target { name, tree };
    parts
        .aims
        .set_both(alloc, commit.mark, commit.branch.as_slice(), target)?;
    Ok(objects)
}
