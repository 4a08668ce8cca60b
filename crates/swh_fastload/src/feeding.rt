//! What a loader makes of a blob, a reset and a tag (git-fast-import(1), blob, reset, tag).
ghost use Rattle.std.specs.Prelude.{◌≡◌, ◌≢◌, ◌++◌, [], IfOk, IfErr, OnOk, codes};
ghost use Rattle.swh_base.specs.Text.{IsRef};
ghost use Rattle.swh_base.specs.declared.kind.Kind.TheVariants.{Snapshot};
ghost use Rattle.swh_revfmt.specs.Plain.{IsTagName, plain_release_text};
ghost use Rattle.swh_fastgrammar.specs.declared.command.Command.TheVariants.{
  Blob as BlobCommand,
  Reset as ResetCommand,
  Tag as TagCommand,
};
ghost use Rattle.swh_fastmeaning.specs.Commands.{step, release_parts};
ghost use Rattle.swh_fastmeaning.specs.Feeding.{ExplainsFeed};
ghost use Rattle.swh_fastmeaning.specs.Stock.{loading_of, IsStocked, Leads};
ghost use Rattle.swh_fastmeaning.specs.Parting.{stock_of};

use std::alloc::Global;
use swh_base::{Bytes, Kind, Memory, Name, Namer};
use swh_fastgrammar::{At, Commitish, Start};
use swh_fastmeaning::{FeedFault, Parts, give_own};
use swh_object::Object;
use swh_revfmt::{PlainRel, write_plain_rel};

/// The content of a blob, where it is new; its mark, where it has one, leads to it. The body is not copied.
pub fn feed_blob<N: Namer>(
    alloc: Global,
    parts: &mut Parts<N>,
    mark: Option<u64>,
    body: Vec<u8>,
) -> Result<Vec<Object<N>>, FeedFault>
    requires { IsStocked N.id_of (stock_of parts.old) }
    ensures ok { IfOk result (λ os. Leads N.id_of (stock_of parts.old) (BlobCommand mark body.items) (stock_of parts.new)
        os.items) }
    ensures err { IfErr result (ExplainsFeed N.id_of (step N.id_of (loading_of (stock_of parts.old)).aims
        (BlobCommand mark body.items))) }
{
    let (target, objects) = give_own(alloc, &parts.namer, &mut parts.seen, Kind::Content, body)?;
    parts.aims.set_mark(mark, target)?;
    Ok(objects)
}

/// A ref's tip becomes the commit that its line `from` names, where it has one, and else it has none.
pub fn feed_reset<N: Namer>(
    alloc: Global,
    parts: &mut Parts<N>,
    branch: &[u8],
    parent: &Start,
) -> Result<(), FeedFault>
    requires stocked { IsStocked N.id_of (stock_of parts.old) }
    requires branch { IsRef branch.now }
    ensures ok { OnOk result (Leads N.id_of (stock_of parts.old) (ResetCommand branch.now parent.now)
        (stock_of parts.new) []) }
    ensures err { IfErr result (ExplainsFeed N.id_of (step N.id_of (loading_of (stock_of parts.old)).aims
        (ResetCommand branch.now parent.now))) }
{
    match parent {
        Start::Absent | Start::NoTip => {
            parts.aims.drop_tip(branch);
            Ok(())
        }
        Start::Of(from) => {
            let target = parts.aims.commit_at(from.at, &from.it)?;
            Ok(parts.aims.set_tip(alloc, branch, target)?)
        }
    }
}

/// The ref of a tag.
fn tag_ref(alloc: Global, tag: &[u8]) -> Result<Vec<u8>, Memory>
    ensures { IfOk result (λ branch. branch.items ≡ codes "refs/tags/" ++ tag.now) }
{
    let mut branch = Vec::from_slice(alloc, b"refs/tags/")?;
    branch.extend_from_slice(tag)?;
    Ok(branch)
}

/// The body of the plain release of an object.
fn release_body(
    alloc: Global,
    object: Name,
    tag: &[u8],
    tagger: Option<Bytes>,
    message: Bytes,
) -> Result<Vec<u8>, Memory>
    requires { object.kind ≢ Snapshot }
    ensures { IfOk result (λ body. body.items ≡ plain_release_text (release_parts object tag.now tagger message)) }
{
    let tag = Bytes::from_slice(alloc, tag)?;
    let plain = PlainRel {
        object,
        tag,
        tagger,
        message,
    };
    write_plain_rel(alloc, &plain)
}

/// The release of the object that a tag's line `from` names, where it is new; its mark, where it has one, and its ref lead
/// to it.
pub fn feed_tag<N: Namer>(
    alloc: Global,
    parts: &mut Parts<N>,
    tag: &[u8],
    mark: Option<u64>,
    target: &At<Commitish>,
    tagger: Option<Bytes>,
    message: Bytes,
) -> Result<Vec<Object<N>>, FeedFault>
    requires stocked { IsStocked N.id_of (stock_of parts.old) }
    requires name { IsTagName tag.now }
    ensures ok { IfOk result (λ os. Leads N.id_of (stock_of parts.old)
        (TagCommand tag.now mark target.now tagger message) (stock_of parts.new) os.items) }
    ensures err { IfErr result (ExplainsFeed N.id_of (step N.id_of (loading_of (stock_of parts.old)).aims
        (TagCommand tag.now mark target.now tagger message))) }
{
    let found = parts.aims.object_at(target.at, &target.it)?;
    let body = release_body(alloc, found.name, tag, tagger, message)?;
    let (own, objects) = give_own(alloc, &parts.namer, &mut parts.seen, Kind::Release, body)?;
    let branch = tag_ref(alloc, tag)?;
    parts.aims.set_both(alloc, mark, branch.as_slice(), own)?;
    Ok(objects)
}
