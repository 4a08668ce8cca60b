//! Plain revisions and releases, taken apart.

ghost use Rattle.std.specs.Prelude.{◌≡◌, ◌↔◌, IsTrue, IfOk, IfSome, IfNone, Option, List, ℕ};
ghost use Rattle.std.specs.Option.{option_copied};
ghost use Rattle.swh_base.specs.declared.kind.Kind.TheVariants.{Directory};
ghost use Rattle.swh_revfmt.specs.Plain.{PlainRevision, IsPlainRevision, PlainRelease, IsPlainRelease, IsTagName};
ghost use Rattle.swh_revfmt.specs.PlainReading.{plain_revision, plain_release};

use crate::fault::ReadRevFault;
use crate::release::spelled_rel;
use crate::rest::{release_rest, revision_rest};
use crate::revision::{SpelledRev, spelled_rev};
use std::alloc::Global;
use swh_base::{Bytes, Items, Kind, Memory, Name, TAG_LIMIT, is_ref};

/// The parts of a plain revision: one whose rest is an author, a committer, perhaps an encoding, and a message.
#[derive(Drop)]
pub struct PlainRev {
    pub directory: [u8; 20],
    pub parents: Items<[u8; 20]>,
    /// A person and a date, `name <email> seconds +zone`, byte for byte; the committer likewise.
    pub author: Bytes,
    pub committer: Bytes,
    /// The text of the line `encoding`, where there is one.
    pub encoding: Option<Bytes>,
    /// Every byte after the empty line.
    pub message: Bytes,
}

/// The parts of a plain release: one whose rest is perhaps a tagger, and a message.
#[derive(Drop)]
pub struct PlainRel {
    /// Neither a directory nor a snapshot.
    pub object: Name,
    /// 1 to 1,014 bytes of a ref.
    pub tag: Bytes,
    /// A person and a date, byte for byte.
    pub tagger: Option<Bytes>,
    /// Every byte after the empty line.
    pub message: Bytes,
}

fn optional_bytes(alloc: Global, text: Option<&[u8]>) -> Result<Option<Bytes>, Memory>
    ensures { IfOk result (λ bytes. bytes ≡ option_copied text.entry) }
{
    match text {
        Some(text) => Ok(Some(Bytes::from_slice(alloc, text)?)),
        None => Ok(None),
    }
}

/// The parts of the body where it is a plain revision (git objects, commit), and none where it is not. Fails where
/// memory runs out.
pub fn plain_rev(alloc: Global, body: &[u8]) -> Result<Option<PlainRev>, Memory>
    ensures some { IfOk result (λ found. IfSome found (λ plain. IsPlainRevision body.now (plain_revision plain))) }
    ensures none { IfOk result (λ found. IfNone found ((plain : PlainRevision) → IsPlainRevision body.now plain → ⊥)) }
{
    let rev = match spelled_rev(alloc, body) {
        Ok(rev) => rev,
        Err(ReadRevFault::Memory) => return Err(Memory),
        Err(ReadRevFault::Bad(_)) => return Ok(None),
    };
    let SpelledRev {
        directory,
        parents,
        rest,
    } = rev;
    let Some(rest) = revision_rest(rest) else {
        return Ok(None);
    };
    Ok(Some(PlainRev {
        directory,
        parents,
        author: Bytes::from_slice(alloc, rest.author)?,
        committer: Bytes::from_slice(alloc, rest.committer)?,
        encoding: optional_bytes(alloc, rest.encoding)?,
        message: Bytes::from_slice(alloc, rest.message)?,
    }))
}

/// Whether a text is a ref of 1 to 1,014 bytes.
fn is_tag_name(tag: &[u8]) -> bool
    ensures { IsTrue result ↔ IsTagName tag.now }
{
    tag.len() <= TAG_LIMIT && is_ref(tag)
}

fn is_directory(kind: Kind) -> bool
    ensures { IsTrue result ↔ (kind ≡ Directory) }
{
    match kind {
        Kind::Directory => true,
        Kind::Content | Kind::Revision | Kind::Release | Kind::Snapshot => false,
    }
}

/// The parts of the body where it is a plain release (git objects, tag), and none where it is not. Fails where memory
/// runs out.
pub fn plain_rel(alloc: Global, body: &[u8]) -> Result<Option<PlainRel>, Memory>
    ensures some { IfOk result (λ found. IfSome found (λ plain. IsPlainRelease body.now (plain_release plain))) }
    ensures none { IfOk result (λ found. IfNone found ((plain : PlainRelease) → IsPlainRelease body.now plain → ⊥)) }
{
    let Ok(rel) = spelled_rel(body) else {
        return Ok(None);
    };
    if is_directory(rel.object.kind) {
        return Ok(None);
    }
    if !is_tag_name(rel.tag) {
        return Ok(None);
    }
    let Some(rest) = release_rest(rel.rest) else {
        return Ok(None);
    };
    Ok(Some(PlainRel {
        object: rel.object,
        tag: Bytes::from_slice(alloc, rel.tag)?,
        tagger: optional_bytes(alloc, rest.tagger)?,
        message: Bytes::from_slice(alloc, rest.message)?,
    }))
}
