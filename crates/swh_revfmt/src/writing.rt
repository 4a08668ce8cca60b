//! Plain revisions and releases, written.

ghost use Rattle.std.specs.Prelude.{◌≡◌, ◌≢◌, ◌++◌, ◌∷◌, ℕ, List, IfOk, OnOk, codes};
ghost use Rattle.swh_base.specs.declared.kind.Kind.TheVariants.{Snapshot};
ghost use Rattle.swh_revfmt.specs.Plain.{text_line, optional_line, IsPlainRevision, IsPlainRelease};
ghost use Rattle.swh_revfmt.specs.Plain.{plain_revision_text, plain_release_text};
ghost use Rattle.swh_revfmt.specs.PlainReading.{plain_revision, plain_release};

use crate::plain::{PlainRel, PlainRev};
use crate::release::put_release_head;
use crate::revision::revision_head;
use std::alloc::Global;
use swh_base::{Bytes, Memory};

/// A word, a text, and an LF.
fn put_line(out: &mut Vec<u8>, word: &[u8], text: &[u8]) -> Result<(), Memory>
    ensures { OnOk result (out.new.items ≡ out.old.items ++ text_line word.now text.now) }
{
    out.extend_from_slice(word)?;
    out.extend_from_slice(text)?;
    out.push(b'\n')?;
    Ok(())
}

/// A word, a text, and an LF, where there is a text.
fn put_optional_line(out: &mut Vec<u8>, word: &[u8], text: &Option<Bytes>) -> Result<(), Memory>
    ensures { OnOk result (out.new.items ≡ out.old.items ++ optional_line word.now text.now) }
{
    match text {
        Some(text) => put_line(out, word, text.as_slice()),
        None => Ok(()),
    }
}

/// The lines of an author and a committer.
fn put_persons(out: &mut Vec<u8>, author: &[u8], committer: &[u8]) -> Result<(), Memory>
    ensures { OnOk result (out.new.items ≡ out.old.items
        ++ (text_line (codes "author ") author.now ++ text_line (codes "committer ") committer.now)) }
{
    put_line(out, b"author ", author)?;
    put_line(out, b"committer ", committer)
}

/// An empty line, and a message.
fn put_message(out: &mut Vec<u8>, message: &[u8]) -> Result<(), Memory>
    ensures { OnOk result (out.new.items ≡ out.old.items ++ 10 ∷ message.now) }
{
    out.push(b'\n')?;
    out.extend_from_slice(message)?;
    Ok(())
}

/// The body of a plain revision (git objects, commit). Fails where memory runs out.
pub fn write_plain_rev(alloc: Global, plain: &PlainRev) -> Result<Vec<u8>, Memory>
    ensures text { IfOk result (λ out. out.items ≡ plain_revision_text (plain_revision plain.now)) }
    // What was taken apart is written again, byte for byte.
    ensures same { (body : List ℕ) → IsPlainRevision body (plain_revision plain.now) → IfOk result (λ out. out.items ≡ body) }
{
    let mut out = revision_head(alloc, &plain.directory, plain.parents.as_slice())?;
    put_persons(
        &mut out,
        plain.author.as_slice(),
        plain.committer.as_slice(),
    )?;
    put_optional_line(&mut out, b"encoding ", &plain.encoding)?;
    put_message(&mut out, plain.message.as_slice())?;
    Ok(out)
}

/// The body of a plain release (git objects, tag). Fails where memory runs out.
pub fn write_plain_rel(alloc: Global, plain: &PlainRel) -> Result<Vec<u8>, Memory>
    requires { plain.now.object.kind ≢ Snapshot }
    ensures text { IfOk result (λ out. out.items ≡ plain_release_text (plain_release plain.now)) }
    // What was taken apart is written again, byte for byte.
    ensures same { (body : List ℕ) → IsPlainRelease body (plain_release plain.now) → IfOk result (λ out. out.items ≡ body) }
{
    let mut out = Vec::new(alloc);
    put_release_head(&mut out, &plain.object, plain.tag.as_slice())?;
    put_optional_line(&mut out, b"tagger ", &plain.tagger)?;
    put_message(&mut out, plain.message.as_slice())?;
    Ok(out)
}
