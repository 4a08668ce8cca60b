//! The commands: contents, commits and tags up to their data, and branches.
ghost use Rattle.std.specs.Prelude.{◌≡◌, ◌++◌, OnOk, codes};
ghost use Rattle.std.specs.Option.{option_copied};
ghost use Rattle.swh_revfmt.specs.Plain.{text_line, optional_line};
ghost use Rattle.swh_fastwrite.specs.Text.{blob_head, commit_head, tag_head, begin_text, tip_text, end_text};

use crate::lines::{push_data_line, push_mark, push_marked};
use swh_base::Memory;

/// A line of a word and a text.
fn push_line(out: &mut Vec<u8>, word: &[u8], text: &[u8]) -> Result<(), Memory>
    ensures { OnOk result (out.new.items ≡ out.old.items ++ text_line word.now text.now) }
{
    out.extend_from_slice(word)?;
    out.extend_from_slice(text)?;
    out.push(b'\n')?;
    Ok(())
}

/// A line of a word and a text, where there is one.
fn push_optional(out: &mut Vec<u8>, word: &[u8], text: Option<&[u8]>) -> Result<(), Memory>
    ensures { OnOk result (out.new.items ≡ out.old.items ++ optional_line word.now (option_copied text.entry)) }
{
    match text {
        Some(text) => push_line(out, word, text),
        None => Ok(()),
    }
}

/// What stands in front of a content's bytes, which are so many.
pub fn push_blob_head(out: &mut Vec<u8>, mark: u64, count: u64) -> Result<(), Memory>
    ensures { OnOk result (out.new.items ≡ out.old.items ++ blob_head mark count) }
{
    out.extend_from_slice(b"blob\n")?;
    push_mark(out, mark)?;
    push_data_line(out, count)
}

/// The persons of a commit, and its encoding.
fn push_persons(
    out: &mut Vec<u8>,
    author: &[u8],
    committer: &[u8],
    encoding: Option<&[u8]>,
) -> Result<(), Memory>
    ensures { OnOk result (out.new.items ≡ out.old.items ++ (text_line (codes "author ") author.now
        ++ (text_line (codes "committer ") committer.now
        ++ optional_line (codes "encoding ") (option_copied encoding.entry)))) }
{
    push_line(out, b"author ", author)?;
    push_line(out, b"committer ", committer)?;
    push_optional(out, b"encoding ", encoding)
}

/// The first lines of a commit, up to its message.
pub fn push_commit_head(
    out: &mut Vec<u8>,
    mark: u64,
    author: &[u8],
    committer: &[u8],
    encoding: Option<&[u8]>,
) -> Result<(), Memory>
    ensures { OnOk result (out.new.items
        ≡ out.old.items ++ commit_head mark author.now committer.now (option_copied encoding.entry)) }
{
    push_line(out, b"commit ", b"refs/swh/cook")?;
    push_mark(out, mark)?;
    push_persons(out, author, committer, encoding)
}

/// The first lines of a release, up to its message.
pub fn push_tag_head(
    out: &mut Vec<u8>,
    tag: &[u8],
    mark: u64,
    object: u64,
    tagger: Option<&[u8]>,
) -> Result<(), Memory>
    ensures { OnOk result (out.new.items
        ≡ out.old.items ++ tag_head tag.now mark object (option_copied tagger.entry)) }
{
    push_line(out, b"tag ", tag)?;
    push_mark(out, mark)?;
    push_marked(out, b"from ", object)?;
    push_optional(out, b"tagger ", tagger)
}

/// A branch without a tip, so that the next commit on it has no parent.
pub fn push_begin(out: &mut Vec<u8>, branch: &[u8]) -> Result<(), Memory>
    ensures { OnOk result (out.new.items ≡ out.old.items ++ begin_text branch.now) }
{
    push_line(out, b"reset ", branch)?;
    out.push(b'\n')?;
    Ok(())
}

/// A branch with the commit of this mark as its tip.
pub fn push_tip(out: &mut Vec<u8>, branch: &[u8], mark: u64) -> Result<(), Memory>
    ensures { OnOk result (out.new.items ≡ out.old.items ++ tip_text branch.now mark) }
{
    push_line(out, b"reset ", branch)?;
    push_marked(out, b"from ", mark)?;
    out.push(b'\n')?;
    Ok(())
}

/// A branch whose tip is taken away, so that it is not loaded.
pub fn push_end(out: &mut Vec<u8>, branch: &[u8]) -> Result<(), Memory>
    ensures { OnOk result (out.new.items ≡ out.old.items ++ end_text branch.now) }
{
    push_line(out, b"reset ", branch)?;
    out.extend_from_slice(b"from 0000000000000000000000000000000000000000\n\n")?;
    Ok(())
}
