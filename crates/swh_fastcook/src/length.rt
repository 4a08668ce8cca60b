//! How long a stream is: found by sums over its objects, and of trees by sums over their directories, each once.
ghost use Rattle.std.specs.Prelude.{◌≡◌, ◌↔◌, ◌+◌, ◌++◌, ℕ, true, Some, List, IsTrue, IfOk, OnOk, Contains, length, codes};
ghost use Rattle.swh_base.specs.Revision.{revision_name};
ghost use Rattle.swh_base.specs.declared.kind.Kind.TheVariants.{Content as ContentKind, Revision as RevisionKind, Release as ReleaseKind};
ghost use Rattle.swh_base.specs.declared.name.Name.{Name as Named};
ghost use Rattle.swh_pathwalk.specs.Tree.{Row};
ghost use Rattle.swh_postorder.specs.Cycle.{IsSomePostorder, ArePreceded};
ghost use Rattle.swh_postorder.specs.Postorder.{IsPostorder};
ghost use Rattle.swh_marks.specs.Marks.{mark_of, is_written};
ghost use Rattle.swh_revfmt.specs.PlainReading.{plain_revision, plain_release};
ghost use Rattle.swh_fastwrite.specs.Text.{blob_head, blob_text, commit_head, data_line, tag_head};
ghost use Rattle.swh_fastcarried.specs.Rules.{IsOddObject};
ghost use Rattle.swh_pathsums.specs.Lengths.{IsUpTo};
ghost use Rattle.swh_pathsums.specs.Sums.{AreLengths, length_at};
ghost use Rattle.swh_fastcook.specs.Ends.{IsEnd};
ghost use Rattle.swh_fastcook.specs.Length.{IsLongStream, HasText};
ghost use Rattle.swh_fastcook.specs.Lengths.{HasLengthOf};
ghost use Rattle.swh_fastcook.specs.Stream.{beginning, parents_text, IsBlob, IsCommit, IsTag, IsObjectText, AreObjectTexts, IsStreamText, commit_text, files_text, tag_text};
ghost use Rattle.swh_fastcook.specs.Weighed.{file_weight};

use crate::commits::{push_commit_lines, push_parent_lines, push_tag_lines};
use crate::ends::write_end;
use crate::objects::body_at;
use crate::weighed::FileLines;
use std::alloc::Global;
use swh_base::{Kind, Memory, Name};
use swh_carried::CookFault;
use swh_fastwrite::{Counter, Taker, flush, push_blob_head};
use swh_marks::Marks;
use swh_model::Look;
use swh_pathsums::{PathSums, path_sums, plus};
use swh_revfmt::{PlainRel, PlainRev, plain_rel, plain_rev};

/// The bytes that a stream may have.
const STREAM_LIMIT: u64 = 1 << 32;

/// So many bytes, those of a text, and more, as far as a number goes.
fn with_bytes(front: usize, bytes: usize, more: u64) -> u64
    ensures { IsUpTo (front + bytes + more) result }
{
    plus(plus(front as u64, bytes as u64), more)
}

/// How many bytes stand in front of a content's, written where lines are written and forgotten.
fn blob_front(line: &mut Vec<u8>, mark: u64, count: u64) -> Result<usize, Memory>
    ensures { IfOk result (λ n. n ≡ length (blob_head mark count)) }
{
    line.clear();
    push_blob_head(line, mark, count)?;
    Ok(line.len())
}

/// How many bytes stand for a content.
fn blob_length(line: &mut Vec<u8>, mark: u64, body: &[u8]) -> Result<u64, Memory>
    ensures { IfOk result (IsUpTo (length (blob_text mark body.now))) }
{
    let front = blob_front(line, mark, body.len() as u64)?;
    Ok(with_bytes(front, body.len(), 1))
}

/// How many bytes of a tag stand in front of its message.
fn tag_front(
    line: &mut Vec<u8>,
    marks: &Marks,
    name: Name,
    plain: &PlainRel,
) -> Result<usize, Memory>
    requires there { Contains marks.now name }
    requires kind { name.kind ≡ ReleaseKind }
    requires object { Contains marks.now plain.now.object }
    requires written { is_written plain.now.object ≡ true }
    ensures { IfOk result (λ n. n ≡ length (tag_head plain.now.tag (mark_of marks.now name)
        (mark_of marks.now plain.now.object) plain.now.tagger ++ data_line (length plain.now.message))) }
{
    line.clear();
    push_tag_lines(line, marks, name, plain)?;
    Ok(line.len())
}

/// How many bytes stand for a tag.
fn tag_length(
    line: &mut Vec<u8>,
    marks: &Marks,
    name: Name,
    plain: &PlainRel,
) -> Result<u64, Memory>
    requires there { Contains marks.now name }
    requires kind { name.kind ≡ ReleaseKind }
    requires object { Contains marks.now plain.now.object }
    requires written { is_written plain.now.object ≡ true }
    ensures { IfOk result (IsUpTo (length (tag_text marks.now name (plain_release plain.now)))) }
{
    let front = tag_front(line, marks, name, plain)?;
    Ok(with_bytes(front, plain.message.as_slice().len(), 1))
}

/// How many bytes of a commit stand round its message, up to the lines of its files.
fn commit_lines(
    line: &mut Vec<u8>,
    marks: &Marks,
    mark: u64,
    plain: &PlainRev,
) -> Result<usize, Memory>
    requires { (id : List ℕ) → Contains plain.now.parents id → Contains marks.now (revision_name id) }
    ensures { IfOk result (λ n. n ≡ length ((beginning plain.now.parents
        ++ (commit_head mark plain.now.author plain.now.committer plain.now.encoding ++ data_line (length plain.now.message)))
        ++ (parents_text marks.now plain.now.parents ++ codes "deleteall\n"))) }
{
    line.clear();
    push_commit_lines(line, mark, plain)?;
    push_parent_lines(line, marks, plain)?;
    Ok(line.len())
}

/// How many bytes stand for a commit, whose lines of files have so many.
fn commit_length(
    line: &mut Vec<u8>,
    marks: &Marks,
    name: Name,
    plain: &PlainRev,
    files: u64,
) -> Result<u64, Memory>
    requires there { Contains marks.now name }
    requires kind { name.kind ≡ RevisionKind }
    requires parents { (id : List ℕ) → Contains plain.now.parents id → Contains marks.now (revision_name id) }
    ensures { IfOk result (λ n. (rows : List Row) → IsUpTo (length (files_text marks.now rows)) files
        → IsUpTo (length (commit_text marks.now name (plain_revision plain.now) rows)) n) }
{
    let lines = commit_lines(line, marks, marks.get(&name), plain)?;
    let front = with_bytes(lines, plain.message.as_slice().len(), 2);
    Ok(plus(front, files))
}

/// How many bytes stand for a content in the order.
fn content_length<L: Look>(
    look: &L,
    marks: &Marks,
    name: Name,
    line: &mut Vec<u8>,
) -> Result<u64, Memory>
    requires order { IsSomePostorder (L.children_of look.now) marks.now }
    requires there { Contains marks.now name }
    requires kind { name.kind ≡ ContentKind }
    ensures { IfOk result (HasLengthOf (IsBlob (L.archive look.now).bodies marks.now name)) }
{
    let body = body_at(look, marks, &name);
    blob_length(line, marks.get(&name), body.as_slice())
}

/// How long the lines of the files of a directory are.
fn files_length(sums: &PathSums, directory: [u8; 20]) -> u64
    requires { (n : ℕ) × (length_at sums.now directory ≡ Some n) }
    ensures { length_at sums.now directory ≡ Some result }
{
    match sums.get(directory) {
        Some(length) => length,
        None => unreachable!(),
    }
}

/// How many bytes stand for a revision in the order, which is plain.
fn revision_length<L: Look>(
    alloc: Global,
    look: &L,
    marks: &Marks,
    sums: &PathSums,
    name: Name,
    line: &mut Vec<u8>,
) -> Result<u64, Memory>
    requires order { IsSomePostorder (L.children_of look.now) marks.now }
    requires preceded { ArePreceded (L.children_of look.now) marks.now }
    requires sums { AreLengths (L.archive look.now).bodies (file_weight marks.now) marks.now sums.now }
    requires there { Contains marks.now name }
    requires kind { name.kind ≡ RevisionKind }
    requires plain { IsOddObject (L.archive look.now).bodies name → ⊥ }
    ensures { IfOk result (HasLengthOf (IsCommit (L.archive look.now).bodies marks.now name)) }
{
    look.is_graph();
    let body = body_at(look, marks, &name);
    let plain = plain_rev(alloc, body.as_slice())?;
    match plain {
        Some(plain) => {
            let files = files_length(sums, plain.directory);
            commit_length(line, marks, name, &plain, files)
        }
        None => unreachable!(),
    }
}

/// How many bytes stand for a release in the order, which is plain.
fn release_length<L: Look>(
    alloc: Global,
    look: &L,
    marks: &Marks,
    name: Name,
    line: &mut Vec<u8>,
) -> Result<u64, Memory>
    requires order { IsSomePostorder (L.children_of look.now) marks.now }
    requires preceded { ArePreceded (L.children_of look.now) marks.now }
    requires there { Contains marks.now name }
    requires kind { name.kind ≡ ReleaseKind }
    requires plain { IsOddObject (L.archive look.now).bodies name → ⊥ }
    ensures { IfOk result (HasLengthOf (IsTag (L.archive look.now).bodies marks.now name)) }
{
    look.is_graph();
    let body = body_at(look, marks, &name);
    let plain = plain_rel(alloc, body.as_slice())?;
    match plain {
        Some(plain) => tag_length(line, marks, name, &plain),
        None => unreachable!(),
    }
}

/// How many bytes stand for an object in the order.
fn object_length<L: Look>(
    alloc: Global,
    look: &L,
    marks: &Marks,
    sums: &PathSums,
    name: Name,
    line: &mut Vec<u8>,
) -> Result<u64, Memory>
    requires order { IsSomePostorder (L.children_of look.now) marks.now }
    requires preceded { ArePreceded (L.children_of look.now) marks.now }
    requires sums { AreLengths (L.archive look.now).bodies (file_weight marks.now) marks.now sums.now }
    requires there { Contains marks.now name }
    requires plain { IsOddObject (L.archive look.now).bodies name → ⊥ }
    ensures { IfOk result (HasLengthOf (IsObjectText (L.archive look.now).bodies marks.now name)) }
{
    match name.kind {
        Kind::Content => content_length(look, marks, name, line),
        Kind::Revision => revision_length(alloc, look, marks, sums, name, line),
        Kind::Release => release_length(alloc, look, marks, name, line),
        Kind::Directory => Ok(0),
        Kind::Snapshot => Ok(0),
    }
}

/// How many bytes stand for some of the objects together.
fn each_length<L: Look>(
    alloc: Global,
    look: &L,
    marks: &Marks,
    sums: &PathSums,
    names: &[Name],
) -> Result<u64, Memory>
    requires order { IsSomePostorder (L.children_of look.now) marks.now }
    requires preceded { ArePreceded (L.children_of look.now) marks.now }
    requires sums { AreLengths (L.archive look.now).bodies (file_weight marks.now) marks.now sums.now }
    requires there { (n : Named) → Contains names.now n → Contains marks.now n }
    requires plain { (n : Named) → Contains names.now n → IsOddObject (L.archive look.now).bodies n → ⊥ }
    ensures { IfOk result (HasLengthOf (AreObjectTexts (L.archive look.now).bodies marks.now names.now)) }
{
    let mut line = Vec::new(alloc);
    let mut count: u64 = 0;
    for name in names {
        let more = object_length(alloc, look, marks, sums, *name, &mut line)?;
        count = plus(count, more);
    }
    Ok(count)
}

/// Has what stands behind the objects of a stream taken.
fn put_end<L: Look, T: Taker>(
    alloc: Global,
    look: &L,
    marks: &Marks,
    root: Name,
    taker: &mut T,
) -> Result<(), CookFault>
    requires order { IsSomePostorder (L.children_of look.now) marks.now }
    requires preceded { ArePreceded (L.children_of look.now) marks.now }
    requires there { Contains marks.now root }
    ensures { OnOk result ((text : List ℕ) × IsEnd (L.archive look.now).bodies marks.now root text
        × T.takes taker.old text taker.new) }
{
    let mut held = Vec::new(alloc);
    write_end(alloc, look, marks, root, taker, &mut held)?;
    flush(taker, &mut held)?;
    Ok(())
}

/// How many bytes stand behind the objects of a stream. They are counted, and not held.
fn end_length<L: Look>(alloc: Global, look: &L, marks: &Marks, root: Name) -> Result<u64, Memory>
    requires order { IsSomePostorder (L.children_of look.now) marks.now }
    requires preceded { ArePreceded (L.children_of look.now) marks.now }
    requires there { Contains marks.now root }
    ensures { IfOk result (HasLengthOf (IsEnd (L.archive look.now).bodies marks.now root)) }
{
    let mut counter = Counter { count: 0 };
    match put_end(alloc, look, marks, root, &mut counter) {
        Ok(()) => Ok(counter.count),
        Err(_) => Err(Memory),
    }
}

/// How many bytes the stream of the names has that are reached from the root and stand in this order: exact, or above 2 to the
/// 32nd where that is. Nothing of it is written: the lengths of its parts are added up, and each directory is taken apart once,
/// however many paths lead to it. Fails where memory runs out.
pub fn stream_length<L: Look>(
    alloc: Global,
    look: &L,
    marks: &Marks,
    root: Name,
) -> Result<u64, Memory>
    requires order { IsPostorder (L.children_of look.now) root marks.now }
    requires preceded { ArePreceded (L.children_of look.now) marks.now }
    requires plain { (n : Named) → Contains marks.now n → IsOddObject (L.archive look.now).bodies n → ⊥ }
    ensures { IfOk result (HasLengthOf (IsStreamText (L.archive look.now).bodies marks.now root)) }
{
    look.is_graph();
    let sums = path_sums(alloc, look, marks.order(), &FileLines { marks })?;
    let objects = each_length(alloc, look, marks, &sums, marks.order())?;
    let end = end_length(alloc, look, marks, root)?;
    Ok(plus(plus(13, objects), end))
}

/// Whether the stream of the names that are reached from the root, which stand in this order, is too long.
pub fn is_long_stream<L: Look>(
    alloc: Global,
    look: &L,
    marks: &Marks,
    root: Name,
) -> Result<bool, Memory>
    requires order { IsPostorder (L.children_of look.now) root marks.now }
    requires preceded { ArePreceded (L.children_of look.now) marks.now }
    requires plain { (n : Named) → Contains marks.now n → IsOddObject (L.archive look.now).bodies n → ⊥ }
    ensures long { IfOk result (λ long. IsTrue long ↔ IsLongStream (L.archive look.now).bodies marks.now root) }
    ensures text { IfOk result (λ _. HasText (L.archive look.now).bodies marks.now root) }
{
    let length = stream_length(alloc, look, marks, root)?;
    Ok(length > STREAM_LIMIT)
}
