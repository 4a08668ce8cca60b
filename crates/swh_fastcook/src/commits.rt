//! Contents, commits and tags.
ghost use Rattle.std.specs.Prelude.{◌≡◌, ◌++◌, ◌∷◌, [], ℕ, List, OnOk, IfSome, IfNone, Contains, length, codes, true};
ghost use Rattle.std.specs.List.{flat_map};
ghost use Rattle.std.specs.Option.{option_copied};
ghost use Rattle.swh_base.specs.Revision.{revision_name};
ghost use Rattle.swh_base.specs.declared.kind.Kind.TheVariants.{Revision as RevisionKind, Release as ReleaseKind};
ghost use Rattle.swh_graph.specs.Path.{directory_name};
ghost use Rattle.swh_postorder.specs.Cycle.{IsSomePostorder, ArePreceded};
ghost use Rattle.swh_revfmt.specs.PlainReading.{plain_revision, plain_release};
ghost use Rattle.swh_fastwrite.specs.Text.{blob_text, commit_head, tag_head, data_line};
ghost use Rattle.swh_fastwrite.specs.Held.{Wrote, WroteSome, kept};
ghost use Rattle.swh_marks.specs.Marks.{mark_of, is_written};
ghost use Rattle.swh_fastcook.specs.Cause.{HasWriteCause};
ghost use Rattle.swh_fastcook.specs.Files.{IsCommitOf};
ghost use Rattle.swh_fastcook.specs.Stream.{beginning, commit_front, parents_text, parent_line, tag_text};

use crate::files::write_files;
use crate::pieces::{hold, put_line};
use std::alloc::Global;
use swh_base::{Bytes, Kind, Memory, Name};
use swh_carried::CookFault;
use swh_fastwrite::{
    Taker, push_begin, push_blob_head, push_commit_head, push_data_line, push_marked, push_tag_head,
};
use swh_marks::Marks;
use swh_model::Look;
use swh_revfmt::{PlainRel, PlainRev};

/// Text where there is one, where it lies.
fn text_of(text: &Option<Bytes>) -> Option<&[u8]>
    ensures { option_copied result ≡ text.now }
{
    match text {
        Some(bytes) => Some(bytes.as_slice()),
        None => None,
    }
}

/// Appends a tag up to its message.
pub fn push_tag_lines(
    held: &mut Vec<u8>,
    marks: &Marks,
    name: Name,
    plain: &PlainRel,
) -> Result<(), Memory>
    requires there { Contains marks.now name }
    requires kind { name.kind ≡ ReleaseKind }
    requires object { Contains marks.now plain.now.object }
    requires written { is_written plain.now.object ≡ true }
    ensures { OnOk result (held.new.items ≡ held.old.items ++ (tag_head plain.now.tag (mark_of marks.now name)
        (mark_of marks.now plain.now.object) plain.now.tagger ++ data_line (length plain.now.message))) }
{
    let mark = marks.get(&name);
    let object = marks.get(&plain.object);
    push_tag_head(
        held,
        plain.tag.as_slice(),
        mark,
        object,
        text_of(&plain.tagger),
    )?;
    push_data_line(held, plain.message.as_slice().len() as u64)
}

/// Appends the line of a parent.
fn push_parent(held: &mut Vec<u8>, marks: &Marks, word: &[u8], id: [u8; 20]) -> Result<(), Memory>
    requires { Contains marks.now (revision_name id) }
    ensures { OnOk result (held.new.items ≡ held.old.items ++ parent_line marks.now word.now id) }
{
    let kind = Kind::Revision;
    push_marked(held, word, marks.get(&Name { kind, id }))
}

/// Appends the lines of further parents.
fn push_merges(held: &mut Vec<u8>, marks: &Marks, ids: &[[u8; 20]]) -> Result<(), Memory>
    requires { (id : List ℕ) → Contains ids.now id → Contains marks.now (revision_name id) }
    ensures { OnOk result (held.new.items ≡ held.old.items ++ flat_map (parent_line marks.now (codes "merge ")) ids.now) }
{
    for id in ids {
        push_parent(held, marks, b"merge ", *id)?;
    }
    Ok(())
}

/// The first of some ids, and those behind it.
fn first_of(ids: &[[u8; 20]]) -> Option<(&[u8; 20], &[[u8; 20]])>
    ensures some { IfSome result (λ x. ids.now ≡ x.0.now ∷ x.1.now) }
    ensures none { IfNone result (ids.now ≡ []) }
{
    let Some((first, further)) = ids.split_first() else {
        return None;
    };
    Some((first, further))
}

/// Appends the lines of the parents.
fn push_parents(held: &mut Vec<u8>, marks: &Marks, ids: &[[u8; 20]]) -> Result<(), Memory>
    requires { (id : List ℕ) → Contains ids.now id → Contains marks.now (revision_name id) }
    ensures { OnOk result (held.new.items ≡ held.old.items ++ parents_text marks.now ids.now) }
{
    let Some((first, further)) = first_of(ids) else {
        return Ok(());
    };
    push_parent(held, marks, b"from ", *first)?;
    push_merges(held, marks, further)
}

/// Appends the beginning of the branch of all commits, where a revision has no parent.
fn push_beginning(held: &mut Vec<u8>, ids: &[[u8; 20]]) -> Result<(), Memory>
    ensures { OnOk result (held.new.items ≡ held.old.items ++ beginning ids.now) }
{
    if ids.is_empty() {
        return push_begin(held, b"refs/swh/cook");
    }
    Ok(())
}

/// Appends a commit up to its message.
pub fn push_commit_lines(held: &mut Vec<u8>, mark: u64, plain: &PlainRev) -> Result<(), Memory>
    ensures { OnOk result (held.new.items ≡ held.old.items ++ (beginning plain.now.parents
        ++ (commit_head mark plain.now.author plain.now.committer plain.now.encoding ++ data_line (length plain.now.message)))) }
{
    push_beginning(held, plain.parents.as_slice())?;
    push_commit_head(
        held,
        mark,
        plain.author.as_slice(),
        plain.committer.as_slice(),
        text_of(&plain.encoding),
    )?;
    push_data_line(held, plain.message.as_slice().len() as u64)
}

/// Appends what stands between a commit's message and the lines of its files.
pub fn push_parent_lines(held: &mut Vec<u8>, marks: &Marks, plain: &PlainRev) -> Result<(), Memory>
    requires { (id : List ℕ) → Contains plain.now.parents id → Contains marks.now (revision_name id) }
    ensures { OnOk result (held.new.items ≡ held.old.items ++ (parents_text marks.now plain.now.parents ++ codes "deleteall\n")) }
{
    push_parents(held, marks, plain.parents.as_slice())?;
    hold(held, b"deleteall\n")
}

/// Writes a content.
pub fn write_blob<T: Taker>(
    taker: &mut T,
    held: &mut Vec<u8>,
    mark: u64,
    body: &[u8],
) -> Result<(), CookFault>
    ensures bytes { Wrote T.takes T.takes_front (kept taker.old held.old.items) (blob_text mark body.now)
        (kept taker.new held.new.items) result }
    ensures cause { HasWriteCause (T.failures taker.old) (T.failures taker.new) result }
{
    push_blob_head(held, mark, body.len() as u64)?;
    put_line(taker, held, body)
}

/// Writes a tag, whose object is among the names that have marks.
pub fn write_tag<T: Taker>(
    taker: &mut T,
    held: &mut Vec<u8>,
    marks: &Marks,
    name: Name,
    plain: &PlainRel,
) -> Result<(), CookFault>
    requires there { Contains marks.now name }
    requires kind { name.kind ≡ ReleaseKind }
    requires object { Contains marks.now plain.now.object }
    requires written { is_written plain.now.object ≡ true }
    ensures bytes { Wrote T.takes T.takes_front (kept taker.old held.old.items) (tag_text marks.now name (plain_release plain.now))
        (kept taker.new held.new.items) result }
    ensures cause { HasWriteCause (T.failures taker.old) (T.failures taker.new) result }
{
    push_tag_lines(held, marks, name, plain)?;
    put_line(taker, held, plain.message.as_slice())
}

/// Writes a commit up to the lines of its files.
fn write_commit_front<T: Taker>(
    taker: &mut T,
    held: &mut Vec<u8>,
    marks: &Marks,
    name: Name,
    plain: &PlainRev,
) -> Result<(), CookFault>
    requires there { Contains marks.now name }
    requires kind { name.kind ≡ RevisionKind }
    requires parents { (id : List ℕ) → Contains plain.now.parents id → Contains marks.now (revision_name id) }
    ensures bytes { Wrote T.takes T.takes_front (kept taker.old held.old.items) (commit_front marks.now name (plain_revision plain.now))
        (kept taker.new held.new.items) result }
    ensures cause { HasWriteCause (T.failures taker.old) (T.failures taker.new) result }
{
    push_commit_lines(held, marks.get(&name), plain)?;
    put_line(taker, held, plain.message.as_slice())?;
    push_parent_lines(held, marks, plain)?;
    Ok(())
}

/// Writes a commit, of which the parents, the directory and all that is under it are among the names that have marks.
pub fn write_commit<L: Look, T: Taker>(
    alloc: Global,
    look: &L,
    marks: &Marks,
    name: Name,
    plain: &PlainRev,
    taker: &mut T,
    held: &mut Vec<u8>,
) -> Result<(), CookFault>
    requires order { IsSomePostorder (L.children_of look.now) marks.now }
    requires preceded { ArePreceded (L.children_of look.now) marks.now }
    requires there { Contains marks.now name }
    requires kind { name.kind ≡ RevisionKind }
    requires directory { Contains marks.now (directory_name plain.now.directory) }
    requires parents { (id : List ℕ) → Contains plain.now.parents id → Contains marks.now (revision_name id) }
    ensures bytes { WroteSome T.takes T.takes_front (kept taker.old held.old.items)
        (IsCommitOf (L.archive look.now).bodies marks.now name (plain_revision plain.now)) (kept taker.new held.new.items) result }
    ensures cause { HasWriteCause (T.failures taker.old) (T.failures taker.new) result }
{
    write_commit_front(taker, held, marks, name, plain)?;
    write_files(alloc, look, marks, plain.directory, taker, held)?;
    hold(held, b"\n")?;
    Ok(())
}
