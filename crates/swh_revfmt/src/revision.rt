//! Revisions: a directory, parents, and the rest.

ghost use Rattle.std.specs.Prelude.{◌≡◌, ◌++◌, ℕ, List, IfOk, IfErr, OnOk, codes};
ghost use Rattle.std.specs.List.{flat_map, AllByRecursion};
ghost use Rattle.swh_base.specs.Name.{IsId};
ghost use Rattle.swh_base.specs.Revision.{Revision, id_line, parent_line, revision_text, BeginsParent, IsRevision};
ghost use Rattle.swh_revfmt.specs.Reading.{revision_of, revision_spelled, ExplainsRev, GivesRev};

use crate::fault::{BadRev, ReadRevFault};
use crate::line;
use crate::place::line_place;
use std::alloc::Global;
use swh_base::{Bytes, Items, Kind, Memory, Name};

/// The parts of a revision (git objects, commit): the directory's id, the parents' ids, as many as whole parent lines
/// stand there, and every byte after these lines.
#[derive(Drop)]
pub struct Rev {
    pub directory: [u8; 20],
    pub parents: Items<[u8; 20]>,
    pub rest: Bytes,
}

/// The parts of a revision whose rest stands in a body.
#[derive(Drop)]
pub struct SpelledRev<'a> {
    pub directory: [u8; 20],
    pub parents: Items<[u8; 20]>,
    pub rest: &'a [u8],
}

/// The parents of the whole parent lines at the front, and what follows these lines.
fn parents_of(alloc: Global, bytes: &[u8]) -> Result<(Items<[u8; 20]>, &[u8]), Memory>
    ensures parents { IfOk result (λ x. AllByRecursion IsId x.0) }
    ensures text { IfOk result (λ x. bytes.now ≡ flat_map parent_line x.0 ++ x.1.now) }
    ensures all { IfOk result (λ x. BeginsParent x.1.now → ⊥) }
{
    let mut parents = Vec::new(alloc);
    let mut rest = bytes;
    'lines: while let Some(line) = line::id_line(b"parent ", rest) {
        parents.push(line.id)?;
        rest = line.rest;
    }
    Ok((Items::from_vec(parents), rest))
}

/// The parts of a revision's body, whose rest is not copied. Fails with the length in bytes of the longest front that
/// some revision continues, or where memory runs out.
pub fn spelled_rev(alloc: Global, body: &[u8]) -> Result<SpelledRev<'_>, ReadRevFault>
    ensures ok { IfOk result (λ rev. IsRevision body.now (revision_spelled rev)) }
    ensures err { IfErr result (ExplainsRev body.now) }
{
    let Some(line) = line::id_line(b"tree ", body) else {
        let at = line_place(b"tree ", body) as u64;
        return Err(ReadRevFault::Bad(BadRev { at }));
    };
    let (parents, rest) = parents_of(alloc, line.rest)?;
    Ok(SpelledRev {
        directory: line.id,
        parents,
        rest,
    })
}

fn read(alloc: Global, body: &[u8]) -> Result<Rev, ReadRevFault>
    ensures ok { IfOk result (λ rev. IsRevision body.now (revision_of rev)) }
    ensures err { IfErr result (ExplainsRev body.now) }
{
    let SpelledRev {
        directory,
        parents,
        rest,
    } = spelled_rev(alloc, body)?;
    let rest = Bytes::from_slice(alloc, rest)?;
    Ok(Rev {
        directory,
        parents,
        rest,
    })
}

/// The parts of a revision's body (git objects, commit). Fails with the length in bytes of the longest front that some
/// revision continues, or where memory runs out.
pub fn read_rev(alloc: Global, body: &[u8]) -> Result<Rev, ReadRevFault>
    // What is read are the body's parts.
    ensures ok { IfOk result (λ rev. IsRevision body.now (revision_of rev)) }
    // What is a revision is read, unless memory runs out.
    ensures only { (revision : Revision) → IsRevision body.now revision → GivesRev result revision }
    // What is refused is none, and the longest prefix that some revision continues is this long.
    ensures err { IfErr result (ExplainsRev body.now) }
{
    read(alloc, body)
}

/// A word, an id in digits, and an LF.
pub fn put_id_line(out: &mut Vec<u8>, word: &[u8], id: &[u8; 20]) -> Result<(), Memory>
    ensures { OnOk result (out.new.items ≡ out.old.items ++ id_line word.now id.now) }
{
    let mut digits = [0; 40];
    let name = Name {
        kind: Kind::Revision,
        id: *id,
    };
    name.hex(&mut digits);
    out.extend_from_slice(word)?;
    out.extend_from_slice(&digits)?;
    out.push(b'\n')?;
    Ok(())
}

/// The lines of a directory and of parents.
pub fn revision_head(
    alloc: Global,
    directory: &[u8; 20],
    parents: &[[u8; 20]],
) -> Result<Vec<u8>, Memory>
    ensures { IfOk result (λ out. out.items ≡ id_line (codes "tree ") directory.now
        ++ flat_map parent_line parents.now) }
{
    let mut out = Vec::new(alloc);
    put_id_line(&mut out, b"tree ", directory)?;
    for parent in parents {
        put_id_line(&mut out, b"parent ", parent)?;
    }
    Ok(out)
}

/// The text of these parts. It is the body of a revision with these parts where the rest does not begin with a parent
/// line. Fails where memory runs out.
pub fn write_rev(alloc: Global, rev: &Rev) -> Result<Vec<u8>, Memory>
    ensures text { IfOk result (λ out. out.items ≡ revision_text (revision_of rev.now)) }
    // What was read is written again, byte for byte.
    ensures same { (body : List ℕ) → IsRevision body (revision_of rev.now) → IfOk result (λ out. out.items ≡ body) }
{
    let mut out = revision_head(alloc, &rev.directory, rev.parents.as_slice())?;
    out.extend_from_slice(rev.rest.as_slice())?;
    Ok(out)
}
