//! Releases: an object, its kind's word, a name, and the rest.

ghost use Rattle.std.specs.Prelude.{◌≡◌, ◌≢◌, ◌<◌, ◌++◌, ◌∷◌, [], ℕ, List, length, IfOk, IfErr, OnOk, MatchResult, codes};
ghost use Rattle.swh_base.specs.declared.kind.Kind.{Kind};
ghost use Rattle.swh_base.specs.declared.kind.Kind.TheVariants.{Snapshot, Release as ReleaseKind};
ghost use Rattle.swh_base.specs.Release.{Release, release_text, IsRelease};
ghost use Rattle.swh_base.specs.Revision.{id_line};
ghost use Rattle.swh_revfmt.specs.Fault.{IsRevFault};
ghost use Rattle.swh_revfmt.specs.Reading.{
  release_of,
  release_spelled,
  type_text,
  IsCommonFront,
  IsTypePlace,
  ExplainsRel,
  GivesRel,
};

use crate::fault::{BadRel, ReadRelFault};
use crate::line;
use crate::place::{common_front, line_place};
use crate::revision::put_id_line;
use std::alloc::Global;
use swh_base::{Bytes, Kind, Memory, Name, split_at_byte};

/// The parts of a release (git objects, tag): its object, which is no snapshot, the tag's name without LF, and every
/// byte after the line of the tag's name.
#[derive(Drop)]
pub struct Rel {
    pub object: Name,
    pub tag: Bytes,
    pub rest: Bytes,
}

/// The parts of a release whose name and rest stand in a body.
#[derive(Clone, Copy, Debug)]
pub struct SpelledRel<'a> {
    pub object: Name,
    pub tag: &'a [u8],
    pub rest: &'a [u8],
}

/// The line that names an object's kind, and the word of the line after it.
fn type_line(kind: Kind) -> &'static [u8]
    requires { kind ≢ Snapshot }
    ensures { result.now ≡ type_text kind }
{
    match kind {
        Kind::Content => b"type blob\ntag ",
        Kind::Directory => b"type tree\ntag ",
        Kind::Revision => b"type commit\ntag ",
        Kind::Release | Kind::Snapshot => b"type tag\ntag ",
    }
}

/// What follows the line of this kind, or how far the bytes go as that line.
fn behind_type(kind: Kind, bytes: &[u8]) -> Result<&[u8], usize>
    requires { kind ≢ Snapshot }
    ensures ok { IfOk result (λ rest. bytes.now ≡ type_text kind ++ rest.now) }
    ensures err { IfErr result (λ n. IsCommonFront (type_text kind) bytes.now n × (n < length (type_text kind))) }
{
    let line = type_line(kind);
    let common = common_front(line, bytes);
    if common == line.len() {
        Ok(&bytes[common..])
    } else {
        Err(common)
    }
}

/// The kind at the front and what follows its line, or how far the bytes go as the line of some kind.
fn kind_from(bytes: &[u8]) -> Result<(Kind, &[u8]), usize>
    ensures kind { IfOk result (λ x. x.0 ≢ Snapshot) }
    ensures text { IfOk result (λ x. bytes.now ≡ type_text x.0 ++ x.1.now) }
    ensures err { IfErr result (IsTypePlace bytes.now) }
{
    let revision = match behind_type(Kind::Revision, bytes) {
        Ok(rest) => return Ok((Kind::Revision, rest)),
        Err(place) => place,
    };
    let directory = match behind_type(Kind::Directory, bytes) {
        Ok(rest) => return Ok((Kind::Directory, rest)),
        Err(place) => place,
    };
    let content = match behind_type(Kind::Content, bytes) {
        Ok(rest) => return Ok((Kind::Content, rest)),
        Err(place) => place,
    };
    let release = match behind_type(Kind::Release, bytes) {
        Ok(rest) => return Ok((Kind::Release, rest)),
        Err(place) => place,
    };
    Err(revision.max(directory).max(content.max(release)))
}

/// The parts as they stand in a release's body. It takes no memory. Fails with the length in bytes of the longest
/// front that some release continues.
pub fn spelled_rel(body: &[u8]) -> Result<SpelledRel<'_>, BadRel>
    ensures ok { IfOk result (λ rel. IsRelease body.now (release_spelled rel)) }
    ensures err { IfErr result (λ bad. IsRevFault ReleaseKind body.now bad.at) }
{
    let Some(line) = line::id_line(b"object ", body) else {
        let at = line_place(b"object ", body) as u64;
        return Err(BadRel { at });
    };
    let (kind, rest) = match kind_from(line.rest) {
        Ok(found) => found,
        Err(place) => {
            let at = (body.len() - line.rest.len() + place) as u64;
            return Err(BadRel { at });
        }
    };
    let Some((tag, rest)) = split_at_byte(rest, b'\n') else {
        let at = body.len() as u64;
        return Err(BadRel { at });
    };
    let object = Name { kind, id: line.id };
    Ok(SpelledRel { object, tag, rest })
}

fn read(alloc: Global, body: &[u8]) -> Result<Rel, ReadRelFault>
    ensures ok { IfOk result (λ rel. IsRelease body.now (release_of rel)) }
    ensures err { IfErr result (ExplainsRel body.now) }
{
    match spelled_rel(body) {
        Ok(SpelledRel { object, tag, rest }) => Ok(Rel {
            object,
            tag: Bytes::from_slice(alloc, tag)?,
            rest: Bytes::from_slice(alloc, rest)?,
        }),
        Err(bad) => Err(ReadRelFault::Bad(bad)),
    }
}

/// The parts of a release's body (git objects, tag). Fails with the length in bytes of the longest front that some
/// release continues, or where memory runs out.
pub fn read_rel(alloc: Global, body: &[u8]) -> Result<Rel, ReadRelFault>
    // What is read are the body's parts.
    ensures ok { IfOk result (λ rel. IsRelease body.now (release_of rel)) }
    // What is a release is read, unless memory runs out.
    ensures only { (release : Release) → IsRelease body.now release → GivesRel result release }
    // What is refused is none, and the longest prefix that some release continues is this long.
    ensures err { IfErr result (ExplainsRel body.now) }
{
    read(alloc, body)
}

/// The lines of an object, its kind and a tag's name.
pub fn put_release_head(out: &mut Vec<u8>, object: &Name, tag: &[u8]) -> Result<(), Memory>
    requires { object.now.kind ≢ Snapshot }
    ensures { OnOk result (out.new.items ≡ out.old.items ++ (id_line (codes "object ") object.now.id
        ++ (type_text object.now.kind ++ (tag.now ++ 10 ∷ [])))) }
{
    put_id_line(out, b"object ", &object.id)?;
    out.extend_from_slice(type_line(object.kind))?;
    out.extend_from_slice(tag)?;
    out.push(b'\n')?;
    Ok(())
}

/// The text of these parts. It is the body of a release with these parts where the tag's name has no LF. Fails where
/// memory runs out.
pub fn write_rel(alloc: Global, rel: &Rel) -> Result<Vec<u8>, Memory>
    requires { rel.now.object.kind ≢ Snapshot }
    ensures text { IfOk result (λ out. out.items ≡ release_text (release_of rel.now)) }
    // What was read is written again, byte for byte.
    ensures same { (body : List ℕ) → IsRelease body (release_of rel.now) → IfOk result (λ out. out.items ≡ body) }
{
    let mut out = Vec::new(alloc);
    put_release_head(&mut out, &rel.object, rel.tag.as_slice())?;
    out.extend_from_slice(rel.rest.as_slice())?;
    Ok(out)
}
