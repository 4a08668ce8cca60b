// What a path asks for.
ghost use Rattle.std.specs.Prelude.{◌≡◌, ◌==◌, ◌++◌, ◌∷◌, ℕ, List, IfSome, IfNone, codes, position};
ghost use Rattle.std.specs.List.{before_first};
ghost use Rattle.swh_replies.specs.Shape.{Shape, IsOnePart, HasParts, Spells, shape_of};

use swh_base::{behind, split_at_byte};

/// What a path of the read API asks for, with the texts that stand in it as they are there.
#[derive(Clone, Copy, Debug)]
pub enum Asked<'a> {
    /// `known/`: which of the names in the body are held.
    Known,
    /// `origin/<url>/visits/`
    Visits(&'a [u8]),
    /// `origin/<url>/get/`
    Origin(&'a [u8]),
    /// `revision/<id>/`
    Revision(&'a [u8]),
    /// `revision/<id>/log/`
    Log(&'a [u8]),
    /// `release/<id>/`
    Release(&'a [u8]),
    /// `directory/<id>/`
    Directory(&'a [u8]),
    /// `directory/<id>/<path>/`
    DirectoryEntry(&'a [u8], &'a [u8]),
    /// `snapshot/<id>/`
    Snapshot(&'a [u8]),
    /// `content/sha1_git:<id>/`
    Content(&'a [u8]),
    /// `resolve/<SWHID>/`
    Resolve(&'a [u8]),
    /// `raw/<core identifier>/`
    Raw(&'a [u8]),
    /// `cook/<core identifier>/`
    Cook(&'a [u8]),
    /// `load/fast/<url>/`: a load of the stream in the body.
    Load(&'a [u8]),
}

// What stands before the first `?`.
fn without_query(path: &[u8]) -> &[u8]
    ensures { result.now ≡ before_first (λ c. c == 63) path.now }
{
    match query_start(path) {
        Some(end) => &path[..end],
        None => path,
    }
}

fn query_start(path: &[u8]) -> Option<usize>
    ensures { result ≡ position (λ c. c == 63) path.now }
{
    path.iter().position(|c| *c == b'?')
}

// What stands before these last bytes.
fn before<'a>(bytes: &'a [u8], back: &[u8]) -> Option<&'a [u8]>
    ensures some { IfSome result (λ front. bytes.now ≡ front.now ++ back.now) }
    ensures none { IfNone result ((front : List ℕ) → bytes.now ≡ front ++ back.now → ⊥) }
{
    bytes.strip_suffix(back)
}

// What stands before the last byte, where it is a slash and there is no other.
fn one_part(tail: &[u8]) -> Option<&[u8]>
    ensures some { IfSome result (λ part. IsOnePart part.now × (tail.now ≡ part.now ++ codes "/")) }
    ensures none { IfNone result ((part : List ℕ) → IsOnePart part → tail.now ≡ part ++ codes "/" → ⊥) }
{
    let Some((part, rest)) = split_at_byte(tail, b'/') else {
        return None;
    };
    if rest.is_empty() { Some(part) } else { None }
}

fn known(tail: &[u8]) -> Option<Asked<'_>>
    ensures some { IfSome result (λ a. HasParts (codes "known") tail.now (shape_of a)) }
    ensures none { IfNone result ((s : Shape) → HasParts (codes "known") tail.now s → ⊥) }
{
    if tail.is_empty() {
        Some(Asked::Known)
    } else {
        None
    }
}

fn origin(tail: &[u8]) -> Option<Asked<'_>>
    ensures some { IfSome result (λ a. HasParts (codes "origin") tail.now (shape_of a)) }
    ensures none { IfNone result ((s : Shape) → HasParts (codes "origin") tail.now s → ⊥) }
{
    if let Some(url) = before(tail, b"/visits/") {
        return Some(Asked::Visits(url));
    }
    let Some(url) = before(tail, b"/get/") else {
        return None;
    };
    Some(Asked::Origin(url))
}

fn revision(tail: &[u8]) -> Option<Asked<'_>>
    ensures some { IfSome result (λ a. HasParts (codes "revision") tail.now (shape_of a)) }
    ensures none { IfNone result ((s : Shape) → HasParts (codes "revision") tail.now s → ⊥) }
{
    let Some((id, rest)) = split_at_byte(tail, b'/') else {
        return None;
    };
    if rest.is_empty() {
        return Some(Asked::Revision(id));
    }
    if rest == b"log/".as_slice() {
        return Some(Asked::Log(id));
    }
    None
}

fn release(tail: &[u8]) -> Option<Asked<'_>>
    ensures some { IfSome result (λ a. HasParts (codes "release") tail.now (shape_of a)) }
    ensures none { IfNone result ((s : Shape) → HasParts (codes "release") tail.now s → ⊥) }
{
    let Some(id) = one_part(tail) else {
        return None;
    };
    Some(Asked::Release(id))
}

fn directory(tail: &[u8]) -> Option<Asked<'_>>
    ensures some { IfSome result (λ a. HasParts (codes "directory") tail.now (shape_of a)) }
    ensures none { IfNone result ((s : Shape) → HasParts (codes "directory") tail.now s → ⊥) }
{
    let Some((id, rest)) = split_at_byte(tail, b'/') else {
        return None;
    };
    if rest.is_empty() {
        return Some(Asked::Directory(id));
    }
    let Some(path) = before(rest, b"/") else {
        return None;
    };
    Some(Asked::DirectoryEntry(id, path))
}

fn snapshot(tail: &[u8]) -> Option<Asked<'_>>
    ensures some { IfSome result (λ a. HasParts (codes "snapshot") tail.now (shape_of a)) }
    ensures none { IfNone result ((s : Shape) → HasParts (codes "snapshot") tail.now s → ⊥) }
{
    let Some(id) = one_part(tail) else {
        return None;
    };
    Some(Asked::Snapshot(id))
}

fn content(tail: &[u8]) -> Option<Asked<'_>>
    ensures some { IfSome result (λ a. HasParts (codes "content") tail.now (shape_of a)) }
    ensures none { IfNone result ((s : Shape) → HasParts (codes "content") tail.now s → ⊥) }
{
    let Some(rest) = behind(b"sha1_git:", tail) else {
        return None;
    };
    let Some(id) = one_part(rest) else {
        return None;
    };
    Some(Asked::Content(id))
}

fn resolve(tail: &[u8]) -> Option<Asked<'_>>
    ensures some { IfSome result (λ a. HasParts (codes "resolve") tail.now (shape_of a)) }
    ensures none { IfNone result ((s : Shape) → HasParts (codes "resolve") tail.now s → ⊥) }
{
    let Some(swhid) = before(tail, b"/") else {
        return None;
    };
    Some(Asked::Resolve(swhid))
}

fn raw(tail: &[u8]) -> Option<Asked<'_>>
    ensures some { IfSome result (λ a. HasParts (codes "raw") tail.now (shape_of a)) }
    ensures none { IfNone result ((s : Shape) → HasParts (codes "raw") tail.now s → ⊥) }
{
    let Some(core) = one_part(tail) else {
        return None;
    };
    Some(Asked::Raw(core))
}

fn cook(tail: &[u8]) -> Option<Asked<'_>>
    ensures some { IfSome result (λ a. HasParts (codes "cook") tail.now (shape_of a)) }
    ensures none { IfNone result ((s : Shape) → HasParts (codes "cook") tail.now s → ⊥) }
{
    let Some(core) = one_part(tail) else {
        return None;
    };
    Some(Asked::Cook(core))
}

fn load(tail: &[u8]) -> Option<Asked<'_>>
    ensures some { IfSome result (λ a. HasParts (codes "load") tail.now (shape_of a)) }
    ensures none { IfNone result ((s : Shape) → HasParts (codes "load") tail.now s → ⊥) }
{
    let Some(rest) = behind(b"fast/", tail) else {
        return None;
    };
    let Some(url) = before(rest, b"/") else {
        return None;
    };
    Some(Asked::Load(url))
}

// What is asked for by a word and what stands behind it.
fn asked_by<'a>(word: &[u8], tail: &'a [u8]) -> Option<Asked<'a>>
    ensures some { IfSome result (λ a. HasParts word.now tail.now (shape_of a)) }
    ensures none { IfNone result ((s : Shape) → HasParts word.now tail.now s → ⊥) }
{
    if word == b"known".as_slice() {
        known(tail)
    } else if word == b"origin".as_slice() {
        origin(tail)
    } else if word == b"revision".as_slice() {
        revision(tail)
    } else if word == b"release".as_slice() {
        release(tail)
    } else if word == b"directory".as_slice() {
        directory(tail)
    } else if word == b"snapshot".as_slice() {
        snapshot(tail)
    } else if word == b"content".as_slice() {
        content(tail)
    } else if word == b"resolve".as_slice() {
        resolve(tail)
    } else if word == b"raw".as_slice() {
        raw(tail)
    } else if word == b"cook".as_slice() {
        cook(tail)
    } else if word == b"load".as_slice() {
        load(tail)
    } else {
        None
    }
}

/// What a path asks for, below `/api/1/`: a `?` and what follows it are ignored, and every path ends in a slash. None
/// where no path of the API is spelled so. Ids and other texts are not looked at, but that an id holds no slash.
pub fn read_path(path: &[u8]) -> Option<Asked<'_>>
    ensures some { IfSome result (λ a. Spells path.now (shape_of a)) }
    ensures none { IfNone result ((s : Shape) → Spells path.now s → ⊥) }
{
    let Some(below) = behind(b"/api/1/", without_query(path)) else {
        return None;
    };
    let Some((word, tail)) = split_at_byte(below, b'/') else {
        return None;
    };
    asked_by(word, tail)
}
