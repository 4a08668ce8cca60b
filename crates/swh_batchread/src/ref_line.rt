//! Lines of a file of refs (git-show-ref(1)).
ghost use Rattle.std.specs.Prelude.{◌≡◌, ◌≢◌, ◌≤◌, ◌↔◌, [], IsTrue, Contains, length};
ghost use Rattle.swh_base.specs.Limits.{line_limit};
ghost use Rattle.swh_fastlex.specs.Line.{IsLine};
ghost use Rattle.swh_batchread.specs.Refs.{is_peeled};
ghost use Rattle.swh_batchread.specs.RefSteps.{IsRefIn, IsRefBefore};

use swh_base::{Kind, Name, split_at_byte};

/// What a line says: the id that a ref leads to, and the ref's name, where it lies in the line.
#[derive(Clone, Copy, Debug)]
pub struct RefIn<'a> {
    pub id: [u8; 20],
    pub name: &'a [u8],
}

/// Whether a name is that of what a tag leads to in the end.
pub fn is_peeled(name: &[u8]) -> bool
    ensures { result ≡ is_peeled name.now }
{
    name.ends_with(b"^{}")
}

/// Whether a name may be a ref's: it is not empty, and has no NUL.
fn is_name(name: &[u8]) -> bool
    ensures { IsTrue result ↔ ((name.now ≢ []) × (Contains name.now 0 → ⊥)) }
{
    if name.is_empty() {
        return false;
    }
    match split_at_byte(name, b'\0') {
        Some((_front, _rest)) => false,
        None => true,
    }
}

/// What the line without its LF says.
fn ref_before(line: &[u8]) -> Option<RefIn<'_>>
    ensures { IsRefBefore line.now result }
{
    let Some((hex, name)) = split_at_byte(line, b' ') else {
        return None;
    };
    let Some(found) = Name::from_hex(Kind::Revision, hex) else {
        return None;
    };
    if !is_name(name) {
        return None;
    }
    let id = found.id;
    Some(RefIn { id, name })
}

/// What a line says that has its LF.
pub fn ref_in(line: &[u8]) -> Option<RefIn<'_>>
    requires line { IsLine line.now }
    requires short { length line.now ≤ line_limit }
    ensures { IsRefIn line.now result }
{
    ref_before(&line[..line.len() - 1])
}
