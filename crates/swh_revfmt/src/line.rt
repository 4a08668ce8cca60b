//! Lines of a word and an id.

ghost use Rattle.std.specs.Prelude.{◌≡◌, [], ◌++◌, IfSome, IfNone};
ghost use Rattle.swh_base.specs.Name.{IsId};
ghost use Rattle.swh_base.specs.Revision.{id_line};
ghost use Rattle.swh_revfmt.specs.Reading.{NotLine};

use swh_base::{Kind, Name, behind};

/// The id of a line, and the bytes after the line.
#[derive(Drop)]
pub struct Line<'a> {
    pub id: [u8; 20],
    pub rest: &'a [u8],
}

/// A line of forty digits and an LF.
fn digits_line(bytes: &[u8]) -> Option<Line<'_>>
    ensures some { IfSome result (λ line. IsId line.id × (bytes.now ≡ id_line [] line.id ++ line.rest.now)) }
    ensures none { IfNone result (NotLine [] bytes.now) }
{
    if bytes.len() < 41 {
        return None;
    }
    let (digits, rest) = bytes.split_at(40);
    let Some(name) = Name::from_hex(Kind::Revision, digits) else {
        return None;
    };
    let Some(rest) = behind(b"\n", rest) else {
        return None;
    };
    let id = name.id;
    Some(Line { id, rest })
}

/// A line of this word and an id.
pub fn id_line<'a>(word: &[u8], bytes: &'a [u8]) -> Option<Line<'a>>
    ensures some { IfSome result (λ line. IsId line.id × (bytes.now ≡ id_line word.now line.id ++ line.rest.now)) }
    ensures none { IfNone result (NotLine word.now bytes.now) }
{
    let Some(rest) = behind(word, bytes) else {
        return None;
    };
    digits_line(rest)
}
