//! Names as keys of an ordered map.
ghost use Rattle.std.specs.Prelude.{◌≡◌};
ghost use Rattle.swh_base.specs.Name.{kind_number, name_key};

use swh_base::{Kind, Name};

/// The number that stands for a kind, by which names are ordered.
fn number_of(kind: Kind) -> u8
    ensures { result ≡ kind_number kind }
{
    match kind {
        Kind::Content => 1,
        Kind::Directory => 2,
        Kind::Revision => 3,
        Kind::Release => 4,
        Kind::Snapshot => 5,
    }
}

/// The key of a name: the kind's number, then the id.
pub(crate) fn key_of(name: &Name) -> [u8; 21]
    ensures { result ≡ name_key name.now }
{
    let mut bytes = [0; 21];
    bytes[0] = number_of(name.kind);
    bytes[1..].copy_from_slice(&name.id);
    bytes
}
