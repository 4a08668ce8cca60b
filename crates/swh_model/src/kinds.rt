// The numbers of kinds.
ghost use Rattle.std.specs.Prelude.{◌≡◌};
ghost use Rattle.swh_base.specs.Name.{kind_number};

use swh_base::Kind;

/// The number that stands for a kind, by which names are ordered and which the store has.
pub fn kind_byte(kind: Kind) -> u8
    ensures { result ≡ kind_number kind }
{
    match kind {
        Kind::Content => 1,
        Kind::Directory => 2,
        Kind::Revision => 3,
        Kind::Release => 4,
        Kind::Snapshot => 5,
    }
}
