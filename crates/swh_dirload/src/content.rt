//! Contents of files.
ghost use Rattle.std.specs.Prelude.{◌≡◌, ◌≤◌, IfOk, OnOk, length};
ghost use Rattle.swh_base.specs.declared.kind.Kind.TheVariants.{Content};
ghost use Rattle.swh_base.specs.Limits.{body_limit};
ghost use Rattle.swh_dirload.specs.Reading.{GivesContent};

use std::alloc::Global;
use swh_base::{Kind, Memory, Namer};
use swh_dedup::{MakeFault, make_object};
use swh_dirmade::Given;

/// Makes the content of these bytes, and tells its id.
pub fn give_content<N: Namer>(
    alloc: Global,
    namer: &N,
    given: &mut Given<N>,
    bytes: Vec<u8>,
) -> Result<[u8; 20], Memory>
    requires { length bytes.items ≤ body_limit }
    ensures id { IfOk result (λ id. id ≡ N.id_of Content bytes.items) }
    ensures content { OnOk result (GivesContent given.old bytes.items given.new) }
{
    match make_object(alloc, namer, Kind::Content, bytes) {
        Ok(object) => {
            let name = object.name();
            given.give(alloc, object)?;
            Ok(name.id)
        }
        Err(MakeFault::TooLong { len: _ }) => unreachable!(),
        Err(MakeFault::Memory) => Err(Memory),
    }
}
