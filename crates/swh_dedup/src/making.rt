//! Objects, made of bodies that are of their kinds.
ghost use Rattle.std.specs.Prelude.{◌≡◌, IfOk, IfErr};
ghost use Rattle.swh_base.specs.Manifest.{IsWellFormed};
ghost use Rattle.swh_base.specs.Name.{IsId};
ghost use Rattle.swh_object.specs.Object.{IsObject};
ghost use Rattle.swh_dedup.specs.Making.{made_from, object_of, ExplainsMake};

use crate::fault::MakeFault;
use std::alloc::Global;
use swh_base::{Kind, Namer};
use swh_object::{Object, ObjectFault};

/// A copy of an id, of which contracts then know that it has twenty bytes.
pub fn whole_id(id: &[u8; 20]) -> [u8; 20]
    ensures same { result ≡ id.now }
    ensures id { IsId result }
{
    let bytes = id.as_slice();
    let _length = bytes.len();
    *id
}

/// The object of a body of its kind, unless the body is above the limit.
pub fn make_object<N: Namer>(
    alloc: Global,
    namer: &N,
    kind: Kind,
    body: Vec<u8>,
) -> Result<Object<N>, MakeFault>
    requires { IsWellFormed kind body.items }
    ensures ok { IfOk result (λ o. made_from o ≡ object_of kind body.items) }
    ensures object { IfOk result (IsObject N.id_of) }
    ensures err { IfErr result (ExplainsMake body.items) }
{
    match Object::make(alloc, namer, kind, body) {
        Ok(object) => {
            let _name = object.name();
            Ok(object)
        }
        Err(ObjectFault::TooLong { len }) => Err(MakeFault::TooLong { len }),
        Err(ObjectFault::BadBody { at: _ }) => unreachable!(),
        Err(ObjectFault::Memory) => Err(MakeFault::Memory),
    }
}
