//! Objects of a stream, made and given out where they are new.
ghost use Rattle.std.specs.Prelude.{◌≡◌, IfOk, IfErr};
ghost use Rattle.swh_base.specs.Manifest.{IsWellFormed};
ghost use Rattle.swh_object.specs.Object.{IsObject};
ghost use Rattle.swh_dedup.specs.Making.{made_from, object_of, HaveIds};
ghost use Rattle.swh_dedup.specs.Giving.{IsReady};
ghost use Rattle.swh_fastmeaning.specs.Stock.{GivesOwn};
ghost use Rattle.swh_fastmeaning.specs.Tips.{aim_of};
ghost use Rattle.swh_fastmeaning.specs.Parting.{ExplainsBody};

use crate::aims::Target;
use crate::feed_fault::FeedFault;
use std::alloc::Global;
use swh_base::{Kind, Namer, Which};
use swh_dedup::{MakeFault, Seen, give_all, make_object};
use swh_object::Object;
use swh_trees::Tree;

/// The object of a body of its kind, or why its command is refused: the body is above the limit.
pub fn make_or_refuse<N: Namer>(
    alloc: Global,
    namer: &N,
    kind: Kind,
    body: Vec<u8>,
) -> Result<Object<N>, FeedFault>
    requires { IsWellFormed kind body.items }
    ensures ok { IfOk result (λ o. made_from o ≡ object_of kind body.items) }
    ensures object { IfOk result (IsObject N.id_of) }
    ensures err { IfErr result (ExplainsBody body.items) }
{
    match make_object(alloc, namer, kind, body) {
        Ok(object) => Ok(object),
        Err(MakeFault::TooLong { len }) => Err(FeedFault::Limit {
            which: Which::Body,
            number: len,
        }),
        Err(MakeFault::Memory) => Err(FeedFault::Memory),
    }
}

/// Makes the object of a body of its kind and gives it out where it is new. Answers what a mark of it leads to, too.
pub fn give_own<N: Namer>(
    alloc: Global,
    namer: &N,
    seen: &mut Seen<N>,
    kind: Kind,
    body: Vec<u8>,
) -> Result<(Target, Vec<Object<N>>), FeedFault>
    requires body { IsWellFormed kind body.items }
    requires ids { HaveIds N.id_of seen.old }
    requires ready { IsReady N.id_of seen.old (object_of kind body.items) }
    ensures ok { IfOk result (λ r. GivesOwn N.id_of (object_of kind body.items) seen.old seen.new (aim_of r.0) r.1.items) }
    ensures err { IfErr result (ExplainsBody body.items) }
{
    let object = make_or_refuse(alloc, namer, kind, body)?;
    let target = Target {
        name: object.name(),
        tree: Tree::empty(),
    };
    let objects = give_all(alloc, seen, vec![in alloc; object]?)?;
    Ok((target, objects))
}
