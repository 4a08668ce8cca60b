//! The contents that the changes of a commit bring with them (git-fast-import(1), filemodify, inline data).
ghost use Rattle.std.specs.Prelude.{◌≡◌, ◌++◌, ◌∷◌, [], List, IfOk, OnOk};
ghost use Rattle.swh_base.specs.declared.kind.Kind.TheVariants.{Content as ContentKind};
ghost use Rattle.swh_object.specs.Object.{IsObject};
ghost use Rattle.swh_model.specs.Meaning.{Made, content};
ghost use Rattle.swh_fastmeaning.specs.Changes.{HoldsContents};

use std::alloc::Global;
use swh_base::{Kind, Memory, Namer};
use swh_object::{Object, ObjectFault};

/// Contents in the order of making. Where the body of one is above the limit, the length of the first such is kept and no
/// further object is made.
#[derive(Drop)]
pub struct Contents<N: Namer> {
    pub objects: Vec<Object<N>>,
    pub over: Option<u64>,
}

impl<N: Namer> Contents<N> {
    /// None yet.
    pub fn new(alloc: Global) -> Contents<N>
        ensures { HoldsContents [] result.objects.items result.over }
    {
        Contents {
            objects: Vec::new(alloc),
            over: None,
        }
    }
}

/// Adds a content and answers its id, which is not named again.
fn keep<N: Namer>(object: Object<N>, contents: &mut Contents<N>) -> Result<[u8; 20], Memory>
    ensures id { IfOk result (λ id. id ≡ object.name.id) }
    ensures named { IsObject N.id_of object }
    ensures objects { OnOk result (contents.new.objects.items ≡ contents.old.objects.items ++ object ∷ []) }
    ensures over { contents.new.over ≡ contents.old.over }
{
    let id = object.name().id;
    contents.objects.push(object)?;
    Ok(id)
}

/// Adds the content of these bytes, while none before is above the limit, and answers its id.
pub fn add_content<N: Namer>(
    alloc: Global,
    namer: &N,
    bytes: &[u8],
    contents: &mut Contents<N>,
) -> Result<[u8; 20], Memory>
    ensures id { IfOk result (λ id. id ≡ N.id_of ContentKind bytes.now) }
    ensures holds { (ms : List Made) → HoldsContents ms contents.old.objects.items contents.old.over
        → OnOk result (HoldsContents (ms ++ content bytes.now ∷ []) contents.new.objects.items contents.new.over) }
{
    if contents.over.is_some() {
        return Ok(namer.id(Kind::Content, bytes));
    }
    let body = Vec::from_slice(alloc, bytes)?;
    match Object::make(alloc, namer, Kind::Content, body) {
        Ok(object) => keep(object, contents),
        Err(ObjectFault::TooLong { len }) => {
            contents.over = Some(len);
            Ok(namer.id(Kind::Content, bytes))
        }
        Err(ObjectFault::BadBody { at: _ }) => unreachable!(),
        Err(ObjectFault::Memory) => Err(Memory),
    }
}
