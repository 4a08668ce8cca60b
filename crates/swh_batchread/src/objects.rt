//! The objects of a batch (git-cat-file(1), batch output).
ghost use Rattle.std.specs.Prelude.{◌≡◌, ◌≤◌, ◌<◌, ℕ, [], IfOk, IfErr, IfSome, IfNone, OnOk, length};
ghost use Rattle.std.specs.List.{AllByRecursion};
ghost use Rattle.swh_base.specs.Limits.{body_limit};
ghost use Rattle.swh_outside.specs.Views.{sources};
ghost use Rattle.swh_object.specs.Object.{IsObject};
ghost use Rattle.swh_fastlex.specs.Line.{unread, IsAtEnd};
ghost use Rattle.swh_dedup.specs.Making.{made_from, made};
ghost use Rattle.swh_fastlex.specs.ReadOn.{IsReadOn};
ghost use Rattle.swh_batchread.specs.declared.fault.BatchFault.TheVariants.{ReadFault as NotRead};
ghost use Rattle.swh_batchread.specs.BatchFault.{
  ObjectBreaks,
  BreaksHere,
  BreaksBatch,
  MayBreakBatch,
  MeansLeft,
  ExplainsBatch,
};
ghost use Rattle.swh_batchread.specs.Batch.{MeansObjects};
ghost use Rattle.swh_batchread.specs.Failing.{Fails};
ghost use Rattle.swh_batchread.specs.Parts.{TakesObject, Keeps};

use crate::fault::BatchFault;
use crate::header::Header;
use crate::limits::INPUT_LIMIT;
use crate::parts::{next_body, next_header};
use std::alloc::Global;
use swh_base::{Memory, Namer};
use swh_dedup::{Novelty, Seen};
use swh_fastlex::Window;
use swh_object::{Object, ObjectFault};
use swh_outside::Source;

/// The object of a header that begins at `start` and of a body. The body is not copied.
fn named_object<N: Namer>(
    alloc: Global,
    namer: &N,
    start: u64,
    header: &Header,
    body: Vec<u8>,
) -> Result<Object<N>, BatchFault>
    requires start { start ≤ INPUT_LIMIT }
    requires short { length body.items ≤ body_limit }
    ensures made { IfOk result (λ o. made_from o ≡ record { kind = header.now.kind; body = body.items }) }
    ensures object { IfOk result (IsObject N.id_of) }
    ensures named { IfOk result (λ _. header.now.id ≡ N.id_of header.now.kind body.items) }
    ensures err { (faults : ℕ) → IfErr result (Fails (Unit {0}) MayBreakBatch
        (ObjectBreaks N.id_of start header.now body.items) faults faults) }
{
    let object = match Object::make(alloc, namer, header.kind, body) {
        Ok(object) => object,
        Err(ObjectFault::TooLong { len: _ }) => unreachable!(),
        Err(ObjectFault::BadBody { at: _ }) => return Err(BatchFault::BadBatch { at: start }),
        Err(ObjectFault::Memory) => return Err(BatchFault::Memory),
    };
    let got = object.name().id;
    let given = header.id;
    if got == given {
        Ok(object)
    } else {
        Err(BatchFault::WrongName { given, got })
    }
}

/// The next object; none where nothing is to be read.
pub fn next_object<N: Namer, S: Source>(
    alloc: Global,
    namer: &N,
    window: &mut Window,
    source: &mut S,
) -> Result<Option<Object<N>>, BatchFault>
    requires { window.old.place ≤ INPUT_LIMIT }
    ensures object { IfOk result (λ found. IfSome found (IsObject N.id_of)) }
    ensures onward { IfOk result (λ found. IfSome found (λ _. window.old.place < window.new.place)) }
    ensures within { IfOk result (λ found. IfSome found (λ _. window.new.place ≤ INPUT_LIMIT)) }
    ensures taken { S.tells → IfOk result (λ found. IfSome found (λ o. TakesObject N.id_of window.old window.new
        (S.left source.old) (S.left source.new) (made_from o))) }
    ensures none { S.tells → IfOk result (λ found. IfNone found (IsAtEnd window.old window.new
        (S.left source.old) (S.left source.new))) }
    ensures err { IfErr result (Fails S.tells MayBreakBatch
        (BreaksHere N.id_of window.old.place (unread window.old (S.left source.old)))
        (S.faults source.old) (S.faults source.new)) }

    ensures on { IsReadOn S.path S.faults source.old source.new NotRead result }
{
    let start = window.place();
    let Some(header) = next_header(alloc, window, source)? else {
        return Ok(None);
    };
    let body = next_body(alloc, window, source, start, header.size)?;
    let object = named_object(alloc, namer, start, &header, body)?;
    Ok(Some(object))
}

/// Adds an object at the end, where none of its kind and body was met.
fn keep<N: Namer>(
    alloc: Global,
    seen: &mut Seen<N>,
    object: Object<N>,
    objects: &mut Vec<Object<N>>,
) -> Result<(), Memory>
    requires same { made objects.old.items ≡ seen.old }
    requires good { AllByRecursion (IsObject N.id_of) objects.old.items }
    requires object { IsObject N.id_of object }
    ensures keeps { OnOk result (Keeps seen.old (made_from object) seen.new) }
    ensures same { OnOk result (made objects.new.items ≡ seen.new) }
    ensures good { OnOk result (AllByRecursion (IsObject N.id_of) objects.new.items) }
{
    match seen.add(alloc, &object)? {
        Novelty::New => {
            objects.push(object)?;
            Ok(())
        }
        Novelty::Known => Ok(()),
    }
}

/// The objects that are to be read through a window.
fn read_objects<N: Namer, S: Source>(
    alloc: Global,
    namer: &N,
    window: &mut Window,
    source: &mut S,
) -> Result<Vec<Object<N>>, BatchFault>
    requires empty { window.old.bytes ≡ [] }
    requires first { window.old.place ≡ 0 }
    ensures good { IfOk result (λ os. AllByRecursion (IsObject N.id_of) os.items) }
    ensures means { S.tells → IfOk result (λ os. MeansObjects N.id_of (S.left source.old) (made os.items)) }
    ensures read { S.tells → IfOk result (λ _. S.left source.new ≡ []) }
    ensures err { IfErr result (Fails S.tells MayBreakBatch (BreaksBatch N.id_of (S.left source.old))
        (S.faults source.old) (S.faults source.new)) }

    ensures on { IsReadOn S.path S.faults source.old source.new NotRead result }
{
    let mut seen = Seen::new(alloc);
    let mut objects = Vec::new(alloc);
    'objects: loop {
        let Some(object) = next_object(alloc, namer, window, source)? else {
            return Ok(objects);
        };
        keep(alloc, &mut seen, object, &mut objects)?;
    }
}

/// The objects of what is left of a source (git-cat-file(1), batch output), in its order, each kind and body once. Two
/// bodies of one name are both kept. The whole source is read, a window at a time, and each body is copied once.
///
/// # Errors
///
/// `BadBatch` at the first byte of the first header whose object breaks: its header, its body, the LF behind it or the grammar
/// of its kind; `WrongName` where that is good, and its id is another one; `Limit` where a body is above 67,108,864
/// bytes, of which none is read, or the batch above 4,294,967,296; `ReadFault` where the source fails, and `Memory`.
/// What is left of the source after a refusal is not promised.
pub fn read_batch<N: Namer, S: Source>(
    alloc: Global,
    namer: &N,
    source: &mut S,
) -> Result<Vec<Object<N>>, BatchFault>
    // What is left of the source means these objects.
    ensures ok { IfOk result (λ os. MeansLeft N.id_of (sources S.tells S.left S.faults S.path) source.old
        (made os.items)) }
    ensures good { IfOk result (λ os. AllByRecursion (IsObject N.id_of) os.items) }
    // All of it was read.
    ensures read { S.tells → IfOk result (λ _. S.left source.new ≡ []) }
    // A batch that is refused breaks so, or the source failed.
    ensures err { IfErr result (ExplainsBatch N.id_of (sources S.tells S.left S.faults S.path) source.old source.new) }

    ensures on { IsReadOn S.path S.faults source.old source.new NotRead result }
{
    let mut window = Window::new(alloc)?;
    read_objects(alloc, namer, &mut window, source)
}
