//! A batch with its refs that is read part by part (git-cat-file(1), batch output; git-show-ref(1)).
ghost use Rattle.std.specs.Prelude.{◌≡◌, ◌<◌, ◌≤◌, ◌++◌, ◌∷◌, [], ℕ, List, IfOk, IfErr};
ghost use Rattle.std.specs.List.{AllByRecursion};
ghost use Rattle.swh_base.specs.declared.entry.Entry.{Entry};
ghost use Rattle.swh_object.specs.Object.{IsObject};
ghost use Rattle.swh_outside.specs.Views.{sources};
ghost use Rattle.swh_dedup.specs.Making.{made, made_from};
ghost use Rattle.swh_fastlex.specs.ReadOn.{IsReadOn};
ghost use Rattle.swh_batchread.specs.declared.fault.BatchFault.TheVariants.{ReadFault as NotRead};
ghost use Rattle.swh_batchread.specs.Giving.{BreaksOff, GivesNext, GoesOn, HasGiven, IfMore, IsAtStart, IsPart};
ghost use Rattle.swh_batchread.specs.Refs.{MeansRefs};
ghost use Rattle.swh_batchread.specs.RefsFault.{ExplainsRefs};
ghost use Rattle.swh_batchread.specs.RefSteps.{IsWholeWith, KnowsObjects, knowing};

use crate::fault::BatchFault;
use crate::limits::INPUT_LIMIT;
use crate::names::{Known, add_object, no_objects};
use crate::objects::next_object;
use crate::snapshot::read_snapshot;
use std::alloc::Global;
use std::marker::Model;
use swh_base::{Memory, Name, Namer, Shared};
use swh_dedup::{Novelty, Objects, Seen};
use swh_fastlex::Window;
use swh_object::Object;
use swh_outside::Source;

/// What a batch with its refs gives next.
#[derive(Drop)]
pub enum BatchPart<N: Namer> {
    /// The next object, or none where one of its kind and body was given; with more of the batch behind it.
    More(Vec<Object<N>>),
    /// The snapshot of the refs, at the end of the batch.
    Last(Objects<N>),
}

/// What is kept of the objects that were given: their bodies, or equal ones that were lent to be shared, and what is known of
/// them.
#[derive(Drop)]
pub struct Stock<N: Namer> {
    pub seen: Seen<N>,
    pub known: Known,
}

/// A batch that is read part by part, whose sources are handed in at each part. Contracts see where its reader stands, and
/// what is kept.
#[derive(Drop)]
pub struct BatchParts<N: Namer> {
    window: Window,
    stock: Stock<N>,
}

impl<N: Namer> Model for BatchParts<N> {
    ghost use Rattle.swh_batchread.specs.Giving.{BatchState};

    ghost Value = { BatchState };

    ghost use Rattle.swh_batchread.specs.RefSteps.{knowing};

    ghost view = { λ p. record { held = p.window; kept = p.stock.seen; known = knowing p.stock.known } };
}

/// Keeps an object where none of its kind and body was given, and gives it out then.
fn give<N: Namer>(
    alloc: Global,
    stock: &mut Stock<N>,
    object: Object<N>,
) -> Result<Vec<Object<N>>, Memory>
    requires { IsObject N.id_of object }
    ensures { (given : List Entry) → HasGiven N.id_of given stock.old.seen (knowing stock.old.known)
        → IfOk result (λ part. IsPart N.id_of given (made_from object) part.items stock.new.seen (knowing stock.new.known)) }
{
    let mut part = Vec::new(alloc);
    match stock.seen.add(alloc, &object)? {
        Novelty::New => {
            add_object(&mut stock.known, &object)?;
            part.push(object)?;
            Ok(part)
        }
        Novelty::Known => Ok(part),
    }
}

/// The snapshot of the refs that a source has left, as the last part.
fn last_part<N: Namer, S: Source>(
    alloc: Global,
    namer: &N,
    known: &Known,
    refs: &mut S,
) -> Result<Objects<N>, BatchFault>
    ensures ok { S.tells → (given : List Entry) → KnowsObjects given (knowing known.now)
        → IfOk result (λ last. MeansRefs (S.left refs.old) given (given ++ last.objects.items) last.snapshot) }
    ensures whole { (given : List Entry) → KnowsObjects given (knowing known.now) → AllByRecursion (IsObject N.id_of) given
        → IfOk result (λ last. IsWholeWith N.id_of (given ++ last.objects.items) last.snapshot) }
    ensures read { S.tells → IfOk result (λ _. S.left refs.new ≡ []) }
    ensures err { (given : List Entry) → KnowsObjects given (knowing known.now)
        → IfErr result (ExplainsRefs (sources S.tells S.left S.faults S.path) refs.old given refs.new) }

    ensures on { IsReadOn S.path S.faults refs.old refs.new NotRead result }
{
    let snapshot = read_snapshot(alloc, namer, refs, known)?;
    let id = snapshot.name().id;
    let mut objects = Vec::new(alloc);
    objects.push(snapshot)?;
    Ok(Objects {
        objects,
        snapshot: id,
    })
}

/// The next part of a batch.
fn next_part<N: Namer, S: Source>(
    alloc: Global,
    namer: &N,
    window: &mut Window,
    stock: &mut Stock<N>,
    objects: &mut S,
    refs: &mut S,
) -> Result<BatchPart<N>, BatchFault>
    requires { window.old.place ≤ INPUT_LIMIT }
    ensures given { (source : _) (others : _) (given : List Entry)
        → GoesOn N.id_of (sources S.tells S.left S.faults S.path) source others given
        (record { held = window.old; kept = stock.old.seen; known = knowing stock.old.known }) objects.old refs.old
        → IfOk result (GivesNext N.id_of (sources S.tells S.left S.faults S.path) source others given
        (record { held = window.new; kept = stock.new.seen; known = knowing stock.new.known }) objects.new refs.new) }
    ensures err { (source : _) (others : _) (given : List Entry)
        → GoesOn N.id_of (sources S.tells S.left S.faults S.path) source others given
        (record { held = window.old; kept = stock.old.seen; known = knowing stock.old.known }) objects.old refs.old
        → IfErr result (BreaksOff N.id_of (sources S.tells S.left S.faults S.path) source others given
        objects.new refs.new) }
    ensures onward { IfOk result (λ part. IfMore part (window.old.place < window.new.place)) }
    ensures within { IfOk result (λ part. IfMore part (window.new.place ≤ INPUT_LIMIT)) }
    ensures same_path { S.path objects.new ≡ S.path objects.old }
    ensures same_refs_path { S.path refs.new ≡ S.path refs.old }
    ensures later { S.faults objects.old ≤ S.faults objects.new }
    ensures later_refs { S.faults refs.old ≤ S.faults refs.new }
{
    let object = match next_object(alloc, namer, window, objects) {
        Ok(Some(object)) => object,
        Ok(None) => {
            return match last_part(alloc, namer, &stock.known, refs) {
                Ok(last) => Ok(BatchPart::Last(last)),
                Err(fault) => Err(fault),
            };
        }
        Err(fault) => return Err(fault),
    };
    match give(alloc, stock, object) {
        Ok(part) => Ok(BatchPart::More(part)),
        Err(fault) => Err(fault.into()),
    }
}

impl<N: Namer> BatchParts<N> {
    /// A batch that is read through a window that holds nothing.
    pub fn new(alloc: Global, window: Window) -> BatchParts<N>
        requires empty { window.bytes ≡ [] }
        requires first { window.place ≡ 0 }
        ensures { IsAtStart N.id_of result }
    {
        let stock = Stock {
            seen: Seen::new(alloc),
            known: no_objects(alloc),
        };
        BatchParts { window, stock }
    }

    /// The next part of the batch that a source has left, and of the refs that another has left, which are read behind its
    /// end. Both are handed in at each part.
    ///
    /// # Errors
    ///
    /// Those of `read_batch`, and then those of `read_refs`. What was given before are the objects before the first that
    /// breaks.
    pub fn next<S: Source>(
        &mut self,
        alloc: Global,
        namer: &N,
        objects: &mut S,
        refs: &mut S,
    ) -> Result<BatchPart<N>, BatchFault>
        requires { self.old.held.place ≤ INPUT_LIMIT }
        ensures given { (source : _) (others : _) (given : List Entry)
            → GoesOn N.id_of (sources S.tells S.left S.faults S.path) source others given self.old objects.old refs.old
            → IfOk result (GivesNext N.id_of (sources S.tells S.left S.faults S.path) source others given
            self.new objects.new refs.new) }
        ensures err { (source : _) (others : _) (given : List Entry)
            → GoesOn N.id_of (sources S.tells S.left S.faults S.path) source others given self.old objects.old refs.old
            → IfErr result (BreaksOff N.id_of (sources S.tells S.left S.faults S.path) source others given
            objects.new refs.new) }
        // Each part takes the reader on, up to the limit.
        ensures onward { IfOk result (λ part. IfMore part (self.old.held.place < self.new.held.place)) }
        ensures within { IfOk result (λ part. IfMore part (self.new.held.place ≤ INPUT_LIMIT)) }
        ensures same_path { S.path objects.new ≡ S.path objects.old }
        ensures same_refs_path { S.path refs.new ≡ S.path refs.old }
        ensures later { S.faults objects.old ≤ S.faults objects.new }
        ensures later_refs { S.faults refs.old ≤ S.faults refs.new }
    {
        next_part(
            alloc,
            namer,
            &mut self.window,
            &mut self.stock,
            objects,
            refs,
        )
    }

    /// Where an object of this name and body was given, this body is kept in place of its own. Nothing else changes.
    pub fn share(&mut self, name: &Name, body: Shared<u8>)
        ensures { self.new ≡ self.old }
    {
        self.stock.seen.share(name, body);
    }
}
