// A batch with its refs, read part by part.
ghost use Rattle.std.specs.Prelude.{◌≡◌, ◌≤◌, ℕ, List, IfOk};
ghost use Rattle.swh_base.specs.declared.entry.Entry.{Entry};
ghost use Rattle.swh_outside.specs.Views.{sources};
ghost use Rattle.swh_batchread.specs.Giving.{GoesOn};
ghost use Rattle.swh_ingest.specs.Parts.{IsMore};
ghost use Rattle.swh_inputs.specs.Batching.{AreQuiet, BatchCameOn, BatchMayGoOn, IsNextOfBatch};
ghost use Rattle.swh_inputs.specs.Parts.{IsSameSource};
ghost use Rattle.swh_inputs.specs.Reading.{IsReadFault};

use crate::bad::InputFault;
use crate::reading::fault_of_batch;
use std::alloc::Global;
use swh_base::{Memory, Namer};
use swh_batchread::{BatchPart, BatchParts};
use swh_ingest::{Next, SaidOfParts};
use swh_outside::Source;

/// A batch with its refs that is read part by part, and the sources that have what is left of the two.
#[derive(Drop)]
pub struct BatchInput<'a, 'b, N: Namer, S: Source> {
    pub parts: BatchParts<N>,
    pub objects: &'a mut S,
    pub refs: &'b mut S,
}

/// What is said of a batch that is read part by part: it may be read on as long as its reader stands within the limit, and each
/// part takes the reader on.
#[derive(Clone, Copy, Debug)]
pub struct BatchByParts;

impl<'a, 'b, N: Namer, S: Source> SaidOfParts<BatchInput<'a, 'b, N, S>> for BatchByParts {
    ghost use Rattle.std.specs.Prelude.{◌-◌, ◌+◌};
    ghost use Rattle.swh_batchread.specs.Batch.{input_limit};
    ghost use Rattle.swh_inputs.specs.Batching.{BatchMayGoOn};

    ghost ready = { λ i. BatchMayGoOn i.parts };

    ghost left = { λ i. input_limit + 1 - i.parts.held.place };
}

/// What comes next of a batch with its refs: its next object, its snapshot, or how it breaks. Of want of memory nothing is
/// said.
pub fn next_of_batch<N: Namer, S: Source>(
    alloc: Global,
    namer: &N,
    input: &mut BatchInput<N, S>,
) -> Result<Next<N, InputFault>, Memory>
    requires { BatchMayGoOn input.old.parts }
    ensures given { (source : _) (others : _) (given : List Entry)
        → GoesOn N.id_of (sources S.tells S.left S.faults S.path) source others given
        input.old.parts input.old.objects.now input.old.refs.now
        → IfOk result (IsNextOfBatch N.id_of (sources S.tells S.left S.faults S.path) source others given
        input.new.parts input.new.objects.now input.new.refs.now) }
    // Nothing fails unheard: where it is not told that a source failed, none did.
    ensures quiet { (source : _) (others : _) (given : List Entry)
        → GoesOn N.id_of (sources S.tells S.left S.faults S.path) source others given
        input.old.parts input.old.objects.now input.old.refs.now
        → (IsReadFault result → ⊥) → AreQuiet (sources S.tells S.left S.faults S.path) source others
        input.new.objects.now input.new.refs.now }
    ensures on { IfOk result (λ next. IsMore next → BatchCameOn input.old.parts input.new.parts) }
    ensures same_reference { input.new.objects.ghost_name ≡ input.old.objects.ghost_name }
    ensures same_refs_reference { input.new.refs.ghost_name ≡ input.old.refs.ghost_name }
    ensures same { IsSameSource (sources S.tells S.left S.faults S.path) input.old.objects.now input.new.objects.now }
    ensures same_refs { IsSameSource (sources S.tells S.left S.faults S.path) input.old.refs.now input.new.refs.now }
{
    match input.parts.next(alloc, namer, input.objects, input.refs) {
        Ok(BatchPart::More(objects)) => Ok(Next::Part(objects)),
        Ok(BatchPart::Last(last)) => Ok(Next::Last(last)),
        Err(fault) => Ok(Next::Bad(fault_of_batch(fault)?)),
    }
}
