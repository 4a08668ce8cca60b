// A stream, read part by part.
ghost use Rattle.std.specs.Prelude.{◌≡◌, ◌≤◌, ◌^◌, ℕ, List, IfOk, IfSome};
ghost use Rattle.swh_base.specs.Text.{IsRef};
ghost use Rattle.swh_base.specs.declared.entry.Entry.{Entry};
ghost use Rattle.swh_fastload.specs.Giving.{GoesOn};
ghost use Rattle.swh_ingest.specs.Parts.{IsMore};
ghost use Rattle.swh_inputs.specs.Reading.{IsReadFault};
ghost use Rattle.swh_inputs.specs.Streaming.{CameOn, IsNextOf};

use crate::bad::InputFault;
use crate::reading::{fault_of_stream, head_of};
use std::alloc::Global;
use swh_base::{Bytes, Memory, Namer};
use swh_fastload::{StreamPart, StreamParts};
use swh_ingest::{Next, SaidOfParts};
use swh_outside::Source;

/// What is said of a stream that is read part by part: it may be read on as long as its reader is open, and each part takes the
/// reader on.
#[derive(Clone, Copy, Debug)]
pub struct StreamByParts;

impl<N: Namer, S: Source> SaidOfParts<StreamParts<N, S>> for StreamByParts {
    ghost use Rattle.std.specs.Prelude.{◌-◌, ◌^◌};
    ghost use Rattle.swh_inputs.specs.Streaming.{MayGoOn};

    ghost ready = { λ p. MayGoOn p };

    ghost left = { λ p. 2 ^ 34 - p.standing.place.at };
}

/// What comes next of a stream for which this head is named, or none: what its next command makes, its snapshot, or how it breaks.
/// Of want of memory nothing is said.
pub fn next_of_stream<N: Namer, S: Source>(
    alloc: Global,
    parts: &mut StreamParts<N, S>,
    head: &Option<Bytes>,
) -> Result<Next<N, InputFault>, Memory>
    requires { IfSome head.now IsRef }
    ensures given { (text : List ℕ) (faults : ℕ) (path : List ℕ) (given : List Entry)
        → GoesOn N.id_of S.tells text faults path given parts.old
        → IfOk result (IsNextOf N.id_of S.tells head.now text faults path given parts.new) }
    // Nothing fails unheard: where it is not told that the source failed, it did not.
    ensures quiet { (IsReadFault result → ⊥)
        → parts.new.standing.place.faults ≡ parts.old.standing.place.faults }
    ensures on { IfOk result (λ next. IsMore next → CameOn parts.old parts.new) }
    ensures within { parts.old.standing.place.at ≤ 2 ^ 33 }
    ensures same_path { parts.new.standing.place.path ≡ parts.old.standing.place.path }
    ensures later { parts.old.standing.place.faults ≤ parts.new.standing.place.faults }
{
    match parts.next(alloc, head_of(head)) {
        Ok(StreamPart::More(objects)) => Ok(Next::Part(objects)),
        Ok(StreamPart::Last(last)) => Ok(Next::Last(last)),
        Err(fault) => Ok(Next::Bad(fault_of_stream(fault)?)),
    }
}
