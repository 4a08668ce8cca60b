// The start of the program.
ghost use Rattle.std.specs.Prelude.{◌≡◌, ◌⊎◌, map, string_bytes};
ghost use Rattle.swh_exit.specs.Run.{ComesTo, IsStatus};
ghost use Rattle.swh_program.specs.Run.{IsNoCommand};

use crate::End;
use crate::parts::parts_for;
use std::alloc::Global;
use swh_base::Sha1Namer;
use swh_exit::{Answer, tell};
use swh_outside::Sink;
use swh_program::{Outside, run};
use swh_real::RealGate;

/// Runs the program on the words after its name: over the files of the system and its clock, with all that it prints
/// put to the sink.
pub fn start<K: Sink + Drop>(rt: &HostRuntime, alloc: Global, words: &[String], sink: K) -> End
    ensures status { IsStatus result }
    ensures refused { IsNoCommand (map string_bytes words.now) → ComesTo 2 result }
{
    let Ok(parts) = parts_for(rt, alloc, words) else {
        return end_without_memory(sink);
    };
    let mut world = Outside {
        namer: Sha1Namer,
        depot: parts.depot,
        desk: parts.desk,
        origins: parts.origins,
        yard: parts.yard,
        sink,
        clock: parts.clock,
        doors: parts.doors,
        gate: RealGate,
    };
    End::with(run(rt, alloc, words, &mut world))
}

/// The end of a run for which there is no memory, which is put to the sink.
pub fn end_without_memory<K: Sink + Drop>(sink: K) -> End
    ensures { (result ≡ 4) ⊎ (result ≡ 5) }
{
    let mut sink = sink;
    End::with(tell(&mut sink, &Answer::Memory))
}
