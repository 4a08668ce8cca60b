//! All parts of the outside that a run may use, and what contracts see of them.
ghost use Rattle.swh_exit.specs.Seen.{Span};

use swh_base::Namer;
use swh_outside::{Clock, Depot, Doors, Gate, Origins, Sink, Yard};

/// All parts of the outside that a run may use: the namer, the depot of archives, the desk with the job file and the
/// files and folders to be named, the inputs of jobs, the yard, the sink for all that is printed, the clock, the doors and the
/// gate.
#[derive(Drop)]
pub struct Outside<N: Namer, P: Depot, O: Origins, Y: Yard, K: Sink, C: Clock, D: Doors, G: Gate> {
    pub namer: N,
    pub depot: P,
    pub desk: O,
    pub origins: O,
    pub yard: Y,
    pub sink: K,
    pub clock: C,
    pub doors: D,
    pub gate: G,
}

/// What contracts see of the outside before a call and after it.
pub trait Shown {
    ghost span: { Self → Self → Span };
}

impl<N: Namer, P: Depot, O: Origins, Y: Yard, K: Sink, C: Clock, D: Doors, G: Gate> Shown
    for Outside<N, P, O, Y, K, C, D, G> {
    ghost use Rattle.std.specs.Prelude.{◌≡◌};
    ghost use Rattle.swh_exit.specs.Seen.{Seen, Span};

    ghost span = { λ old new.
        let seen : _ → Seen = λ w. record {
          depot = record { files = P.files w.depot; faults = P.faults w.depot };
          desk = record {
            file_at = O.file_at w.desk;
            folder_at = O.folder_at w.desk;
            path_faults = O.path_faults w.desk;
            faults = O.faults w.desk;
          };
          origins = record {
            file_at = O.file_at w.origins;
            folder_at = O.folder_at w.origins;
            path_faults = O.path_faults w.origins;
            faults = O.faults w.origins;
          };
          yard = record { begun = Y.Sink.begun w.yard; taken = Y.Sink.taken w.yard; faults = Y.Sink.faults w.yard };
          sink = record { taken = K.taken w.sink; faults = K.faults w.sink };
          clock = record { time = C.time w.clock; faults = C.faults w.clock };
          doors = record { faults = D.faults w.doors };
        } in
        record {
          id_of = N.id_of;
          told = record { depot = P.tells; origins = O.tells; yard = Y.Sink.tells; sink = K.tells; clock = C.tells };
          old = seen old;
          new = seen new;
          same = record {
            namer = new.namer ≡ old.namer;
            depot = new.depot ≡ old.depot;
            desk = new.desk ≡ old.desk;
            origins = new.origins ≡ old.origins;
            yard = new.yard ≡ old.yard;
            sink = new.sink ≡ old.sink;
            clock = new.clock ≡ old.clock;
            doors = new.doors ≡ old.doors;
            gate = new.gate ≡ old.gate;
          };
        } };
}
