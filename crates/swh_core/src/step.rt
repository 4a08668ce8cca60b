//! What may be done with a world, and what is told of it.
use std::alloc::AllocError;
use swh_base::{Bytes, Memory};
use swh_model::{No, Outcome, Wish};

/// Which showing of events is refused.
#[derive(Clone, Copy, Debug)]
pub enum Held {
    /// None.
    No,
    /// That of the events that wait from before. Where none waits it is `No`.
    Older,
    /// That of the wish's own event.
    Newest,
}

/// One step. Actors are numbered from 0.
#[derive(Drop)]
pub enum Step {
    /// An actor's wish is judged, its event made durable, and shown.
    Apply {
        actor: u32,
        wish: Wish,
        held: Held,
    },
    /// An actor sees what is shown.
    Look {
        actor: u32,
    },
    /// An actor's wish is judged, and the device call of this number, from 1, fails: those before it are made. Where the
    /// event has fewer calls, all are made.
    Fault {
        actor: u32,
        wish: Wish,
        call: u32,
    },
    /// All stops where so many device calls of an actor's wish were made, or none is in flight, and leaves these bytes of
    /// the two files. What is left is opened.
    Crash {
        flight: Option<(u32, Wish, u32)>,
        store: Bytes,
        ledger: Bytes,
    },
}

/// What is told of a step. Events are numbered from 1.
#[derive(Clone, Copy, Debug)]
pub enum Told {
    /// The event happened, and the actor has seen it.
    Done(Outcome),
    /// The event happened, and waits to be shown.
    Waits { event: u64 },
    /// Nothing was done, since the events that wait could not be shown.
    Untaken,
    /// The first cause against the wish.
    No(No),
    /// Nothing was done, since an event is in doubt.
    Wounded,
    /// So many events are shown.
    Front { front: u64 },
    /// The event may have happened, or not.
    Doubt { event: u64 },
    /// What the crash left stands for so many events.
    Opened { events: u64 },
}

/// Why a step was not taken. The world is as it was.
#[derive(Clone, Copy, Debug)]
pub enum StepFault {
    /// No crash may leave these bytes of this file: 0 is the ledger, 1 the store.
    NotImage { file: u32 },
    /// Memory ran out.
    Memory,
}

impl From<AllocError> for StepFault {
    ghost use Rattle.std.specs.Prelude.{◌≡◌};
    ghost use Rattle.swh_core.specs.declared.step.StepFault.TheVariants.{Memory as OutOfMemory};

    ghost from_gives = { λ _ e. e ≡ OutOfMemory };

    fn from(_e: AllocError) -> StepFault {
        StepFault::Memory
    }
}

impl From<Memory> for StepFault {
    ghost use Rattle.std.specs.Prelude.{◌≡◌};
    ghost use Rattle.swh_core.specs.declared.step.StepFault.TheVariants.{Memory as OutOfMemory};

    ghost from_gives = { λ _ e. e ≡ OutOfMemory };

    fn from(_e: Memory) -> StepFault {
        StepFault::Memory
    }
}
