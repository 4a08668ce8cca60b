//! Steps as values that tables hold, of a world with three actors.
ghost use Rattle.std.specs.Prelude.{◌<◌, IfOk};
ghost use Rattle.swh_core.specs.Step.{IsMeant};

use crate::wished::{Wished, wish_of};
use std::alloc::Global;
use std::test::Fail;
use swh_base::{Bytes, Namer};
use swh_core::{Held, Step};

/// How many actors the worlds of these tests have.
pub const ACTORS: u32 = 3;

/// A step by an actor of a number. A crash leaves these bytes of the store and of the ledger.
#[derive(Clone, Copy)]
pub enum Doing<'a> {
    Apply(u32, Wished, Held),
    Look(u32),
    Fault(u32, Wished, u32),
    Crash(Option<(u32, Wished, u32)>, &'a [u8], &'a [u8]),
}

/// One of the actors.
fn actor_of(number: u32) -> Result<u32, Fail>
    ensures { IfOk result (λ actor. actor < 3) }
{
    if number < ACTORS {
        Ok(number)
    } else {
        Err(Fail::from("an actor"))
    }
}

fn apply<N: Namer>(
    alloc: Global,
    namer: N,
    actor: u32,
    wished: Wished,
    held: Held,
) -> Result<Step, Fail>
    ensures { IfOk result (IsMeant N.id_of 3) }
{
    let actor = actor_of(actor)?;
    let wish = wish_of(alloc, namer, wished)?;
    Ok(Step::Apply { actor, wish, held })
}

fn look<N: Namer>(_namer: N, actor: u32) -> Result<Step, Fail>
    ensures { IfOk result (IsMeant N.id_of 3) }
{
    let actor = actor_of(actor)?;
    Ok(Step::Look { actor })
}

fn fault<N: Namer>(
    alloc: Global,
    namer: N,
    actor: u32,
    wished: Wished,
    call: u32,
) -> Result<Step, Fail>
    ensures { IfOk result (IsMeant N.id_of 3) }
{
    let actor = actor_of(actor)?;
    let wish = wish_of(alloc, namer, wished)?;
    Ok(Step::Fault { actor, wish, call })
}

fn crash<N: Namer>(alloc: Global, _namer: N, store: &[u8], ledger: &[u8]) -> Result<Step, Fail>
    ensures { IfOk result (IsMeant N.id_of 3) }
{
    Ok(Step::Crash {
        flight: None,
        store: Bytes::from_slice(alloc, store)?,
        ledger: Bytes::from_slice(alloc, ledger)?,
    })
}

fn crash_in<N: Namer>(
    alloc: Global,
    namer: N,
    flight: (u32, Wished, u32),
    store: &[u8],
    ledger: &[u8],
) -> Result<Step, Fail>
    ensures { IfOk result (IsMeant N.id_of 3) }
{
    let (actor, wished, made) = flight;
    let actor = actor_of(actor)?;
    let wish = wish_of(alloc, namer, wished)?;
    let store = Bytes::from_slice(alloc, store)?;
    let ledger = Bytes::from_slice(alloc, ledger)?;
    Ok(Step::Crash {
        flight: Some((actor, wish, made)),
        store,
        ledger,
    })
}

pub fn step_of<N: Namer>(alloc: Global, namer: N, doing: Doing) -> Result<Step, Fail>
    ensures { IfOk result (IsMeant N.id_of 3) }
{
    match doing {
        Doing::Apply(actor, wished, held) => apply(alloc, namer, actor, wished, held),
        Doing::Look(actor) => look(namer, actor),
        Doing::Fault(actor, wished, call) => fault(alloc, namer, actor, wished, call),
        Doing::Crash(None, store, ledger) => crash(alloc, namer, store, ledger),
        Doing::Crash(Some(flight), store, ledger) => crash_in(alloc, namer, flight, store, ledger),
    }
}
