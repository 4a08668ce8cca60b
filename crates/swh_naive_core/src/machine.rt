//! A second machine, as plain as can be: the events, how many are shown, the one in doubt, the two files and how many
//! events each actor has seen.
use crate::files::{Files, calls_of, fail_at, files_again, firm_files, make_first, may_be_left};
use crate::plain::Plain;
use crate::said::Said;
use crate::verdict::{Verdict, verdict_on};
use std::alloc::Global;
use swh_base::Memory;
use swh_core::{Held, Step};
use swh_model::Wish;

#[derive(Drop)]
pub struct Machine {
    pub events: Vec<Plain>,
    pub shown: usize,
    pub doubt: Option<Plain>,
    pub files: Files,
    pub seen: Vec<usize>,
}

/// An empty archive, of which the actors have seen nothing.
pub fn first_machine(alloc: Global, actors: u32) -> Result<Machine, Memory> {
    let mut seen = Vec::new(alloc);
    for _actor in 0..actors {
        seen.push(0)?;
    }
    Ok(Machine {
        events: Vec::new(alloc),
        shown: 0,
        doubt: None,
        files: firm_files(alloc, b"SWHARC1\n\0", b"")?,
        seen,
    })
}

fn see(machine: &mut Machine, actor: u32) {
    if let Some(seen) = machine.seen.get_mut(actor as usize) {
        *seen = machine.shown;
    }
}

fn do_event(alloc: Global, machine: &mut Machine, event: Plain) -> Result<(), Memory> {
    let calls = calls_of(alloc, &machine.events, &event)?;
    make_first(alloc, &mut machine.files, &calls, calls.len())?;
    machine.events.push(event)?;
    Ok(())
}

fn is_newest(held: Held) -> bool {
    match held {
        Held::Newest => true,
        _ => false,
    }
}

fn is_older(held: Held) -> bool {
    match held {
        Held::Older => true,
        _ => false,
    }
}

fn apply(
    alloc: Global,
    machine: &mut Machine,
    actor: u32,
    wish: &Wish,
    held: Held,
) -> Result<Said, Memory> {
    if machine.doubt.is_some() {
        return Ok(Said::Wounded);
    }
    if is_older(held) && machine.shown < machine.events.len() {
        return Ok(Said::Untaken);
    }
    machine.shown = machine.events.len();
    match verdict_on(alloc, &machine.events, actor, wish)? {
        Verdict::Refused(said) => {
            see(machine, actor);
            Ok(said)
        }
        Verdict::Allowed(event, said) => {
            do_event(alloc, machine, event)?;
            if is_newest(held) {
                return Ok(Said::Waits(machine.events.len() as u64));
            }
            machine.shown = machine.events.len();
            see(machine, actor);
            Ok(said)
        }
    }
}

fn fault(
    alloc: Global,
    machine: &mut Machine,
    actor: u32,
    wish: &Wish,
    number: u32,
) -> Result<Said, Memory> {
    if machine.doubt.is_some() {
        return Ok(Said::Wounded);
    }
    machine.shown = machine.events.len();
    match verdict_on(alloc, &machine.events, actor, wish)? {
        Verdict::Refused(said) => Ok(said),
        Verdict::Allowed(event, _) => {
            let calls = calls_of(alloc, &machine.events, &event)?;
            fail_at(alloc, &mut machine.files, &calls, number as usize)?;
            machine.doubt = Some(event);
            Ok(Said::Doubt(machine.events.len() as u64 + 1))
        }
    }
}

/// The files as all stops, and the event that they may have besides the history and the one in doubt: where so many device
/// calls of a wish's event were made, that one. With an event in doubt no other has begun.
pub fn files_at_crash(
    alloc: Global,
    machine: &Machine,
    flight: &Option<(u32, Wish, u32)>,
) -> Result<(Files, Option<Plain>), Memory> {
    let mut files = files_again(alloc, &machine.files)?;
    if machine.doubt.is_some() {
        return Ok((files, None));
    }
    let Some((actor, wish, made)) = flight else {
        return Ok((files, None));
    };
    match verdict_on(alloc, &machine.events, *actor, wish)? {
        Verdict::Refused(_) => Ok((files, None)),
        Verdict::Allowed(event, _) => {
            let calls = calls_of(alloc, &machine.events, &event)?;
            make_first(alloc, &mut files, &calls, *made as usize)?;
            Ok((files, Some(event)))
        }
    }
}

/// Says whether the bytes at a place begin with these.
fn stand_at(file: &[u8], at: usize, bytes: &[u8]) -> bool {
    if at > file.len() {
        return false;
    }
    file[at..].starts_with(bytes)
}

fn is_gate_open(ledger: &[u8], at: usize) -> Option<bool> {
    match ledger.get(at) {
        Some(byte) => Some(*byte == 1),
        None => None,
    }
}

/// The places behind an event whose open gate and whose run stand at these; none where it does not stand there.
fn behind_event(
    ledger: &[u8],
    store: &[u8],
    places: (usize, usize),
    event: &Plain,
) -> Option<(usize, usize)> {
    let (at, run_at) = places;
    let record_at = at.saturating_add(1);
    if is_gate_open(ledger, at) != Some(true)
        || !stand_at(ledger, record_at, &event.record)
        || !stand_at(store, run_at, &event.run)
    {
        return None;
    }
    Some((
        record_at.saturating_add(event.record.len()),
        run_at.saturating_add(event.run.len()),
    ))
}

/// How many of the history's events, with one more or without it, two files stand for; none where they do not.
fn events_in(
    ledger: &[u8],
    store: &[u8],
    history: &[Plain],
    more: &Option<Plain>,
) -> Option<usize> {
    if !stand_at(ledger, 0, b"SWHARC1\n") {
        return None;
    }
    let mut places = (8, 0);
    for event in history {
        places = behind_event(ledger, store, places, event)?;
    }
    if !is_gate_open(ledger, places.0)? {
        return Some(history.len());
    }
    let Some(event) = more else {
        return None;
    };
    places = behind_event(ledger, store, places, event)?;
    if is_gate_open(ledger, places.0)? {
        None
    } else {
        Some(history.len() + 1)
    }
}

/// The actors begin anew with all that the bytes stand for.
fn reopen(
    alloc: Global,
    machine: &mut Machine,
    more: Option<Plain>,
    store: &[u8],
    ledger: &[u8],
) -> Result<Said, Memory> {
    let Some(count) = events_in(ledger, store, &machine.events, &more) else {
        return Ok(Said::Broken);
    };
    if let Some(event) = more {
        if count > machine.events.len() {
            machine.events.push(event)?;
        }
    }
    machine.shown = count;
    machine.doubt = None;
    machine.files = firm_files(alloc, ledger, store)?;
    for seen in machine.seen.iter_mut() {
        *seen = count;
    }
    Ok(Said::Opened(count as u64))
}

fn crash(
    alloc: Global,
    machine: &mut Machine,
    flight: &Option<(u32, Wish, u32)>,
    store: &[u8],
    ledger: &[u8],
) -> Result<Said, Memory> {
    let (files, begun) = files_at_crash(alloc, machine, flight)?;
    if !may_be_left(&files.ledger, ledger) {
        return Ok(Said::NotImage(0));
    }
    if !may_be_left(&files.store, store) {
        return Ok(Said::NotImage(1));
    }
    let more = match begun {
        Some(event) => Some(event),
        None => machine.doubt.take(),
    };
    reopen(alloc, machine, more, store, ledger)
}

/// Takes one step.
pub fn take(alloc: Global, machine: &mut Machine, step: &Step) -> Result<Said, Memory> {
    match step {
        Step::Apply { actor, wish, held } => apply(alloc, machine, *actor, wish, *held),
        Step::Look { actor } => {
            see(machine, *actor);
            Ok(Said::Front(machine.shown as u64))
        }
        Step::Fault { actor, wish, call } => fault(alloc, machine, *actor, wish, *call),
        Step::Crash {
            flight,
            store,
            ledger,
        } => crash(alloc, machine, flight, store.as_slice(), ledger.as_slice()),
    }
}
