// What is held of an input that turns out to be bad behind some parts, and what it is to share with the archive.
ghost use Rattle.std.specs.Prelude.{◌≡◌};

use crate::desk::{Desk, Second};
use crate::walks::{content_of, contents, objects_in};
use std::alloc::{AllocError, Global};
use std::collections::VecDeque;
use std::marker::Model;
use std::test::Fail;
use swh_base::{ByteNamer, Memory, Name, Shared, Url, VisitKind};
use swh_fixtures::{Archive, URL, disk, kept};
use swh_ingest::{Destination, End, Job, Next, Opening, ReadsParts, Turn, Worker, load_parts};
use swh_keeper::{Keeper, OpenWhy};
use swh_memory::{MemoryDisk, Room};
use swh_object::Object;
use swh_outside::OpenGate;
use swh_plan::Plan;

// Parts that come in their order, and then a fault, and how many bytes the bodies have that are to be shared. Contracts see
// how many parts are left.
#[derive(Drop)]
struct Parts {
    left: VecDeque<Vec<Object<ByteNamer>>>,
    shared: usize,
}

impl Model for Parts {
    ghost use Rattle.std.specs.Prelude.{ℕ, length};

    ghost Value = { ℕ };

    ghost view = { λ p. length p.left.items };
}

// The way to read them.
#[derive(Clone, Copy, Debug)]
struct Faulty;

impl ReadsParts<Parts, Next<ByteNamer, ()>> for Faulty {
    ghost use Rattle.swh_loader_tests.specs.Faulty.{NeverEnds};

    ghost takes = { λ r i. Unit {0} };

    ghost gives = { λ r i x now. NeverEnds x };

    ghost left = { λ r i. i };

    fn next(&self, parts: &mut Parts) -> Result<Next<ByteNamer, ()>, Memory> {
        match parts.left.pop_front() {
            Some(objects) => Ok(Next::Part(objects)),
            None => Ok(Next::Bad(())),
        }
    }

    fn share(&self, parts: &mut Parts, _name: &Name, body: Shared<u8>) {
        parts.shared = parts.shared.saturating_add(body.as_slice().len());
    }
}

// The bodies that loader 1 holds before anything is read, how many bytes the first body has, how many objects are sent of it
// and of the two that come behind it, and how many bytes the bodies have that are to be shared.
#[derive(Clone, Copy)]
struct Case<'a> {
    others: &'a [&'a [u8]],
    first: usize,
    sent: usize,
    shared: usize,
}

const CASES: &[Case<'static>] = &[
    // Nothing is full, so nothing is sent; nothing is held, so nothing is shared.
    Case {
        others: &[],
        first: 1,
        sent: 0,
        shared: 0,
    },
    // With one more the batch is full.
    Case {
        others: &[],
        first: 8_388_608,
        sent: 2,
        shared: 0,
    },
    // The batch is full of one.
    Case {
        others: &[],
        first: 8_388_609,
        sent: 1,
        shared: 0,
    },
    // What is held is shared, and is not sent.
    Case {
        others: &[b"abc"],
        first: 1,
        sent: 0,
        shared: 3,
    },
    Case {
        others: &[b"abc", b"d"],
        first: 1,
        sent: 0,
        shared: 4,
    },
];

// A part of one content.
fn part(alloc: Global, body: &[u8]) -> Result<Vec<Object<ByteNamer>>, AllocError> {
    let mut objects = Vec::with_capacity(alloc, 1)?;
    objects.push(content_of(alloc, body.to_vec(alloc)?)?)?;
    Ok(objects)
}

// A body of this many zero bytes, and two behind it, each in a part of its own.
fn parts_of(alloc: Global, bytes: usize) -> Result<Parts, AllocError> {
    let mut parts = Vec::with_capacity(alloc, 3)?;
    let mut first = Vec::with_capacity(alloc, 1)?;
    first.push(content_of(alloc, Vec::from_elem(alloc, 0, bytes)?)?)?;
    parts.push(first)?;
    parts.push(part(alloc, b"abc")?)?;
    parts.push(part(alloc, b"d")?)?;
    let left = VecDeque::from_vec(parts);
    Ok(Parts { left, shared: 0 })
}

// Says whether a load of them is told to be bad.
fn is_bad<S, P: Destination<Plan<ByteNamer>, S>>(
    alloc: Global,
    destination: &P,
    desk: &mut S,
    origin: &Url,
    parts: &mut Parts,
) -> bool
    requires fits { P.fits destination.now }
    requires number { ((P.protocol destination.now).known desk.old).number ≡ 2 }
{
    let worker = Worker {
        by: 2,
        gate: &OpenGate,
        number: 0,
    };
    let turn = Turn {
        worker: &worker,
        job: 0,
    };
    let job = Job {
        origin,
        kind: VisitKind::Fast,
        date: 1_000_000_000,
        opening: Opening::Found,
        read: Faulty,
    };
    match load_parts(alloc, destination, desk, &turn, &job, parts) {
        Ok(loaded) => loaded.end == End::Bad(()),
        Err(_) => false,
    }
}

// A store's room for a full batch with a body more.
const STORE_ROOM: Room = Room {
    bytes: 16_777_216,
    calls: 256,
};

// An archive of no event whose store has that room. The archives that other tests share have room for 4,096 bytes.
fn roomy_archive(alloc: Global) -> Result<Archive<ByteNamer>, OpenWhy> {
    let store = MemoryDisk::new(alloc, b"", STORE_ROOM, Vec::new(alloc))?;
    let ledger = disk(alloc, b"", &[])?;
    kept(Keeper::make(alloc, ByteNamer, store, ledger))
}

// Says whether a case comes out, over an archive of its own.
fn comes_out(alloc: Global, case: Case<'_>) -> Result<bool, AllocError> {
    let mut parts = parts_of(alloc, case.first)?;
    let others = contents(alloc, case.others)?;
    let Ok(origin) = Url::new(alloc, URL) else {
        return Ok(false);
    };
    let Ok(keeper) = roomy_archive(alloc) else {
        return Ok(false);
    };
    let mut desk = Desk { keeper, others };
    let bad = is_bad::<Desk, Second>(alloc, &Second, &mut desk, &origin, &mut parts);
    let Desk {
        keeper,
        others: _others,
    } = desk;
    let sent = objects_in(keeper.history());
    let (_store, _ledger) = keeper.close();
    Ok(bad && sent == case.sent && parts.shared == case.shared)
}

#[test]
fn full_batches_are_sent_while_an_input_is_read(rt: HostRuntime) -> Result<(), Fail> {
    let alloc = rt.alloc();
    for case in CASES {
        assert!(rt; comes_out(alloc, *case)?);
    }
    Ok(())
}
