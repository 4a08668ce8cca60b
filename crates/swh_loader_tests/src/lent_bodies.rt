// What a load over a keeper lends its input: the body that is held under a name that it gives, and nothing where it is new.
use crate::walks::{content, content_of};
use std::alloc::{AllocError, Global};
use std::marker::Model;
use std::test::Fail;
use swh_base::{ByteNamer, Memory, Name, Shared, Url, VisitKind};
use swh_fixtures::{Archive, URL, made_archive};
use swh_ingest::{Job, Next, Opening, ReadsParts, Turn, Worker};
use swh_keeperload::load_kept_parts;
use swh_object::Object;
use swh_outside::OpenGate;

const BODY: &[u8] = b"held";

// One content, in a part of its own, before a fault; and what it was lent. Contracts see whether it is still to come.
#[derive(Drop)]
struct Borrower {
    left: Option<Vec<Object<ByteNamer>>>,
    lent: Option<(Name, Shared<u8>)>,
}

impl Model for Borrower {
    ghost use Rattle.std.specs.Prelude.{ℕ, is_some, cond};

    ghost Value = { ℕ };

    ghost view = { λ b. cond (is_some b.left) 1 0 };
}

// The way to read it.
#[derive(Clone, Copy, Debug)]
struct Borrows;

impl ReadsParts<Borrower, Next<ByteNamer, ()>> for Borrows {
    ghost use Rattle.swh_loader_tests.specs.Faulty.{NeverEnds};

    ghost takes = { λ r i. Unit {0} };

    ghost gives = { λ r i x now. NeverEnds x };

    ghost left = { λ r i. i };

    fn next(&self, borrower: &mut Borrower) -> Result<Next<ByteNamer, ()>, Memory> {
        match borrower.left.take() {
            Some(objects) => Ok(Next::Part(objects)),
            None => Ok(Next::Bad(())),
        }
    }

    fn share(&self, borrower: &mut Borrower, name: &Name, body: Shared<u8>) {
        borrower.lent = Some((*name, body));
    }
}

// A borrower that gives a content of its own bytes.
fn make_borrower(alloc: Global) -> Result<Borrower, AllocError> {
    let mut objects = Vec::with_capacity(alloc, 1)?;
    objects.push(content_of(alloc, BODY.to_vec(alloc)?)?)?;
    Ok(Borrower {
        left: Some(objects),
        lent: None,
    })
}

// Says whether a load of what a borrower gives comes to an end.
fn load(alloc: Global, keeper: &mut Archive<ByteNamer>, origin: &Url, from: &mut Borrower) -> bool {
    let worker = Worker {
        by: 1,
        gate: &OpenGate,
        number: 0,
    };
    let turn = Turn {
        worker: &worker,
        job: 0,
    };
    let job = Job {
        origin,
        kind: VisitKind::Fast,
        date: 1_000_000_000,
        opening: Opening::Found,
        read: Borrows,
    };
    load_kept_parts(alloc, keeper, &turn, &job, from).is_ok()
}

// Says whether what was lent is a body that is held, under its name.
fn is_held(keeper: &Archive<ByteNamer>, lent: &Option<(Name, Shared<u8>)>) -> bool {
    let Some((name, body)) = lent else {
        return false;
    };
    match keeper.store().get(name) {
        Some(entry) => entry.body.as_slice() == body.as_slice(),
        None => false,
    }
}

// Says whether the body of a content that is held is lent, and none of one that is new.
fn are_lent(
    alloc: Global,
    keeper: &mut Archive<ByteNamer>,
    origin: &Url,
) -> Result<bool, AllocError> {
    let mut first = make_borrower(alloc)?;
    let new = load(alloc, keeper, origin, &mut first) && first.lent.is_none();
    let held = keeper.apply(1, content(alloc, BODY)?).is_ok();
    let mut second = make_borrower(alloc)?;
    let again = load(alloc, keeper, origin, &mut second);
    Ok(new && held && again && is_held(keeper, &second.lent))
}

#[test]
fn held_bodies_are_lent(rt: HostRuntime) -> Result<(), Fail> {
    let alloc = rt.alloc();
    let Ok(origin) = Url::new(alloc, URL) else {
        return Err(Fail::from("a URL"));
    };
    let mut keeper = made_archive(alloc, ByteNamer, &[], &[])?;
    let lent = are_lent(alloc, &mut keeper, &origin);
    let (_store, _ledger) = keeper.close();
    assert!(rt; lent?);
    Ok(())
}
