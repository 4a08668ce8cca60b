//! Scripts of steps, with what is told of each.
ghost use Rattle.std.specs.Prelude.{◌≡◌, IfOk, length};
ghost use Rattle.std.specs.List.{AllByRecursion};
ghost use Rattle.swh_core.specs.Step.{IsMeant};

use crate::doing::{ACTORS, Doing, step_of};
use crate::wished::{Mark, Wished};
use crate::worked::{CONTENT, CONTENT_ID, DIRECTORY, DIRECTORY_ID, SNAPSHOT, SNAPSHOT_ID};
use std::alloc::Global;
use std::test::Fail;
use swh_base::{Kind, Name, Namer, Sha1Namer};
use swh_core::{Held, Step, Told, World};
use swh_naive_core::{Said, said_of, said_of_told};

/// A step, and what is told of it.
pub type Row = (Doing<'static>, Said);

pub const ORIGIN: &str = "https://e.org/p";

pub const OPEN: Wished = Wished::Open(ORIGIN);

const ONGOING: Wished = Wished::Mark(ORIGIN, 1, Mark::Ongoing);

/// The ledger after an opening by actor 0 and, with its gate, a visit that goes on.
const WITH: &[u8] =
    b"SWHARC1\n\x01O\0\0\0\x1c\0\0\0\0\x01\0\0\0\0\x3b\x9a\xca\0https://e.org/p\x01T\0\0\0\x1d\0\0\0\0\x02\0\
\0\0\0\0\0\0\x01\0https://e.org/p\0";

const WITHOUT: &[u8] =
    b"SWHARC1\n\x01O\0\0\0\x1c\0\0\0\0\x01\0\0\0\0\x3b\x9a\xca\0https://e.org/p\0T\0\0\0\x1d\0\0\0\0\x02\0\0\
\0\0\0\0\0\x01\0https://e.org/p\0";

/// The ledger within the opening by actor 1, its gate being written.
const GATE_0: &[u8] =
    b"SWHARC1\n\0O\0\0\0\x1c\0\0\0\x01\x01\0\0\0\0\x3b\x9a\xca\0https://e.org/p\0";

const GATE_1: &[u8] =
    b"SWHARC1\n\x01O\0\0\0\x1c\0\0\0\x01\x01\0\0\0\0\x3b\x9a\xca\0https://e.org/p\0";

const GATE_7: &[u8] =
    b"SWHARC1\n\x07O\0\0\0\x1c\0\0\0\x01\x01\0\0\0\0\x3b\x9a\xca\0https://e.org/p\0";

/// A fault at the third call leaves the event in doubt; the gate that a crash leaves decides.
const IN_DOUBT: &[Row] = &[
    (Doing::Apply(0, OPEN, Held::No), Said::Visit(1, 1)),
    (Doing::Look(1), Said::Front(1)),
    (Doing::Fault(0, ONGOING, 3), Said::Doubt(2)),
    (Doing::Crash(None, b"", WITH), Said::Opened(2)),
    (Doing::Look(1), Said::Front(2)),
];

const UNDONE: &[Row] = &[
    (Doing::Apply(0, OPEN, Held::No), Said::Visit(1, 1)),
    (Doing::Look(1), Said::Front(1)),
    (Doing::Fault(0, ONGOING, 3), Said::Doubt(2)),
    (Doing::Crash(None, b"", WITHOUT), Said::Opened(1)),
    (Doing::Look(1), Said::Front(1)),
];

/// With an event in doubt nothing is applied, and bytes that no crash leaves are refused.
const REFUSED: &[Row] = &[
    (Doing::Apply(0, OPEN, Held::No), Said::Visit(1, 1)),
    (Doing::Fault(0, ONGOING, 3), Said::Doubt(2)),
    (Doing::Apply(1, OPEN, Held::No), Said::Wounded),
    (Doing::Fault(1, OPEN, 1), Said::Wounded),
    (Doing::Crash(None, b"", b""), Said::NotImage(0)),
    (Doing::Crash(None, b"\0", WITH), Said::NotImage(1)),
    (Doing::Crash(None, b"", WITH), Said::Opened(2)),
];

/// A crash while a gate is written, with its byte as 0, 1 or 7.
const GATE_AS_0: &[Row] = &[
    (
        Doing::Crash(Some((1, OPEN, 3)), b"", GATE_0),
        Said::Opened(0),
    ),
    (Doing::Apply(1, OPEN, Held::No), Said::Visit(1, 1)),
];

const GATE_AS_1: &[Row] = &[
    (
        Doing::Crash(Some((1, OPEN, 3)), b"", GATE_1),
        Said::Opened(1),
    ),
    (Doing::Apply(1, OPEN, Held::No), Said::Visit(2, 2)),
];

const GATE_AS_7: &[Row] = &[
    (
        Doing::Crash(Some((1, OPEN, 3)), b"", GATE_7),
        Said::Opened(0),
    ),
    (Doing::Apply(1, OPEN, Held::No), Said::Visit(1, 1)),
];

/// Before it is written it stays closed.
const GATE_UNWRITTEN: &[Row] = &[
    (
        Doing::Crash(Some((1, OPEN, 2)), b"", GATE_1),
        Said::NotImage(0),
    ),
    (
        Doing::Crash(Some((1, OPEN, 2)), b"", GATE_0),
        Said::Opened(0),
    ),
];

/// Showings that are refused.
const REFUSED_SHOWINGS: &[Row] = &[
    (Doing::Apply(0, OPEN, Held::Newest), Said::Waits(1)),
    (Doing::Look(0), Said::Front(0)),
    (Doing::Apply(1, OPEN, Held::Older), Said::Untaken),
    (Doing::Look(1), Said::Front(0)),
    (Doing::Apply(1, OPEN, Held::No), Said::Visit(2, 2)),
    (Doing::Apply(0, ONGOING, Held::Older), Said::Marked(3)),
    (Doing::Look(1), Said::Front(3)),
];

/// What one left open another closes.
const CLOSED_LATER: &[Row] = &[
    (Doing::Apply(0, OPEN, Held::No), Said::Visit(1, 1)),
    (
        Doing::Apply(0, Wished::Batch(&[DIRECTORY]), Held::No),
        Said::Objects(2, 1),
    ),
    (
        Doing::Apply(0, Wished::Batch(&[SNAPSHOT]), Held::No),
        Said::Objects(3, 1),
    ),
    (
        Doing::Apply(
            0,
            Wished::Mark(ORIGIN, 1, Mark::Full(SNAPSHOT_ID)),
            Held::No,
        ),
        Said::NotClosed(
            Name {
                kind: Kind::Directory,
                id: DIRECTORY_ID,
            },
            Name {
                kind: Kind::Content,
                id: CONTENT_ID,
            },
        ),
    ),
    (Doing::Apply(1, OPEN, Held::No), Said::Visit(4, 2)),
    (
        Doing::Apply(1, Wished::Batch(&[CONTENT, DIRECTORY]), Held::No),
        Said::Objects(5, 1),
    ),
    (
        Doing::Apply(
            1,
            Wished::Mark(ORIGIN, 2, Mark::Full(SNAPSHOT_ID)),
            Held::No,
        ),
        Said::Marked(6),
    ),
];

const SCRIPTS: &[&[Row]] = &[
    IN_DOUBT,
    UNDONE,
    REFUSED,
    GATE_AS_0,
    GATE_AS_1,
    GATE_AS_7,
    GATE_UNWRITTEN,
    REFUSED_SHOWINGS,
    CLOSED_LATER,
];

/// What is told of a step.
fn tell<N: Namer>(alloc: Global, namer: N, world: &mut World<N>, doing: Doing) -> Result<Said, Fail>
    requires { length world.old.seen ≡ 3 }
    ensures { length world.new.seen ≡ 3 }
{
    let step = step_of(alloc, namer, doing)?;
    Ok(said_of(world.step(step)))
}

/// Says whether what is told of each step, from an empty archive on, is what its row says.
pub fn are_said<N: Namer>(alloc: Global, namer: N, rows: &[Row]) -> Result<bool, Fail> {
    let mut world = World::new(alloc, namer, ACTORS)?;
    for row in rows {
        if tell(alloc, namer, &mut world, row.0)? != row.1 {
            return Ok(false);
        }
    }
    Ok(true)
}

/// The steps of the rows.
fn steps_of<N: Namer>(alloc: Global, namer: N, rows: &[Row]) -> Result<Vec<Step>, Fail>
    ensures { IfOk result (λ steps. AllByRecursion (IsMeant N.id_of 3) steps.items) }
{
    let mut steps = Vec::new(alloc);
    for row in rows {
        let step = step_of(alloc, namer, row.0)?;
        steps.push(step)?;
    }
    Ok(steps)
}

fn is_fault(said: Said) -> bool {
    match said {
        Said::NotImage(_) => true,
        _ => false,
    }
}

fn first_fault(rows: &[Row]) -> Option<Said> {
    for row in rows {
        if is_fault(row.1) {
            return Some(row.1);
        }
    }
    None
}

fn are_told(told: &[Told], rows: &[Row]) -> bool {
    told.len() == rows.len()
        && told
            .iter()
            .zip(rows.iter())
            .all(|pair| said_of_told(*pair.0) == pair.1.1)
}

/// Says whether a run of all steps at once is told what the rows say, or the first fault among them.
fn is_run_said<N: Namer>(alloc: Global, namer: N, rows: &[Row]) -> Result<bool, Fail> {
    let mut world = World::new(alloc, namer, ACTORS)?;
    let steps = steps_of(alloc, namer, rows)?;
    match world.run(steps) {
        Ok(told) => Ok(are_told(&told, rows)),
        Err(fault) => Ok(first_fault(rows) == Some(said_of(Err(fault)))),
    }
}

#[test]
fn each_step_is_told(rt: HostRuntime) -> Result<(), Fail> {
    for (k, rows) in SCRIPTS.iter().enumerate() {
        assert!(rt; are_said(rt.alloc(), Sha1Namer, rows)?, "script {k}");
    }
    Ok(())
}

#[test]
fn runs_of_all_steps(rt: HostRuntime) -> Result<(), Fail> {
    for (k, rows) in SCRIPTS.iter().enumerate() {
        assert!(rt; is_run_said(rt.alloc(), Sha1Namer, rows)?, "script {k}");
    }
    Ok(())
}

// Nothing of a run depends on how many steps it has.
#[test]
fn a_run_of_2000_steps(rt: HostRuntime) -> Result<(), Fail> {
    let looks = vec![in rt.alloc(); (Doing::Look(1), Said::Front(0)); 2_000]?;
    assert!(rt; is_run_said(rt.alloc(), Sha1Namer, &looks)?);
    Ok(())
}
