//! What a history makes, from the start.
ghost use Rattle.swh_model.specs.Step.{IsHistory};

use crate::model_told::Told;
use crate::wished::{Row, Wished, history_of, url};
use std::alloc::Global;
use std::test::Fail;
use swh_base::{ByteNamer, Kind, Memory, Name, Namer, Url};
use swh_model::{Event, State, replay};

fn replayed<N: Namer>(
    alloc: Global,
    _namer: &N,
    history: &Vec<Event>,
) -> Result<Option<State>, Memory>
    requires { IsHistory N.id_of history.now.items }
{
    replay(alloc, history.as_slice())
}

/// A visit of somebody, and a content whose id is nineteen zeros and the sum of its bytes.
const ROWS: &[Row] = &[
    (7, Wished::Open, Told::Opened(1, 1)),
    (7, Wished::Object(Kind::Content, b"ab"), Told::Added(2, 1)),
];

fn state_of(alloc: Global) -> Result<State, Fail> {
    let (history, _is_told) = history_of(alloc, &ByteNamer, ROWS)?;
    match replayed(alloc, &ByteNamer, &history)? {
        Some(state) => Ok(state),
        None => Err(Fail::from("a history")),
    }
}

/// Says whether the origin has the one visit.
fn has_visit(state: &State, origin: &Url) -> bool {
    let visits = state.visits(origin);
    visits.len() == 1
        && visits[0].number == 1
        && visits[0].date == 1_000_000_000
        && visits[0].by == 7
}

/// Says whether the content is held under its name, and no other.
fn has_content(state: &State) -> bool {
    let mut name = Name {
        kind: Kind::Content,
        id: [0; 20],
    };
    let is_other = state.has(&name);
    name.id[19] = 0xc3;
    match state.get(&name) {
        Some(entry) => !is_other && entry.body.as_slice() == b"ab".as_slice(),
        None => false,
    }
}

#[test]
fn a_history_is_replayed(rt: HostRuntime) -> Result<(), Fail> {
    let alloc = rt.alloc();
    let origin = url(alloc)?;
    let state = state_of(alloc)?;
    assert!(rt; has_visit(&state, &origin) && has_content(&state));
    Ok(())
}
