//! What is wished of an archive, as a row of a table, and the histories that come of it.
ghost use Rattle.std.specs.Prelude.{IfOk};
ghost use Rattle.swh_model.specs.Step.{IsHistory};
ghost use Rattle.swh_model.specs.Judge.{IsWish, StatusAllows};

use crate::model_told::{Told, told_of};
use std::alloc::Global;
use std::test::Fail;
use swh_base::{Items, Kind, Memory, Namer, Status, Url, VisitKind};
use swh_model::{Event, Wish, judge, judged_events_may_happen, steps_extend_histories};
use swh_object::Object;

/// What is wished of the origin, or a batch of one object. Marks are of the visit of a number.
pub enum Wished {
    Open,
    Ongoing(u64),
    Failed(u64),
    Full(u64, [u8; 20]),
    Partial(u64, Option<[u8; 20]>),
    Object(Kind, &'static [u8]),
}

/// A wish by an actor of a number, and what is told.
pub type Row = (u32, Wished, Told);

/// The history of an archive to which nothing happened.
pub fn begun<N: Namer>(alloc: Global, _namer: &N) -> Vec<Event>
    ensures { IsHistory N.id_of result.items }
{
    Vec::new(alloc)
}

/// `https://e.org/p`.
pub fn url(alloc: Global) -> Result<Url, Fail> {
    match Url::new(alloc, "https://e.org/p") {
        Ok(url) => Ok(url),
        Err(_) => Err(Fail::from("a URL")),
    }
}

fn mark<N: Namer>(
    alloc: Global,
    _namer: &N,
    visit: u64,
    status: Status,
    snapshot: Option<[u8; 20]>,
) -> Result<Wish, Fail>
    requires { StatusAllows status snapshot }
    ensures { IfOk result (IsWish N.id_of) }
{
    Ok(Wish::Mark {
        origin: url(alloc)?,
        visit,
        status,
        snapshot,
    })
}

fn batch<N: Namer>(alloc: Global, namer: &N, kind: Kind, body: &[u8]) -> Result<Wish, Fail>
    ensures { IfOk result (IsWish N.id_of) }
{
    let body = Vec::from_slice(alloc, body)?;
    let Ok(object) = Object::make(alloc, namer, kind, body) else {
        return Err(Fail::from("an object"));
    };
    let mut entries = Vec::new(alloc);
    entries.push(object.into_entry())?;
    Ok(Wish::Batch(Items::from_vec(entries)))
}

fn opening<N: Namer>(alloc: Global, _namer: &N) -> Result<Wish, Fail>
    ensures { IfOk result (IsWish N.id_of) }
{
    Ok(Wish::Open {
        origin: url(alloc)?,
        kind: VisitKind::Fast,
        date: 1_000_000_000,
    })
}

fn wish_of<N: Namer>(alloc: Global, namer: &N, wished: &Wished) -> Result<Wish, Fail>
    ensures { IfOk result (IsWish N.id_of) }
{
    match wished {
        Wished::Open => opening(alloc, namer),
        Wished::Ongoing(visit) => mark(alloc, namer, *visit, Status::Ongoing, None),
        Wished::Failed(visit) => mark(alloc, namer, *visit, Status::Failed, None),
        Wished::Full(visit, id) => mark(alloc, namer, *visit, Status::Full, Some(*id)),
        Wished::Partial(visit, id) => mark(alloc, namer, *visit, Status::Partial, *id),
        Wished::Object(kind, body) => batch(alloc, namer, *kind, body),
    }
}

/// The verdict on a wish, whose event joins the history.
fn tell<N: Namer>(
    alloc: Global,
    _namer: &N,
    history: &mut Vec<Event>,
    by: u32,
    wish: &Wish,
) -> Result<Told, Memory>
    requires history { IsHistory N.id_of history.old.items }
    requires wish { IsWish N.id_of wish.now }
    ensures { IsHistory N.id_of history.new.items }
{
    judged_events_may_happen();
    steps_extend_histories();
    match judge(alloc, history.as_slice(), by, wish) {
        Ok((event, outcome)) => {
            history.push(event)?;
            Ok(told_of(Ok(outcome)))
        }
        Err(fault) => Ok(told_of(Err(fault))),
    }
}

/// What is told of a row's wish after a history, which its event joins.
fn tell_row<N: Namer>(
    alloc: Global,
    namer: &N,
    history: &mut Vec<Event>,
    row: &Row,
) -> Result<Told, Fail>
    requires { IsHistory N.id_of history.old.items }
    ensures { IsHistory N.id_of history.new.items }
{
    let (by, wished, _told) = row;
    let wish = wish_of(alloc, namer, wished)?;
    Ok(tell(alloc, namer, history, *by, &wish)?)
}

/// The history that comes of the rows' wishes, one after another, and whether each was told what its row says.
pub fn history_of<N: Namer>(
    alloc: Global,
    namer: &N,
    rows: &[Row],
) -> Result<(Vec<Event>, bool), Fail>
    ensures { IfOk result (λ made. IsHistory N.id_of made.0.items) }
{
    let mut history = begun(alloc, namer);
    let mut is_told = true;
    for row in rows {
        if tell_row(alloc, namer, &mut history, row)? != row.2 {
            is_told = false;
        }
    }
    Ok((history, is_told))
}
