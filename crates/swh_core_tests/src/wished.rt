//! Wishes as values that tables hold.
ghost use Rattle.std.specs.Prelude.{IfOk};
ghost use Rattle.swh_model.specs.Step.{HasItsChildrenAndName};
ghost use Rattle.swh_model.specs.Judge.{IsWish, StatusAllows};

use crate::worked::Body;
use std::alloc::Global;
use std::test::Fail;
use swh_base::{Entry, Items, Namer, Status, Url, VisitKind};
use swh_model::Wish;
use swh_object::Object;

/// What is wished of an origin, or a batch of objects. Marks are of the visit of a number.
#[derive(Clone, Copy)]
pub enum Wished {
    Open(&'static str),
    Mark(&'static str, u64, Mark),
    Batch(&'static [Body]),
}

#[derive(Clone, Copy)]
pub enum Mark {
    Ongoing,
    Full([u8; 20]),
    Partial(Option<[u8; 20]>),
    NotFound,
    Failed,
}

fn url(alloc: Global, text: &str) -> Result<Url, Fail> {
    match Url::new(alloc, text) {
        Ok(url) => Ok(url),
        Err(_) => Err(Fail::from("a URL")),
    }
}

fn opening<N: Namer>(alloc: Global, _namer: N, origin: &str) -> Result<Wish, Fail>
    ensures { IfOk result (IsWish N.id_of) }
{
    Ok(Wish::Open {
        origin: url(alloc, origin)?,
        kind: VisitKind::Fast,
        date: 1_000_000_000,
    })
}

fn status_of(mark: Mark) -> (Status, Option<[u8; 20]>)
    ensures { StatusAllows result.0 result.1 }
{
    match mark {
        Mark::Ongoing => (Status::Ongoing, None),
        Mark::Full(id) => (Status::Full, Some(id)),
        Mark::Partial(id) => (Status::Partial, id),
        Mark::NotFound => (Status::NotFound, None),
        Mark::Failed => (Status::Failed, None),
    }
}

fn marking<N: Namer>(
    alloc: Global,
    _namer: N,
    origin: &str,
    visit: u64,
    mark: Mark,
) -> Result<Wish, Fail>
    ensures { IfOk result (IsWish N.id_of) }
{
    let (status, snapshot) = status_of(mark);
    Ok(Wish::Mark {
        origin: url(alloc, origin)?,
        visit,
        status,
        snapshot,
    })
}

fn entry_of<N: Namer>(alloc: Global, namer: N, body: Body) -> Result<Entry, Fail>
    ensures { IfOk result (HasItsChildrenAndName N.id_of) }
{
    let (kind, body) = body;
    let body = Vec::from_slice(alloc, body)?;
    match Object::make(alloc, &namer, kind, body) {
        Ok(object) => Ok(object.into_entry()),
        Err(_) => Err(Fail::from("an object")),
    }
}

fn batch<N: Namer>(alloc: Global, namer: N, bodies: &[Body]) -> Result<Wish, Fail>
    ensures { IfOk result (IsWish N.id_of) }
{
    let mut entries = Vec::new(alloc);
    for body in bodies {
        let entry = entry_of(alloc, namer, *body)?;
        entries.push(entry)?;
    }
    Ok(Wish::Batch(Items::from_vec(entries)))
}

pub fn wish_of<N: Namer>(alloc: Global, namer: N, wished: Wished) -> Result<Wish, Fail>
    ensures { IfOk result (IsWish N.id_of) }
{
    match wished {
        Wished::Open(origin) => opening(alloc, namer, origin),
        Wished::Mark(origin, visit, mark) => marking(alloc, namer, origin, visit, mark),
        Wished::Batch(bodies) => batch(alloc, namer, bodies),
    }
}
