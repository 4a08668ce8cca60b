//! An archive of objects and visits, and what one request is answered over it.
use crate::cooked_replies::ODD_OBJECTS;
use std::alloc::{AllocError, Global};
use std::test::Fail;
use swh_api::{Route, reply, route};
use swh_base::{Bytes, Kind, Memory, Reply, Request, Status, Url, VisitKind};
use swh_graph_fixtures::objects::OBJECTS;
use swh_graph_fixtures::{add, archive_of};
use swh_replay::Replayed;

/// A text in pieces.
pub type Pieces = &'static [&'static [u8]];

/// A method, a path and a body.
pub type Asking = (&'static [u8], Pieces, &'static [u8]);

/// What a request is answered: JSON with its status, plain bytes with 200, or nothing, since it is a load for this origin.
pub enum Answer {
    Json(u16, Pieces),
    Plain(&'static [u8]),
    Load(&'static str),
}

/// A request, and what it is answered.
pub type Case = (Asking, Answer);

/// The id of a snapshot without branches, as Software Heritage gives it.
const EMPTY_SNAPSHOT: [u8; 20] =
    *b"\x1a\x88\x93\xe6\xa8\x6f\x44\x4e\x8b\xe8\xe7\xbd\xa6\xcb\x34\xfb\x17\x35\xa0\x0e";

/// A mark of a visit: its status and its snapshot.
type Mark = (Status, Option<[u8; 20]>);

/// Visits of origins, each with its marks. The first is opened twice.
const VISITS: &[(&str, &[Mark])] = &[
    (
        "https://e.org/p",
        &[(Status::Ongoing, None), (Status::Failed, None)],
    ),
    ("https://e.org/p", &[(Status::Full, Some(EMPTY_SNAPSHOT))]),
    ("https://e.org/a;b \"%\u{e9}", &[]),
];

fn add_visit(
    alloc: Global,
    shown: &mut Replayed,
    origin: &Url,
    marks: &[Mark],
) -> Result<bool, Memory> {
    let number = shown
        .visits
        .open(alloc, origin, VisitKind::Fast, 1_000_000_000, 1)?;
    for (status, snapshot) in marks {
        if shown
            .visits
            .status(origin, number, 1, *status, *snapshot)
            .is_err()
        {
            return Ok(false);
        }
    }
    Ok(true)
}

fn add_visits(alloc: Global, shown: &mut Replayed) -> Result<bool, Memory> {
    for (origin, marks) in VISITS {
        let Ok(origin) = Url::new(alloc, origin) else {
            return Ok(false);
        };
        if !add_visit(alloc, shown, &origin, marks)? {
            return Ok(false);
        }
    }
    Ok(true)
}

fn add_objects(
    alloc: Global,
    shown: &mut Replayed,
    objects: &[(Kind, &[u8])],
) -> Result<bool, AllocError> {
    for (kind, body) in objects {
        let body = body.to_vec(alloc)?;
        if add(alloc, shown, *kind, body).is_none() {
            return Ok(false);
        }
    }
    Ok(true)
}

/// What is in memory of an archive with these objects and visits.
pub fn archive(alloc: Global) -> Result<Replayed, Fail> {
    let Some(mut shown) = archive_of(alloc, OBJECTS) else {
        return Err(Fail::from("objects"));
    };
    if !add_objects(alloc, &mut shown, ODD_OBJECTS)? {
        return Err(Fail::from("odd objects"));
    }
    if add_visits(alloc, &mut shown)? {
        Ok(shown)
    } else {
        Err(Fail::from("visits"))
    }
}

fn joined(alloc: Global, pieces: &[&[u8]]) -> Result<Bytes, Memory> {
    let mut bytes = Vec::new(alloc);
    for piece in pieces {
        bytes.extend_from_slice(piece)?;
    }
    Ok(Bytes::from_vec(bytes))
}

fn request_of(alloc: Global, asking: &Asking) -> Result<Request, Memory> {
    let (method, path, body) = asking;
    Ok(Request {
        method: Bytes::from_slice(alloc, method)?,
        path: joined(alloc, path)?,
        body: Bytes::from_slice(alloc, body)?,
        keep: true,
    })
}

// Whether the reply has this status and this body.
fn is_reply(
    alloc: Global,
    reply: &Reply,
    status: u16,
    json: bool,
    body: &[&[u8]],
) -> Result<bool, Memory> {
    let body = joined(alloc, body)?;
    Ok(reply.status == status && reply.json == json && reply.body.as_slice() == body.as_slice())
}

fn is_told(alloc: Global, reply: &Reply, answer: &Answer) -> Result<bool, Memory> {
    match answer {
        Answer::Json(status, body) => is_reply(alloc, reply, *status, true, body),
        Answer::Plain(body) => is_reply(alloc, reply, 200, false, &[*body]),
        Answer::Load(_) => Ok(false),
    }
}

fn is_load(found: &Url, answer: &Answer) -> bool {
    match answer {
        Answer::Load(origin) => found.as_str() == *origin,
        _ => false,
    }
}

fn is_answered(
    alloc: Global,
    shown: &Replayed,
    request: &Request,
    answer: &Answer,
) -> Result<bool, Memory> {
    match route(alloc, request)? {
        Route::Load { origin } => Ok(is_load(&origin, answer)),
        Route::Read => {
            let reply = reply(alloc, shown, request)?;
            is_told(alloc, &reply, answer)
        }
    }
}

/// The number of the first case with another answer, or how many there are.
pub fn first_other(alloc: Global, cases: &[Case]) -> Result<usize, Fail> {
    let shown = archive(alloc)?;
    for (number, (asking, answer)) in cases.iter().enumerate() {
        let request = request_of(alloc, asking)?;
        if !is_answered(alloc, &shown, &request, answer)? {
            return Ok(number);
        }
    }
    Ok(cases.len())
}
