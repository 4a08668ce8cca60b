//! What a connection is answered: its bytes in a session, each request and each refusal, and the replies' bytes.
use crate::answered::archive;
use std::alloc::Global;
use std::test::Fail;
use swh_api::{Route, refusal_reply, reply, route};
use swh_base::{Memory, Reply};
use swh_http::{Ask, Session, reply_bytes};
use swh_replay::Replayed;

/// What comes, and what goes out.
const TURNS: &[(&[u8], &[u8])] = &[
    (
        b"GET /x HTTP/1.1\r\n\r\n",
        b"HTTP/1.1 404 Not Found\r\nContent-Length: 21\r\nContent-Type: application/json\r\n\r\n\
{\"error\":\"not found\"}",
    ),
    (
        b"DELETE /api/1/known/ HTTP/1.1\r\n\r\n",
        b"HTTP/1.1 405 Method Not Allowed\r\nContent-Length: 18\r\nContent-Type: application/json\r\n\r\n\
{\"error\":\"method\"}",
    ),
    // Two requests, of which the last closes.
    (
        b"GET /api/1/origin/https://e.org/p/get/ HTTP/1.1\r\n\r\n\
POST /api/1/known/ HTTP/1.0\r\nContent-Length: 2\r\n\r\n[]",
        b"HTTP/1.1 200 OK\r\nContent-Length: 36\r\nContent-Type: application/json\r\n\r\n\
{\"url\":\"https://e.org/p\",\"visits\":2}\
HTTP/1.1 200 OK\r\nContent-Length: 2\r\nContent-Type: application/json\r\nConnection: close\r\n\r\n{}",
    ),
    (
        b"GET /api/1/raw/swh:1:cnt:83baae61804e65cc73a7201a7252750c76066a30/ HTTP/1.1\r\n\r\n",
        b"HTTP/1.1 200 OK\r\nContent-Length: 10\r\nContent-Type: application/octet-stream\r\n\r\nversion 1\n",
    ),
    (
        b"GET /api/1/cook/swh:1:cnt:83baae61804e65cc73a7201a7252750c76066a30/ HTTP/1.1\r\n\r\n",
        b"HTTP/1.1 200 OK\r\nContent-Length: 10\r\nContent-Type: application/octet-stream\r\n\r\nversion 1\n",
    ),
    (
        b"GET /api/1/cook/swh:1:snp:b946e4724fdd49510377065272bb882d27fafbc0/ HTTP/1.1\r\n\r\n",
        b"HTTP/1.1 422 Unprocessable Entity\r\nContent-Length: 96\r\nContent-Type: application/json\r\n\r\n\
{\"error\":\"uncarried\",\"name\":\"swh:1:snp:b946e4724fdd49510377065272bb882d27fafbc0\",\"why\":\"branch\"}",
    ),
    (
        b"GET / HTTP/2.0\r\n\r\n",
        b"HTTP/1.1 400 Bad Request\r\nContent-Length: 19\r\nContent-Type: application/json\r\n\
Connection: close\r\n\r\n{\"error\":\"request\"}",
    ),
    (
        b"POST /api/1/known/ HTTP/1.1\r\nContent-Length: 67108865\r\n\r\n",
        b"HTTP/1.1 413 Payload Too Large\r\nContent-Length: 18\r\nContent-Type: application/json\r\n\
Connection: close\r\n\r\n{\"error\":\"length\"}",
    ),
    (
        b"POST /api/1/known/ HTTP/1.1\r\nTransfer-Encoding: chunked\r\n\r\n",
        b"HTTP/1.1 501 Not Implemented\r\nContent-Length: 20\r\nContent-Type: application/json\r\n\
Connection: close\r\n\r\n{\"error\":\"transfer\"}",
    ),
    // 65 fields.
    (
        b"GET / HTTP/1.1\na:\na:\na:\na:\na:\na:\na:\na:\na:\na:\na:\na:\na:\na:\na:\na:\na:\na:\na:\na:\na:\na:\n\
a:\na:\na:\na:\na:\na:\na:\na:\na:\na:\na:\na:\na:\na:\na:\na:\na:\na:\na:\na:\na:\na:\na:\na:\na:\na:\na:\na:\n\
a:\na:\na:\na:\na:\na:\na:\na:\na:\na:\na:\na:\na:\na:\na:\n\n",
        b"HTTP/1.1 431 Request Header Fields Too Large\r\nContent-Length: 18\r\n\
Content-Type: application/json\r\nConnection: close\r\n\r\n{\"error\":\"fields\"}",
    ),
    // A request that does not end.
    (b"GET /", b""),
];

// A reply, and whether the connection is kept then. A load has none here.
fn answered(alloc: Global, shown: &Replayed, ask: &Ask) -> Result<Option<(Reply, bool)>, Memory> {
    match ask {
        Ask::Refused { status } => Ok(Some((refusal_reply(alloc, *status)?, false))),
        Ask::Request(request) => match route(alloc, request)? {
            Route::Load { .. } => Ok(None),
            Route::Read => Ok(Some((reply(alloc, shown, request)?, request.keep))),
        },
    }
}

// Appends the bytes of the answer to an ask. The statuses are those of replies that have a body.
fn put_answer(alloc: Global, out: &mut Vec<u8>, shown: &Replayed, ask: &Ask) -> Result<(), Memory> {
    let Some((reply, keep)) = answered(alloc, shown, ask)? else {
        return Ok(());
    };
    let has_body = matches!(reply.status, 200 | 400 | 404 | 405 | 413 | 422 | 431 | 501);
    if has_body {
        let bytes = reply_bytes(alloc, &reply, keep)?;
        out.extend_from_slice(bytes.as_slice())?;
    }
    Ok(())
}

// All that goes out for these bytes.
fn goes_out(alloc: Global, shown: &Replayed, bytes: &[u8]) -> Result<Vec<u8>, Memory> {
    let mut session = Session::new(alloc);
    let asks = session.feed(bytes)?;
    let mut out = Vec::new(alloc);
    for ask in &asks {
        put_answer(alloc, &mut out, shown, ask)?;
    }
    Ok(out)
}

// The number of the first turn that is answered otherwise, or how many there are.
fn first_other(alloc: Global) -> Result<usize, Fail> {
    let shown = archive(alloc)?;
    for (number, (bytes, answer)) in TURNS.iter().enumerate() {
        let out = goes_out(alloc, &shown, bytes)?;
        if out.as_slice() != *answer {
            return Ok(number);
        }
    }
    Ok(TURNS.len())
}

#[test]
fn each_turn_is_answered(rt: HostRuntime) -> Result<(), Fail> {
    assert_eq!(rt; first_other(rt.alloc())?, TURNS.len());
    Ok(())
}
