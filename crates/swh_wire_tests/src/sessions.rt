// Sessions: what is read of the bytes that come, whole and in pieces.
use crate::clients::{CHROMIUM, CURL, CURL_POST, KNOWN, NODE, PYTHON};
use std::alloc::{AllocError, Global};
use std::test::Fail;
use swh_base::{Memory, Request};
use swh_http::{Ask, Session};

enum Wanted {
    Request(Parts),
    Refused(u16),
}

struct Parts {
    method: &'static [u8],
    path: &'static [u8],
    body: &'static [u8],
    keep: bool,
}

const GET: &[Wanted] = &[Wanted::Request(Parts {
    method: b"GET",
    path: b"/api/1/x",
    body: b"",
    keep: true,
})];

const POST: &[Wanted] = &[Wanted::Request(Parts {
    method: b"POST",
    path: b"/api/1/known/",
    body: KNOWN,
    keep: true,
})];

// Bytes, and what they ask. HTTP/1.0 is not kept, and names of fields and options are compared without case; a length may
// be told twice, lines may end in a bare LF, and empty lines may stand before a request. A body of 67,108,864 bytes is
// waited for. What is coded is refused before what is long.
static ASKS: [(&[u8], &[Wanted]); 12] = [
    (CURL, GET),
    (CHROMIUM, GET),
    (NODE, GET),
    (CURL_POST, POST),
    (PYTHON, POST),
    (
        b"\r\n\n\r\nPUT /a HTTP/1.1\nContent-Length: 2\r\ncontent-length: 02\n\n[]",
        &[Wanted::Request(Parts {
            method: b"PUT",
            path: b"/a",
            body: b"[]",
            keep: true,
        })],
    ),
    (
        b"GET / HTTP/1.0\n\n\r\nGET /b HTTP/1.1\nconnection: x, CLOSE\n\n",
        &[
            Wanted::Request(Parts {
                method: b"GET",
                path: b"/",
                body: b"",
                keep: false,
            }),
            Wanted::Request(Parts {
                method: b"GET",
                path: b"/b",
                body: b"",
                keep: false,
            }),
        ],
    ),
    (b"GET / HTTP/1.1\r\nContent-Length: 67108864\r\n\r\n", &[]),
    (
        b"GET / HTTP/1.1\r\nContent-Length: 67108865\r\n\r\n",
        &[Wanted::Refused(413)],
    ),
    (b"GET / HTTP/2.0", &[Wanted::Refused(400)]),
    (
        b"GET / HTTP/1.1\r\nContent-Length: 67108865\r\nTransfer-Encoding: chunked\r\n\r\n",
        &[Wanted::Refused(501)],
    ),
    (
        b"GET / HTTP/1.1\r\nContent-Length: 1\r\nContent-Length: 2\r\n\r\n",
        &[Wanted::Refused(400)],
    ),
];

fn has_parts(request: &Request, parts: &Parts) -> bool {
    request.method.as_slice() == parts.method
        && request.path.as_slice() == parts.path
        && request.body.as_slice() == parts.body
        && request.keep == parts.keep
}

fn is_wanted(ask: &Ask, wanted: &Wanted) -> bool {
    match (ask, wanted) {
        (Ask::Request(request), Wanted::Request(parts)) => has_parts(request, parts),
        (Ask::Refused { status }, Wanted::Refused(wanted)) => *status == *wanted,
        (_, _) => false,
    }
}

// Whether a new session tells this of these bytes, which come in two pieces.
fn asks(alloc: Global, first: &[u8], second: &[u8], wanted: &[Wanted]) -> Result<bool, Memory> {
    let mut session = Session::new(alloc);
    let mut found = session.feed(first)?;
    found.append(&mut session.feed(second)?)?;
    let same = found.iter().zip(wanted).all(|(ask, w)| is_wanted(ask, w));
    Ok(same && found.len() == wanted.len())
}

#[test]
fn whole(rt: HostRuntime) -> Result<(), Fail> {
    for (bytes, wanted) in &ASKS {
        assert!(rt; asks(rt.alloc(), bytes, b"", wanted)?);
    }
    Ok(())
}

#[test]
fn cut_at_each_byte(rt: HostRuntime) -> Result<(), Fail> {
    for (bytes, wanted) in &ASKS {
        for cut in 0..bytes.len() {
            let (first, second) = bytes.split_at(cut);
            assert!(rt; asks(rt.alloc(), first, second, wanted)?);
        }
    }
    Ok(())
}

#[test]
fn what_waits(rt: HostRuntime) -> Result<(), Fail> {
    let mut session = Session::new(rt.alloc());
    assert!(rt; session.feed(b"GET /")?.is_empty());
    assert!(rt; session.held() == 5);
    assert!(rt; session.feed(b" HTTP/1.0\n\n")?.len() == 1);
    assert!(rt; session.held() == 0);
    Ok(())
}

// A head with a piece in its middle, and what comes of the most of it, and of one more: a target of one byte and so many
// more, which makes a head of 16,384 bytes, and 64 fields.
struct Limit {
    front: &'static [u8],
    piece: &'static [u8],
    most: usize,
    end: &'static [u8],
}

static LIMITS: [Limit; 2] = [
    Limit {
        front: b"GET /",
        piece: b"a",
        most: 16_366,
        end: b" HTTP/1.1\r\n\r\n",
    },
    Limit {
        front: b"GET / HTTP/1.1\r\n",
        piece: b"a: b\r\n",
        most: 64,
        end: b"\r\n",
    },
];

fn head(alloc: Global, limit: &Limit, count: usize) -> Result<Vec<u8>, AllocError> {
    let mut bytes = limit.front.to_vec(alloc)?;
    for _ in 0..count {
        bytes.extend_from_slice(limit.piece)?;
    }
    bytes.extend_from_slice(limit.end)?;
    Ok(bytes)
}

// The status of the refusal, or 0 for a request.
fn status_of(ask: &Ask) -> u16 {
    match ask {
        Ask::Request(_) => 0,
        Ask::Refused { status } => *status,
    }
}

// What comes of bytes that come one by one: the status of a refusal, 0 for one request, and none for anything else.
fn singly(alloc: Global, bytes: &[u8]) -> Result<Option<u16>, Memory> {
    let mut session = Session::new(alloc);
    let mut found = Vec::new(alloc);
    for byte in bytes {
        found.append(&mut session.feed(&[*byte])?)?;
    }
    Ok(match found.as_slice() {
        [ask] => Some(status_of(ask)),
        _ => None,
    })
}

#[test]
fn limits_of_a_head(rt: HostRuntime) -> Result<(), Fail> {
    for limit in &LIMITS {
        let most = head(rt.alloc(), limit, limit.most)?;
        assert!(rt; singly(rt.alloc(), &most)? == Some(0));
        let more = head(rt.alloc(), limit, limit.most + 1)?;
        assert!(rt; singly(rt.alloc(), &more)? == Some(431));
    }
    Ok(())
}
