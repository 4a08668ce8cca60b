// Connections over a desk without an archive, as RFC 9110 and RFC 9112 have them.
use crate::toy::Toy;
use std::alloc::Global;
use std::test::Fail;
use swh_memory_input::MemoryLink;
use swh_serve::{ServeFault, Served, serve_over};

#[derive(Clone, Copy)]
enum End {
    Served(u64),
    Short(u64),
    Read,
    Write,
}

// The bytes that come, in pieces of so many; the calls that fail; the bytes that go out; and how it ends.
struct Row {
    came: &'static [u8],
    piece: usize,
    failing: &'static [u64],
    went: &'static [u8],
    end: End,
}

const GET: &[u8] = b"GET /a HTTP/1.1\r\n\r\n";

const KEPT: &[u8] = b"HTTP/1.1 200 OK\r\nContent-Length: 2\r\n\
Content-Type: application/octet-stream\r\n\r\nkk";

const CLOSED: &[u8] = b"HTTP/1.1 200 OK\r\nContent-Length: 2\r\n\
Content-Type: application/octet-stream\r\nConnection: close\r\n\r\nkk";

const ROWS: [Row; 15] = [
    // One request, whole and byte by byte.
    Row {
        came: GET,
        piece: 1_000,
        failing: &[],
        went: KEPT,
        end: End::Served(1),
    },
    Row {
        came: GET,
        piece: 1,
        failing: &[],
        went: KEPT,
        end: End::Served(1),
    },
    // Two in one piece.
    Row {
        came: b"GET /a HTTP/1.1\r\n\r\nGET /b HTTP/1.1\r\n\r\n",
        piece: 1_000,
        failing: &[],
        went: b"HTTP/1.1 200 OK\r\nContent-Length: 2\r\nContent-Type: application/octet-stream\r\n\r\nkk\
HTTP/1.1 200 OK\r\nContent-Length: 2\r\nContent-Type: application/octet-stream\r\n\r\nkk",
        end: End::Served(2),
    },
    // Of the reply to a HEAD the head alone goes out, and the next reply stands behind it (RFC 9110, section 9.3.2).
    Row {
        came: b"HEAD /a HTTP/1.1\r\n\r\nGET /a HTTP/1.1\r\n\r\n",
        piece: 1_000,
        failing: &[],
        went: b"HTTP/1.1 200 OK\r\nContent-Length: 2\r\nContent-Type: application/octet-stream\r\n\r\n\
HTTP/1.1 200 OK\r\nContent-Length: 2\r\nContent-Type: application/octet-stream\r\n\r\nkk",
        end: End::Served(2),
    },
    // Refusals close, and what is behind them is not replied to.
    Row {
        came: b"POST / HTTP/1.1\r\nContent-Length: x\r\n\r\nGET /a HTTP/1.1\r\n\r\n",
        piece: 1_000,
        failing: &[],
        went: b"HTTP/1.1 400 Bad Request\r\nContent-Length: 19\r\nContent-Type: application/json\r\n\
Connection: close\r\n\r\n{\"error\":\"request\"}",
        end: End::Served(1),
    },
    Row {
        came: b"POST / HTTP/1.1\r\nContent-Length: 67108865\r\n\r\nGET /a HTTP/1.1\r\n\r\n",
        piece: 1_000,
        failing: &[],
        went: b"HTTP/1.1 413 Payload Too Large\r\nContent-Length: 18\r\nContent-Type: application/json\r\n\
Connection: close\r\n\r\n{\"error\":\"length\"}",
        end: End::Served(1),
    },
    Row {
        came: b"POST / HTTP/1.1\r\nTransfer-Encoding: chunked\r\n\r\nGET /a HTTP/1.1\r\n\r\n",
        piece: 1_000,
        failing: &[],
        went: b"HTTP/1.1 501 Not Implemented\r\nContent-Length: 20\r\nContent-Type: application/json\r\n\
Connection: close\r\n\r\n{\"error\":\"transfer\"}",
        end: End::Served(1),
    },
    // The link ends inside a request, and between none.
    Row {
        came: b"GET /",
        piece: 1_000,
        failing: &[],
        went: b"",
        end: End::Short(5),
    },
    Row {
        came: b"",
        piece: 1_000,
        failing: &[],
        went: b"",
        end: End::Served(0),
    },
    // There is no memory for one, and the connection is kept.
    Row {
        came: b"GET /memory HTTP/1.1\r\n\r\nGET /a HTTP/1.1\r\n\r\n",
        piece: 1_000,
        failing: &[],
        went: b"HTTP/1.1 503 Service Unavailable\r\nContent-Length: 18\r\nContent-Type: application/json\r\n\r\n\
{\"error\":\"memory\"}HTTP/1.1 200 OK\r\nContent-Length: 2\r\nContent-Type: application/octet-stream\r\n\r\nkk",
        end: End::Served(2),
    },
    // What closes: HTTP/1.0, the client, and the desk (RFC 9112, section 9.3).
    Row {
        came: b"GET /a HTTP/1.0\r\n\r\nGET /a HTTP/1.1\r\n\r\n",
        piece: 1_000,
        failing: &[],
        went: CLOSED,
        end: End::Served(1),
    },
    Row {
        came: b"GET /a HTTP/1.1\r\nConnection: close\r\n\r\nGET /a HTTP/1.1\r\n\r\n",
        piece: 1_000,
        failing: &[],
        went: CLOSED,
        end: End::Served(1),
    },
    Row {
        came: b"GET /close HTTP/1.1\r\n\r\nGET /a HTTP/1.1\r\n\r\n",
        piece: 1_000,
        failing: &[],
        went: CLOSED,
        end: End::Served(1),
    },
    // The first read fails; and the only put, which takes the first half of its 80 bytes.
    Row {
        came: GET,
        piece: 1_000,
        failing: &[0],
        went: b"",
        end: End::Read,
    },
    Row {
        came: GET,
        piece: 1_000,
        failing: &[1],
        went: b"HTTP/1.1 200 OK\r\nContent-Length: 2\r\nCont",
        end: End::Write,
    },
];

fn ends_so(came: &Result<Served, ServeFault>, end: End) -> bool {
    match (came, end) {
        (Ok(served), End::Served(requests)) => served.requests == requests,
        (Err(ServeFault::Short { held }), End::Short(bytes)) => *held == bytes,
        (Err(ServeFault::Read), End::Read) => true,
        (Err(ServeFault::Write), End::Write) => true,
        _ => false,
    }
}

// Whether a connection is as the row has it.
fn holds(alloc: Global, row: &Row) -> Result<bool, Fail> {
    let bytes = Vec::from_slice(alloc, row.came)?;
    let failing = Vec::from_slice(alloc, row.failing)?;
    let mut link = MemoryLink::new(alloc, bytes, row.piece, 1_000, failing)?;
    let mut seat = 0u64;
    let came = serve_over(alloc, &Toy, 1_000_000_000, &mut seat, &mut link);
    Ok(ends_so(&came, row.end) && link.bytes() == row.went)
}

#[test]
fn each_row(rt: HostRuntime) -> Result<(), Fail> {
    let mut number = 0usize;
    'rows: for row in ROWS.as_slice() {
        if !holds(rt.alloc(), row)? {
            return Err(Fail::from("a row does not hold"));
        }
        number = number.wrapping_add(1);
    }
    assert_eq!(rt; number, 15);
    Ok(())
}
