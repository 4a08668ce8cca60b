//! A whole head: what it says of the body, and whether it is taken.
ghost use Rattle.std.specs.Prelude.{
  ◌≡◌,
  ◌==◌,
  ◌&&◌,
  not,
  ◌≤◌,
  ℕ,
  ◌<◌,
  ◌*◌,
  ◌/◌,
  All,
  IfOk,
  IfSome,
  IfNone,
  MatchResult,
  List,
  length,
  map,
  take,
};
ghost use Rattle.httparse.specs.Spans.{IsHeaderWithin, IsRequestWithin, header_bytes};
ghost use Rattle.swh_http.specs.Field.{AreTakenFields, IsRefusedAs, keeps};
ghost use Rattle.swh_http.specs.Framed.{Frames, IsRefusedHead, IsWholeHead, Found};

use crate::field::{asks_close, common_length, values_of};
use httparse::Status;
use httparse::spans::{EMPTY_HEADER_SPAN, HeaderSpan, RequestSpans, parse_request};
use std::alloc::Global;
use swh_base::{BODY_LIMIT, Bytes, Memory};

/// The most fields of a head.
const FIELD_LIMIT: usize = 64;

/// A request without its body.
#[derive(Debug, Drop)]
pub struct Framed {
    pub method: Bytes,
    pub path: Bytes,
    pub keep: bool,
    /// The bytes of the body.
    pub length: usize,
}

// The length of the body, or the status with which the head is refused.
fn judge(alloc: Global, head: &[u8], headers: &[HeaderSpan]) -> Result<Result<u64, u16>, Memory>
    requires { All (IsHeaderWithin (length head.now)) headers.now }
    ensures { IfOk result (λ r. MatchResult r (AreTakenFields (map (header_bytes head.now) headers.now))
        (IsRefusedAs (map (header_bytes head.now) headers.now))) }
{
    let lengths = values_of(alloc, head, headers, b"content-length")?;
    let Some(length) = common_length(lengths.as_slice()) else {
        return Ok(Err(400));
    };
    if headers.len() > FIELD_LIMIT {
        return Ok(Err(431));
    }
    let codings = values_of(alloc, head, headers, b"transfer-encoding")?;
    if !codings.as_slice().is_empty() {
        return Ok(Err(501));
    }
    if length > BODY_LIMIT {
        return Ok(Err(413));
    }
    Ok(Ok(length))
}

fn keeps_open(minor: u8, closes: bool) -> bool
    ensures { result ≡ (minor == 1 && not closes) }
{
    minor == 1 && !closes
}

fn keeps(alloc: Global, head: &[u8], headers: &[HeaderSpan], minor: u8) -> Result<bool, Memory>
    requires { All (IsHeaderWithin (length head.now)) headers.now }
    ensures { IfOk result (λ keep. keep ≡ keeps minor (map (header_bytes head.now) headers.now)) }
{
    let connection = values_of(alloc, head, headers, b"connection")?;
    let closes = asks_close(connection.as_slice());
    Ok(keeps_open(minor, closes))
}

// What the parser found of a whole head.
fn frame_of(
    alloc: Global,
    head: &[u8],
    found: &RequestSpans,
    headers: &[HeaderSpan],
) -> Result<Result<Framed, u16>, Memory>
    requires found { Found head.now found.now headers.now }
    ensures { IfOk result (λ r. MatchResult r (Frames head.now) (IsRefusedHead head.now)) }
{
    match judge(alloc, head, headers)? {
        Ok(length) => Ok(Ok(Framed {
            method: Bytes::from_slice(alloc, found.method.of(head))?,
            path: Bytes::from_slice(alloc, found.path.of(head))?,
            keep: keeps(alloc, head, headers, found.version)?,
            length: length as usize,
        })),
        Err(status) => Ok(Err(status)),
    }
}

/// What a whole head says, or the status with which it is refused.
pub fn frame(alloc: Global, head: &[u8]) -> Result<Result<Framed, u16>, Memory>
    requires { IsWholeHead head.now }
    ensures { IfOk result (λ r. MatchResult r (Frames head.now) (IsRefusedHead head.now)) }
{
    let mut spans = vec![in alloc; EMPTY_HEADER_SPAN; head.len() / 3]?;
    let headers = spans.as_mut_slice();
    match parse_request(head, headers) {
        Ok(Status::Complete(found)) => frame_of(alloc, head, &found, &headers[..found.headers]),
        Ok(Status::Partial) => unreachable!(),
        Err(_) => unreachable!(),
    }
}
