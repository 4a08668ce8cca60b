//! The bytes of a reply.
ghost use Rattle.std.specs.Prelude.{◌≡◌, ◌++◌, IfOk, OnOk, decimal};
ghost use Rattle.http.specs.StatusCode.{IsStatusCode};
ghost use Rattle.swh_http.specs.Reply.{
  head_text,
  reply_text,
  phrase_of,
  closing,
  status_line,
  length_line,
  type_line,
  HasBody,
};

use http::StatusCode;
use itoa::Buffer;
use std::alloc::{AllocError, Global};
use swh_base::{Memory, Reply};

fn push_decimal(text: &mut Vec<u8>, number: u64) -> Result<(), AllocError>
    ensures { OnOk result (text.new.items ≡ text.old.items ++ decimal number) }
{
    let mut buffer = Buffer::new();
    text.extend_from_slice(buffer.format(number).as_bytes())
}

fn phrase(status: u16) -> &'static str
    requires { IsStatusCode status }
    ensures { result.now ≡ phrase_of status }
{
    match StatusCode::from_u16(status) {
        Ok(status) => status.canonical_reason().unwrap_or(""),
        Err(_) => unreachable!(),
    }
}

fn push_status(text: &mut Vec<u8>, status: u16) -> Result<(), AllocError>
    requires { IsStatusCode status }
    ensures { OnOk result (text.new.items ≡ text.old.items ++ status_line status) }
{
    text.extend_from_slice(b"HTTP/1.1 ")?;
    push_decimal(text, u64::from(status))?;
    text.extend_from_slice(b" ")?;
    text.extend_from_slice(phrase(status).as_bytes())?;
    text.extend_from_slice(b"\r\n")?;
    Ok(())
}

fn push_length(text: &mut Vec<u8>, length: u64) -> Result<(), AllocError>
    ensures { OnOk result (text.new.items ≡ text.old.items ++ length_line length) }
{
    text.extend_from_slice(b"Content-Length: ")?;
    push_decimal(text, length)?;
    text.extend_from_slice(b"\r\n")?;
    Ok(())
}

fn type_line(json: bool) -> &'static [u8]
    ensures { result.now ≡ type_line json }
{
    if json {
        b"Content-Type: application/json\r\n"
    } else {
        b"Content-Type: application/octet-stream\r\n"
    }
}

fn closing(keep: bool) -> &'static [u8]
    ensures { result.now ≡ closing keep }
{
    if keep { b"" } else { b"Connection: close\r\n" }
}

/// The head of a reply: its bytes up to the body, so that a body can be put without a copy of it. The status is a number
/// of three digits from 200 on, and neither 204, 205 nor 304: a reply with one of these has no body. A connection that is
/// not kept is said to close.
pub fn reply_head(alloc: Global, reply: &Reply, keep: bool) -> Result<Vec<u8>, Memory>
    requires { HasBody reply.now.status }
    ensures { IfOk result (λ head. head.items ≡ head_text reply.now keep) }
{
    let mut text = Vec::new(alloc);
    push_status(&mut text, reply.status)?;
    push_length(&mut text, reply.body.as_slice().len() as u64)?;
    text.extend_from_slice(type_line(reply.json))?;
    text.extend_from_slice(closing(keep))?;
    text.extend_from_slice(b"\r\n")?;
    Ok(text)
}

/// The bytes of a reply, which are those of its head and of its body. Its status is as `reply_head` has it.
pub fn reply_bytes(alloc: Global, reply: &Reply, keep: bool) -> Result<Vec<u8>, Memory>
    requires { HasBody reply.now.status }
    ensures { IfOk result (λ bytes. bytes.items ≡ reply_text reply.now keep) }
{
    let mut text = reply_head(alloc, reply, keep)?;
    text.extend_from_slice(reply.body.as_slice())?;
    Ok(text)
}
