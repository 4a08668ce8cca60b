//! Requests of the read API, and replies to them.

use crate::bytes::Bytes;
use crate::shared::Shared;

/// A request of the read API: an HTTP method, a path with what may follow a `?`, and a body.
#[derive(Debug, Drop)]
pub struct Request {
    pub method: Bytes,
    pub path: Bytes,
    pub body: Bytes,
    /// The connection is kept after the reply.
    pub keep: bool,
}

/// A reply of the read API: an HTTP status, and a body that is JSON or plain bytes.
#[derive(Debug, Drop)]
pub struct Reply {
    /// The HTTP status: 200 where the request is answered.
    pub status: u16,
    /// Whether the body is JSON (RFC 8259); else it is plain bytes.
    pub json: bool,
    /// A body that is held under a name is shared with its holder, and not copied.
    pub body: Shared<u8>,
}
