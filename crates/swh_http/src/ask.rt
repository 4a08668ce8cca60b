//! What the bytes of a connection ask.
use swh_base::Request;

/// One request, or the refusal of what came in its place.
#[derive(Debug, Drop)]
pub enum Ask {
    Request(Request),
    /// The status to reply with; the connection is to be closed, and nothing more is taken from it.
    Refused { status: u16 },
}
