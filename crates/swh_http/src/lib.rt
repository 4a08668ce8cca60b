//! Requests and replies on the wire: HTTP/1.0 and 1.1, over one connection.
//! Stands on `swh_base`, `httparse`, `http` and `itoa`.
//! Callers may rely on: over any pieces the requests are those of the bytes, a refusal comes exactly in its case, and a
//! reply is written as RFC 9112 has it.
#![tactic(auto)]

mod ask;
mod field;
mod head;
mod head_state;
mod laws;
mod reply;
mod session;
mod state;

pub use ask::Ask;
pub use laws::{any_pieces, one_answer};
pub use reply::{reply_bytes, reply_head};
pub use session::Session;
