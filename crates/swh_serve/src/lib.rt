//! One connection: what is replied to the bytes that come on a link, in order, over any archive that answers
//! (HTTP/1.0 and 1.1; RFC 9110 and RFC 9112).
//! Stands on `swh_base`, `swh_model`, `swh_outside`, `swh_http`, `swh_replies` and `swh_api`.
//! Callers may rely on: there is one reply for each request or refusal of the bytes that came, in order, up to the
//! first that closes; at most 1,000 requests are answered; the reply to a HEAD has no body; and a link that fails or
//! ends inside a request is told.
#![tactic(auto)]

mod answering;
mod calls;
mod desk;
mod fault;
mod laws;
mod progress;
mod putting;
mod reading;
mod serving;
mod spare;

pub use calls::{DeskCall, HasProtocol};
pub use desk::{Answered, Desk};
pub use fault::ServeFault;
pub use laws::{few_turns, head_has_no_body};
pub use serving::{Served, serve_over};
