// The replies to requests that are refused before their paths are looked at.
ghost use Rattle.std.specs.Prelude.{◌≡◌, IfOk};
ghost use Rattle.swh_replies.specs.Json.{error_reply};
ghost use Rattle.swh_api.specs.Refusal.{refusal_word};

use std::alloc::Global;
use swh_base::{Memory, Reply};
use swh_replies::refusal;

fn refusal_word(status: u16) -> &'static str
    ensures { result.now ≡ refusal_word status }
{
    match status {
        413 => "length",
        431 => "fields",
        501 => "transfer",
        503 => "memory",
        _ => "request",
    }
}

/// The reply to bytes that a session refuses with this status: `request` for 400, `length` for 413, `fields` for 431 and
/// `transfer` for 501; and for 503, by which want of memory is told, `memory`. Fails where memory runs out.
pub fn refusal_reply(alloc: Global, status: u16) -> Result<Reply, Memory>
    ensures { IfOk result (λ reply. reply ≡ error_reply status (refusal_word status)) }
{
    refusal(alloc, status, refusal_word(status))
}
