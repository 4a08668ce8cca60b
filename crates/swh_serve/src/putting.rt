// Replies as they are put on a sink.
ghost use Rattle.std.specs.Prelude.{◌≡◌, ◌++◌, IfOk, IfErr};
ghost use Rattle.swh_http.specs.Reply.{HasBody, head_text, reply_text};
ghost use Rattle.swh_serve.specs.Causes.{IsPutCause};
ghost use Rattle.swh_serve.specs.Puts.{IsTextPut, IsKept};
ghost use Rattle.swh_serve.specs.Turns.{answer_text};

use crate::fault::PutFault;
use std::alloc::Global;
use swh_base::{Reply, Request};
use swh_http::{reply_bytes, reply_head};
use swh_outside::Sink;

/// The longest body, in bytes, that is copied behind its head, so that both go out at once.
const TOGETHER: usize = 32_768;

/// Whether the connection is kept behind what was put.
pub fn kept(put: Result<(), PutFault>, keep: bool) -> Result<bool, PutFault>
    ensures { IsKept put keep result }
{
    match put {
        Ok(()) => Ok(keep),
        Err(fault) => Err(fault),
    }
}

// Puts some bytes.
fn put_text<K: Sink>(sink: &mut K, text: &[u8]) -> Result<(), PutFault>
    ensures text { K.tells → IsTextPut (K.taken sink.old) text.now (K.taken sink.new) result }
    ensures only { IfErr result (λ fault. fault ≡ PutFault.Write) }
    ensures same_heard { K.heard sink.new ≡ K.heard sink.old }
    ensures cause { IsPutCause (K.faults sink.old) (K.faults sink.new) result }
{
    match sink.put(text) {
        Ok(()) => Ok(()),
        Err(_) => Err(PutFault::Write),
    }
}

// Puts the head of a reply alone.
fn put_head<K: Sink>(alloc: Global, sink: &mut K, reply: &Reply, keep: bool) -> Result<(), PutFault>
    requires { HasBody reply.now.status }
    ensures text { K.tells → IsTextPut (K.taken sink.old) (head_text reply.now keep) (K.taken sink.new) result }
    ensures same_heard { K.heard sink.new ≡ K.heard sink.old }
    ensures cause { IsPutCause (K.faults sink.old) (K.faults sink.new) result }
{
    let Ok(head) = reply_head(alloc, reply, keep) else {
        return Err(PutFault::Memory);
    };
    put_text(sink, head.as_slice())
}

// Puts a reply by one call.
fn put_together<K: Sink>(
    alloc: Global,
    sink: &mut K,
    reply: &Reply,
    keep: bool,
) -> Result<(), PutFault>
    requires { HasBody reply.now.status }
    ensures text { K.tells → IsTextPut (K.taken sink.old) (reply_text reply.now keep) (K.taken sink.new) result }
    ensures same_heard { K.heard sink.new ≡ K.heard sink.old }
    ensures cause { IsPutCause (K.faults sink.old) (K.faults sink.new) result }
{
    let Ok(text) = reply_bytes(alloc, reply, keep) else {
        return Err(PutFault::Memory);
    };
    put_text(sink, text.as_slice())
}

// Puts the head of a reply, and then its body from where it lies.
fn put_apart<K: Sink>(
    alloc: Global,
    sink: &mut K,
    reply: &Reply,
    keep: bool,
) -> Result<(), PutFault>
    requires { HasBody reply.now.status }
    ensures text { K.tells → IsTextPut (K.taken sink.old) (reply_text reply.now keep) (K.taken sink.new) result }
    ensures same_heard { K.heard sink.new ≡ K.heard sink.old }
    ensures cause { IsPutCause (K.faults sink.old) (K.faults sink.new) result }
{
    match put_head(alloc, sink, reply, keep) {
        Ok(()) => put_text(sink, reply.body.as_slice()),
        Err(fault) => Err(fault),
    }
}

/// Puts a reply. A body above 32 KiB goes out from where it lies, behind the head; a shorter one together with it.
/// Where memory runs out nothing is put.
pub fn put_reply<K: Sink>(
    alloc: Global,
    sink: &mut K,
    reply: &Reply,
    keep: bool,
) -> Result<(), PutFault>
    requires { HasBody reply.now.status }
    ensures text { K.tells → IsTextPut (K.taken sink.old) (reply_text reply.now keep) (K.taken sink.new) result }
    ensures same_heard { K.heard sink.new ≡ K.heard sink.old }
    ensures cause { IsPutCause (K.faults sink.old) (K.faults sink.new) result }
{
    if reply.body.as_slice().len() <= TOGETHER {
        put_together(alloc, sink, reply, keep)
    } else {
        put_apart(alloc, sink, reply, keep)
    }
}

/// Puts the reply to a request, and says whether the connection is kept behind it. Of the reply to a HEAD the head
/// alone is put (RFC 9110, section 9.3.2), with the length of the body that a GET would be sent.
#[tactic(auto, using(crate::proofs::TextPuts::kept_text, crate::proofs::TextPuts::kept_cause, crate::proofs::TextPuts::kept_same))]
pub fn put_answer<K: Sink>(
    alloc: Global,
    sink: &mut K,
    request: &Request,
    reply: &Reply,
    keep: bool,
) -> Result<bool, PutFault>
    requires { HasBody reply.now.status }
    ensures text { K.tells → IsTextPut (K.taken sink.old) (answer_text request.now reply.now keep) (K.taken sink.new) result }
    ensures kept { IfOk result (λ kept. kept ≡ keep) }
    ensures same_heard { K.heard sink.new ≡ K.heard sink.old }
    ensures cause { IsPutCause (K.faults sink.old) (K.faults sink.new) result }
{
    if request.method.as_slice() == b"HEAD".as_slice() {
        kept(put_head(alloc, sink, reply, keep), keep)
    } else {
        kept(put_reply(alloc, sink, reply, keep), keep)
    }
}
