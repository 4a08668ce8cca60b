// Asks that are replied to, in order.
ghost use Rattle.std.specs.Prelude.{◌≡◌, ◌+◌, ◌<◌, All, IfOk, false, true};
ghost use Rattle.swh_http.specs.declared.ask.Ask.TheVariants.{Request as Asked};
ghost use Rattle.swh_http.specs.Reply.{HasBody, reply_text};
ghost use Rattle.swh_serve.specs.Asks.{MayBeReplied, IsAskEnd, AreReplied, IsReadyBehind};
ghost use Rattle.swh_serve.specs.Causes.{IsPutCause};
ghost use Rattle.swh_serve.specs.Puts.{IsTextPut};
ghost use Rattle.swh_serve.specs.Turns.{keeps, requests_limit, refused_reply, starved_reply};

use crate::desk::{Answered, Desk};
use crate::fault::PutFault;
use crate::progress::Progress;
use crate::putting::{kept, put_answer, put_reply};
use crate::spare::Spare;
use swh_api::refusal_reply;
use swh_base::Request;
use swh_http::Ask;
use swh_outside::Sink;

/// The most requests of a connection.
const REQUESTS: u64 = 1_000;

// Whether the connection is kept behind the reply to a request, behind so many others.
fn keeps(request: &Request, closes: bool, number: u64) -> bool
    requires { number < requests_limit }
    ensures { result ≡ keeps number request.now closes }
{
    request.keep && !closes && number + 1 < REQUESTS
}

// Replies to a request, behind so many others, and says whether the connection is kept.
fn answer_request<S, A: Desk<S>, K: Sink>(
    spare: &Spare,
    desk: &A,
    date: u64,
    seat: &mut S,
    sink: &mut K,
    request: &Request,
    number: u64,
) -> Result<bool, PutFault>
    requires fits { A.fits desk.now }
    requires ready { (A.protocol desk.now date).ready seat.old }
    requires starved { spare.now.starved ≡ starved_reply }
    requires few { number < requests_limit }
    ensures ends { IsAskEnd (A.protocol desk.now date) K.tells number (Asked request.now) seat.old seat.new (K.taken sink.old) (K.taken sink.new) result }
    ensures ready { IfOk result (λ keep. keep ≡ true → (A.protocol desk.now date).ready seat.new) }
    ensures same_heard { K.heard sink.new ≡ K.heard sink.old }
    ensures cause { IsPutCause (K.faults sink.old) (K.faults sink.new) result }
{
    match desk.answer(spare.alloc, seat, request, date) {
        Ok(Answered { reply, closes }) => {
            let keep = keeps(request, closes, number);
            put_answer(spare.alloc, sink, request, &reply, keep)
        }
        Err(_) => {
            let keep = keeps(request, false, number);
            put_answer(spare.alloc, sink, request, &spare.starved, keep)
        }
    }
}

// Replies to bytes that were refused. The connection is closed behind it.
#[tactic(auto, using(crate::proofs::TextPuts::kept_text, crate::proofs::TextPuts::kept_cause, crate::proofs::TextPuts::kept_same))]
fn refuse<K: Sink>(spare: &Spare, sink: &mut K, status: u16) -> Result<bool, PutFault>
    requires { HasBody status }
    ensures text { K.tells → IsTextPut (K.taken sink.old) (reply_text (refused_reply status) false) (K.taken sink.new) result }
    ensures closes { IfOk result (λ kept. kept ≡ false) }
    ensures same_heard { K.heard sink.new ≡ K.heard sink.old }
    ensures cause { IsPutCause (K.faults sink.old) (K.faults sink.new) result }
{
    let Ok(reply) = refusal_reply(spare.alloc, status) else {
        return Err(PutFault::Memory);
    };
    kept(put_reply(spare.alloc, sink, &reply, false), false)
}

// Replies to an ask, behind so many others, and says whether the connection is kept.
fn answer_ask<S, A: Desk<S>, K: Sink>(
    spare: &Spare,
    desk: &A,
    date: u64,
    seat: &mut S,
    sink: &mut K,
    ask: &Ask,
    number: u64,
) -> Result<bool, PutFault>
    requires fits { A.fits desk.now }
    requires ready { (A.protocol desk.now date).ready seat.old }
    requires starved { spare.now.starved ≡ starved_reply }
    requires few { number < requests_limit }
    requires replied { MayBeReplied ask.now }
    ensures ends { IsAskEnd (A.protocol desk.now date) K.tells number ask.now seat.old seat.new (K.taken sink.old) (K.taken sink.new) result }
    ensures ready { IfOk result (λ keep. keep ≡ true → (A.protocol desk.now date).ready seat.new × (number + 1 < requests_limit)) }
    ensures same_heard { K.heard sink.new ≡ K.heard sink.old }
    ensures cause { IsPutCause (K.faults sink.old) (K.faults sink.new) result }
{
    match ask {
        Ask::Request(request) => answer_request(spare, desk, date, seat, sink, request, number),
        Ask::Refused { status } => refuse(spare, sink, *status),
    }
}

/// Replies to asks in order, behind so many others, up to the first reply that closes.
pub fn answer_asks<S, A: Desk<S>, K: Sink>(
    spare: &Spare,
    desk: &A,
    date: u64,
    seat: &mut S,
    sink: &mut K,
    asks: &[Ask],
    number: u64,
) -> Result<Progress, PutFault>
    requires fits { A.fits desk.now }
    requires ready { (A.protocol desk.now date).ready seat.old }
    requires starved { spare.now.starved ≡ starved_reply }
    requires few { number < requests_limit }
    requires replied { All MayBeReplied asks.now }
    ensures replied { AreReplied (A.protocol desk.now date) K.tells number asks.now seat.old seat.new (K.taken sink.old) (K.taken sink.new) result }
    ensures ready { IfOk result (λ progress. IsReadyBehind (A.protocol desk.now date) seat.new progress) }
    ensures same_heard { K.heard sink.new ≡ K.heard sink.old }
    ensures cause { IsPutCause (K.faults sink.old) (K.faults sink.new) result }
{
    let mut requests = number;
    'asks: for ask in asks {
        let kept = match answer_ask(spare, desk, date, seat, sink, ask, requests) {
            Ok(kept) => kept,
            Err(fault) => return Err(fault),
        };
        requests += 1;
        if !kept {
            return Ok(Progress::Closed { requests });
        }
    }
    Ok(Progress::Open { requests })
}
