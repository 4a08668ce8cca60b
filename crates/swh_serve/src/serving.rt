// A connection, from its beginning to its end.
ghost use Rattle.std.specs.Prelude.{◌≡◌, ◌<◌, List, ℕ, Some, IfOk, vec_len};
ghost use Rattle.swh_serve.specs.Asks.{IsReadyBehind};
ghost use Rattle.swh_serve.specs.Causes.{IsServeCause};
ghost use Rattle.swh_serve.specs.Pieces.{IsWaiting, IsPieceEnd, IsProgressOf, IsSessionEnd};
ghost use Rattle.swh_serve.specs.Served.{seen, IsServed};
ghost use Rattle.swh_serve.specs.Turns.{requests_limit, starved_reply};

use crate::answering::answer_asks;
use crate::desk::Desk;
use crate::fault::{PutFault, ServeFault, serve_fault};
use crate::progress::Progress;
use crate::reading::{Came, Reading, fresh_session, read_asks};
use crate::spare::{Spare, make_spare};
use std::alloc::Global;
use swh_http::{Session, any_pieces};
use swh_outside::Link;

/// What came of a connection.
#[derive(Debug, Drop)]
pub struct Served {
    /// How many requests and refusals were replied to.
    pub requests: u64,
}

/// The most bytes that are read at once.
const PIECE: usize = 65_536;

// How a connection has ended where its link has: between two requests, or inside one.
fn end_of(session: &Session, requests: u64) -> Result<Progress, ServeFault>
    ensures { IsSessionEnd session.now requests result }
{
    let held = session.held();
    if held == 0 {
        Ok(Progress::Closed { requests })
    } else {
        Err(ServeFault::Short { held })
    }
}

// How a connection stands behind replies, or the fault by which one was not put whole.
fn progress_of(replied: Result<Progress, PutFault>) -> Result<Progress, ServeFault>
    ensures { IsProgressOf replied result }
{
    match replied {
        Ok(progress) => Ok(progress),
        Err(fault) => Err(serve_fault(fault)),
    }
}

// Reads a piece and replies to all that it asks, before more is read.
fn serve_piece<S, A: Desk<S>, L: Link>(
    spare: &Spare,
    desk: &A,
    date: u64,
    seat: &mut S,
    link: &mut L,
    reading: &mut Reading,
    requests: u64,
) -> Result<Progress, ServeFault>
    requires fits { A.fits desk.now }
    requires ready { (A.protocol desk.now date).ready seat.old }
    requires starved { spare.now.starved ≡ starved_reply }
    requires few { requests < requests_limit }
    requires waits { IsWaiting reading.old.session }
    requires room { 0 < vec_len reading.old.buffer }
    ensures piece { (held : List ℕ) → reading.old.session ≡ Some held
        → IsPieceEnd (A.protocol desk.now date) L.Source.tells requests held seat.old seat.new (seen L.given L.ended L.taken link.old)
        (seen L.given L.ended L.taken link.new) reading.new.session result }
    ensures ready { IfOk result (λ progress. IsReadyBehind (A.protocol desk.now date) seat.new progress) }
    ensures room { vec_len reading.new.buffer ≡ vec_len reading.old.buffer }
    ensures cause { IsServeCause (L.Source.faults link.old) (L.Source.faults link.new) result }
{
    match read_asks(link, reading) {
        Ok(Came::Asks(asks)) => progress_of(answer_asks(
            spare,
            desk,
            date,
            seat,
            link,
            asks.as_slice(),
            requests,
        )),
        Ok(Came::End) => end_of(&reading.session, requests),
        Err(fault) => Err(fault),
    }
}

/// Replies to what comes on a link, in order, each before more is read, up to the first reply that closes or the end
/// of the link. Bytes come in any pieces. A request is answered by the desk, or with 503 where memory runs out; bytes
/// that are no request are refused with 400, 413, 431 or 501, which closes. The thousandth reply closes. A link that
/// ends between two requests, or behind a reply that closes, is `Ok`. Fails where the link does, where it ends inside
/// a request, and where there is no memory to read or to put a reply; then the link has a front of the replies.
pub fn serve_over<S, A: Desk<S>, L: Link>(
    alloc: Global,
    desk: &A,
    date: u64,
    seat: &mut S,
    link: &mut L,
) -> Result<Served, ServeFault>
    requires fits { A.fits desk.now }
    requires ready { (A.protocol desk.now date).ready seat.old }
    ensures served { IsServed (A.protocol desk.now date) L.Source.tells seat.old seat.new (seen L.given L.ended L.taken link.old)
        (seen L.given L.ended L.taken link.new) result }
    ensures cause { IsServeCause (L.Source.faults link.old) (L.Source.faults link.new) result }
{
    any_pieces();
    let session = fresh_session(alloc);
    let Ok(buffer) = vec![in alloc; 0u8; PIECE] else {
        return Err(ServeFault::Memory);
    };
    let Ok(spare) = make_spare(alloc) else {
        return Err(ServeFault::Memory);
    };
    let mut reading = Reading { session, buffer };
    let mut requests = 0u64;
    'pieces: loop {
        match serve_piece(&spare, desk, date, seat, link, &mut reading, requests) {
            Ok(Progress::Open { requests: more }) => requests = more,
            Ok(Progress::Closed { requests }) => return Ok(Served { requests }),
            Err(fault) => return Err(fault),
        }
    }
}
