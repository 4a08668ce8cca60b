// Bytes of a connection as they are read.
ghost use Rattle.std.specs.Prelude.{◌≡◌, ◌<◌, [], List, ℕ, Some, vec_len};
ghost use Rattle.swh_http.specs.Wire.{AwaitsBytes};
ghost use Rattle.swh_serve.specs.Causes.{IsServeCause};
ghost use Rattle.swh_serve.specs.Pieces.{IsWaiting, IsRead};
ghost use Rattle.swh_serve.specs.Served.{seen};

use crate::fault::ServeFault;
use std::alloc::Global;
use swh_http::{Ask, Session};
use swh_outside::{Link, Source};

/// What a connection is read with: what turns its bytes into asks, and room for a piece of them.
#[derive(Drop)]
pub struct Reading {
    pub session: Session,
    pub buffer: Vec<u8>,
}

/// What was read.
#[derive(Debug, Drop)]
pub enum Came {
    /// A piece, and what it asks with the bytes that waited.
    Asks(Vec<Ask>),
    /// The end of the link.
    End,
}

/// A session that has taken nothing, and waits for bytes.
pub fn fresh_session(alloc: Global) -> Session
    ensures fresh { result ≡ Some [] }
    ensures waits { AwaitsBytes [] }
{
    let session = Session::new(alloc);
    let _held = session.held();
    session
}

/// Reads a piece, and what it asks.
pub fn read_asks<L: Link>(link: &mut L, reading: &mut Reading) -> Result<Came, ServeFault>
    requires waits { IsWaiting reading.old.session }
    requires room { 0 < vec_len reading.old.buffer }
    ensures read { (held : List ℕ) → reading.old.session ≡ Some held → IsRead L.Source.tells held
        (seen L.given L.ended L.taken link.old) (seen L.given L.ended L.taken link.new) reading.new.session result }
    ensures room { vec_len reading.new.buffer ≡ vec_len reading.old.buffer }
    ensures same_taken { L.taken link.new ≡ L.taken link.old }
    ensures cause { IsServeCause (L.Source.faults link.old) (L.Source.faults link.new) result }
{
    let Ok(count) = link.get(reading.buffer.as_mut_slice()) else {
        return Err(ServeFault::Read);
    };
    if count == 0 {
        return Ok(Came::End);
    }
    match reading.session.feed(&reading.buffer.as_slice()[..count]) {
        Ok(asks) => Ok(Came::Asks(asks)),
        Err(_) => Err(ServeFault::Memory),
    }
}
