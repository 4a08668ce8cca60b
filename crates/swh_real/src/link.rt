// A connection of the system.
ghost use Rattle.std.specs.Prelude.{◌≡◌, ◌≤◌, ◌<◌, length, IfOk, OnErr};
ghost use Rattle.swh_outside.specs.Faults.{HasCause, one_more};

use crate::patience::{time_left, time_to_begin};
use crate::stream::{read_some, write_some};
use std::io;
use std::io::ErrorKind;
use std::marker::Model;
use std::net::{Shutdown, TcpStream};
use std::time::{Clock, Duration, Instant};
use swh_files::Count;
use swh_outside::{Failed, Link, Sink, Source};

/// The seconds for which what still comes is read once nothing more is put.
const LINGER_SECONDS: u64 = 5;

/// The seconds within which some of it has to come.
const SILENCE_SECONDS: u64 = 1;

/// How many bytes of it are read at once, at most.
const LINGER_PIECE: usize = 16_384;

/// What moves over a connection.
#[derive(Clone, Copy, PartialEq, Eq)]
enum Message {
    Request,
    Reply,
}

/// A connection over TCP. A client has 30 s for a request, up to the first byte that is put, and as long for what is
/// put up to the next `get`, each with a second more for every 4,096 bytes that moved; some byte has to move within 20
/// s; what takes longer fails. Where no byte of a request comes within 5 s the link has ended. A contract sees the
/// count of faults.
#[derive(Drop)]
pub struct RealLink<R: Clock + Drop> {
    rt: R,
    stream: TcpStream,
    /// What moves, and since when.
    moving: Option<(Message, Instant)>,
    /// How many bytes of it have moved.
    moved: u64,
    /// How long a read, and how long a write, may wait by what the socket was told.
    read_limit: Option<Duration>,
    write_limit: Option<Duration>,
    count: Count,
}

impl<R: Clock + Drop> Model for RealLink<R> {
    ghost use Rattle.std.specs.Prelude.{ℕ};

    ghost Value = { ℕ };

    ghost view = { λ link. link.count };
}

impl<R: Clock + Drop> RealLink<R> {
    /// A link over a connection whose reads and writes may wait for ever so far.
    pub fn new(rt: R, stream: TcpStream) -> Self
        ensures { result ≡ 0 }
    {
        RealLink {
            rt,
            stream,
            moving: None,
            moved: 0,
            read_limit: None,
            write_limit: None,
            count: Count::new(),
        }
    }

    /// How often it has failed.
    pub fn faults(&self) -> u64
        ensures { result ≡ self.now }
    {
        self.count.get()
    }

    // Reads on for a while.
    fn drain(&mut self) -> io::Result<()>
        ensures { self.new ≡ self.old }
    {
        let begun = Instant::now(&self.rt)?;
        self.limit_reads(Duration::from_secs(SILENCE_SECONDS))?;
        let mut lost = [0u8; LINGER_PIECE];
        'rest: for _ in 0..u64::MAX {
            let count = read_some(&mut self.stream, &mut lost)?;
            if count == 0 || begun.elapsed(&self.rt)? >= Duration::from_secs(LINGER_SECONDS) {
                return Ok(());
            }
        }
        Ok(())
    }

    // How many milliseconds the next call for a message may wait. A message begins where none was moving, or the other
    // one was.
    fn wait_for(&mut self, message: Message) -> io::Result<u64>
        ensures { self.new ≡ self.old }
    {
        let now = Instant::now(&self.rt)?;
        let moving = self.moving;
        let since = match moving {
            Some((moving, since)) if moving == message => since,
            _ => self.begin(message, now),
        };
        let spent = u64::try_from(now.duration_since(since).as_millis()).unwrap_or(u64::MAX);
        match time_left(self.moved, spent) {
            0 => Err(io::Error::from(ErrorKind::TimedOut)),
            left => Ok(left),
        }
    }

    fn begin(&mut self, message: Message, now: Instant) -> Instant
        ensures { self.new ≡ self.old }
    {
        self.moving = Some((message, now));
        self.moved = 0;
        now
    }

    fn add_moved(&mut self, count: usize)
        ensures { self.new ≡ self.old }
    {
        self.moved = self.moved.saturating_add(count as u64);
    }

    // The socket is told only where it changes.
    fn limit_reads(&mut self, limit: Duration) -> io::Result<()>
        ensures { self.new ≡ self.old }
    {
        if self.read_limit != Some(limit) {
            self.stream.set_read_timeout(Some(limit))?;
            self.read_limit = Some(limit);
        }
        Ok(())
    }

    fn limit_writes(&mut self, limit: Duration) -> io::Result<()>
        ensures { self.new ≡ self.old }
    {
        if self.write_limit != Some(limit) {
            self.stream.set_write_timeout(Some(limit))?;
            self.write_limit = Some(limit);
        }
        Ok(())
    }

    // Reads some bytes of a request; 0 where the client has ended, or begins none.
    fn receive(&mut self, out: &mut [u8]) -> io::Result<usize>
        ensures same { self.new ≡ self.old }
        ensures bound { IfOk result (λ n. n ≤ length out.new) }
    {
        let left = self.wait_for(Message::Request)?;
        let begins = self.moved == 0;
        let most = if begins { time_to_begin(left) } else { left };
        self.limit_reads(Duration::from_millis(most))?;
        match read_some(&mut self.stream, out) {
            Ok(count) => {
                self.add_moved(count);
                Ok(count)
            }
            Err(fault) if begins && is_timeout(&fault) => Ok(0),
            Err(fault) => Err(fault),
        }
    }

    // Writes some bytes of a reply.
    fn send_some(&mut self, bytes: &[u8]) -> io::Result<usize>
        ensures same { self.new ≡ self.old }
        ensures bound { IfOk result (λ n. n ≤ length bytes.now) }
        ensures some { IfOk result (λ n. 0 < n) }
    {
        let left = self.wait_for(Message::Reply)?;
        self.limit_writes(Duration::from_millis(left))?;
        let count = write_some(&mut self.stream, bytes)?;
        if count == 0 {
            return Err(io::Error::from(ErrorKind::WriteZero));
        }
        self.add_moved(count);
        Ok(count)
    }

    // Writes all the bytes.
    fn send(&mut self, bytes: &[u8]) -> io::Result<()>
        ensures { self.new ≡ self.old }
    {
        let mut rest = bytes;
        'bytes: while !rest.is_empty() {
            let count = self.send_some(rest)?;
            rest = &rest[count..];
        }
        Ok(())
    }
}

// Nothing came within the time that a read may wait (socket(7), SO_RCVTIMEO).
fn is_timeout(fault: &io::Error) -> bool {
    fault.kind() == ErrorKind::WouldBlock
}

impl<R: Clock + Drop + Send> Source for RealLink<R> {
    ghost use Rattle.std.specs.Prelude.{[], false};

    ghost tells = { ⊥ };

    ghost left = { λ _. [] };

    ghost given = { λ _. [] };

    ghost ended = { λ _. false };

    ghost faults = { λ link. link };

    ghost path = { λ _. [] };

    fn get(&mut self, out: &mut [u8]) -> Result<usize, Failed>
        ensures bound { IfOk result (λ n. n ≤ length out.new) }
        ensures once { OnErr result (self.new ≡ one_more self.old) }
        ensures cause { HasCause self.old self.new result }
    {
        match self.receive(out) {
            Ok(count) => Ok(count),
            Err(_) => Err(self.count.refuse()),
        }
    }
}

impl<R: Clock + Drop + Send> Sink for RealLink<R> {
    ghost use Rattle.std.specs.Prelude.{[]};

    ghost tells = { ⊥ };

    ghost taken = { λ _. [] };

    ghost faults = { λ link. link };

    fn put(&mut self, bytes: &[u8]) -> Result<(), Failed>
        ensures once { OnErr result (self.new ≡ one_more self.old) }
        ensures cause { HasCause self.old self.new result }
    {
        match self.send(bytes) {
            Ok(()) => Ok(()),
            Err(_) => Err(self.count.refuse()),
        }
    }
}

impl<R: Clock + Drop + Send> Link for RealLink<R> {
    ghost use Rattle.std.specs.Prelude.{refl};

    ghost both_tell = { (λ told. told, λ told. told) };

    ghost one_count = { λ _. refl };

    ghost puts_stay = { λ _. refl };

    ghost gets_stay = { λ _. refl };

    // RFC 9293, section 3.6, has the end of what is put as a half that is closed. What comes is read for 5 s or until
    // the other side was silent for a second, since unread bytes would make a reset of the close, which may take the
    // last reply away (RFC 9112, section 9.6). Then both halves are closed.
    fn finish(&mut self)
        ensures { self.new ≡ self.old }
    {
        let _ = self.stream.shutdown(Shutdown::Write);
        let _ = self.drain();
        let _ = self.stream.shutdown(Shutdown::Both);
    }
}
