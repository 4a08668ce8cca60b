// Connections of the system, over loopback.
use std::alloc::Global;
use std::io::{ErrorKind, Read, Write};
use std::net::{Shutdown, TcpListener, TcpStream};
use std::sync::atomic::{AtomicU64, Ordering};
use std::test::Fail;
use std::thread::Threads;
use std::time::{Duration, Instant};
use std::{io, rt, thread};
use swh_outside::{Doors, Failed, Link, OutFault, Sink, Source};
use swh_real::{RealDoors, RealLink};

const REPLY: &[u8] = b"HTTP/1.1 413 Content Too Large\r\nContent-Length: 0\r\n\r\n";

/// The bytes of a request that is not read to its end.
const UNREAD: usize = 8 << 20;

// A port that nobody listens at. It is free until somebody else takes it.
fn free_port(rt: &HostRuntime) -> Result<u16, Fail> {
    Ok(TcpListener::bind(rt, "127.0.0.1:0")?.local_addr()?.port())
}

fn address(alloc: Global, port: u16) -> Result<String, Fail> {
    Ok(format!(in alloc; "127.0.0.1:{port}")?)
}

// Doors that listen, and where.
fn open_doors(rt: &HostRuntime) -> Result<(RealDoors<HostRuntime>, String), Fail> {
    let address = address(rt.alloc(), free_port(rt)?)?;
    let mut doors = RealDoors::new(rt.clone()?);
    match doors.bind(address.as_str()) {
        Ok(()) => Ok((doors, address)),
        Err(_) => Err(Fail::new("bind")),
    }
}

// A client that has connected, and the link that came in of it.
fn meet(
    rt: &HostRuntime,
    doors: &mut RealDoors<HostRuntime>,
    address: &str,
) -> Result<(TcpStream, RealLink<HostRuntime>), Fail> {
    let client = TcpStream::connect(rt, address)?;
    match doors.accept() {
        Ok(link) => Ok((client, link)),
        Err(_) => Err(Fail::new("accept")),
    }
}

// The link gives just these bytes, in one piece.
fn gives(link: &mut RealLink<HostRuntime>, bytes: &[u8]) -> bool {
    let mut out = [0; 64];
    match link.get(&mut out) {
        Ok(count) => &out[..count] == bytes,
        Err(_) => false,
    }
}

// The client reads just these bytes, and then the end.
fn reads_to_end(rt: &HostRuntime, client: &mut TcpStream, bytes: &[u8]) -> io::Result<bool> {
    let mut read = Vec::new(rt.alloc());
    client.read_to_end(&mut read)?;
    Ok(read.as_slice() == bytes)
}

fn is_answered(rt: &HostRuntime) -> Result<bool, Fail> {
    let (mut doors, address) = open_doors(rt)?;
    let (mut client, mut link) = meet(rt, &mut doors, address.as_str())?;
    client.write_all(b"GET / HTTP/1.1\r\n\r\n")?;
    let got = gives(&mut link, b"GET / HTTP/1.1\r\n\r\n");
    let put = link.put(b"first ").is_ok() && link.put(b"second").is_ok();
    client.shutdown(Shutdown::Write)?;
    link.finish();
    let faults = link.faults();
    doors.back(link);
    let read = reads_to_end(rt, &mut client, b"first second")?;
    Ok(got && put && read && faults == 0 && doors.faults() == 0)
}

#[test]
fn a_request_is_answered(rt: HostRuntime) -> Result<(), Fail> {
    assert!(rt; is_answered(&rt)?);
    Ok(())
}

fn is_answered_behind_its_end(rt: &HostRuntime) -> Result<bool, Fail> {
    let (mut doors, address) = open_doors(rt)?;
    let (mut client, mut link) = meet(rt, &mut doors, address.as_str())?;
    client.write_all(b"ask")?;
    client.shutdown(Shutdown::Write)?;
    let ended = gives(&mut link, b"ask") && gives(&mut link, b"") && gives(&mut link, b"");
    let put = link.put(b"answer").is_ok();
    link.finish();
    Ok(ended && put && reads_to_end(rt, &mut client, b"answer")?)
}

/// A client that has closed its half still reads.
#[test]
fn a_reply_goes_out_behind_a_half_close(rt: HostRuntime) -> Result<(), Fail> {
    assert!(rt; is_answered_behind_its_end(&rt)?);
    Ok(())
}

// Sends a long request, and reads the reply to it.
fn is_refused_in_time(rt: &HostRuntime, client: &mut TcpStream) -> io::Result<bool> {
    let piece = vec![in rt.alloc(); b'x'; 65_536]?;
    for _ in 0..UNREAD / 65_536 {
        client.write_all(piece.as_slice())?;
    }
    client.shutdown(Shutdown::Write)?;
    reads_to_end(rt, client, REPLY)
}

// Reads the front of a request, and refuses it.
fn refuses(mut link: RealLink<HostRuntime>) -> bool {
    let mut out = [0; 64];
    let refused = link.get(&mut out) == Ok(64) && link.put(REPLY).is_ok();
    link.finish();
    refused && link.faults() == 0
}

fn is_refused_unread<T: Threads>(rt: &HostRuntime, threads: &T) -> Result<bool, Fail> {
    let (mut doors, address) = open_doors(rt)?;
    let (mut client, link) = meet(rt, &mut doors, address.as_str())?;
    let (read, refused) = thread::join(
        threads,
        || is_refused_in_time(rt, &mut client).unwrap_or(false),
        || refuses(link),
    );
    Ok(read && refused)
}

/// The client reads the reply although most of what it sent was not asked for.
#[test]
fn a_reply_outlives_what_was_not_read(rt: HostRuntime) -> Result<(), Fail> {
    assert!(rt; is_refused_unread(&rt, &rt)?);
    Ok(())
}

fn idle_ends(rt: &HostRuntime) -> Result<bool, Fail> {
    let (mut doors, address) = open_doors(rt)?;
    let (mut client, mut link) = meet(rt, &mut doors, address.as_str())?;
    let begun = Instant::now(rt)?;
    let ended = gives(&mut link, b"");
    let waited = begun.elapsed(rt)?;
    link.finish();
    let read = reads_to_end(rt, &mut client, b"")?;
    let in_time = waited >= Duration::from_secs(4) && waited < Duration::from_secs(15);
    Ok(ended && read && in_time && link.faults() == 0)
}

/// Where no request begins the link ends as input does, and that is no fault.
#[test]
fn an_idle_client_is_given_up(rt: HostRuntime) -> Result<(), Fail> {
    assert!(rt; idle_ends(&rt)?);
    Ok(())
}

// A clock of which each look takes so many seconds.
#[derive(Drop)]
struct Hasty {
    seconds: u64,
    looks: AtomicU64,
}

impl rt::Clock for Hasty {
    fn monotonic(&self) -> io::Result<Duration> {
        let looks = self.looks.fetch_add(1, Ordering::SeqCst);
        Ok(Duration::from_secs(self.seconds.saturating_mul(looks)))
    }

    fn since_1970(&self) -> io::Result<Duration> {
        Err(io::Error::from(ErrorKind::Unsupported))
    }
}

// A look at the clock for each call. So many gets of so many bytes go well at that pace, and the next one fails.
struct Pace {
    seconds: u64,
    bytes: usize,
    gets: u32,
}

const PACES: [Pace; 6] = [
    Pace {
        seconds: 15,
        bytes: 1,
        gets: 2,
    },
    Pace {
        seconds: 10,
        bytes: 1,
        gets: 3,
    },
    Pace {
        seconds: 16,
        bytes: 6_143,
        gets: 2,
    },
    Pace {
        seconds: 16,
        bytes: 6_144,
        gets: 3,
    },
    Pace {
        seconds: 31,
        bytes: 4_096,
        gets: 1,
    },
    Pace {
        seconds: 31,
        bytes: 8_192,
        gets: 2,
    },
];

// The front of a buffer, of so many bytes at most.
fn front(out: &mut [u8], count: usize) -> &mut [u8] {
    let end = count.min(out.len());
    &mut out[..end]
}

fn keeps_pace(stream: TcpStream, pace: &Pace, out: &mut [u8]) -> bool {
    let clock = Hasty {
        seconds: pace.seconds,
        looks: AtomicU64::new(0),
    };
    let mut link = RealLink::new(&clock, stream);
    for _ in 0..pace.gets {
        if link.get(front(out, pace.bytes)) != Ok(pace.bytes) {
            return false;
        }
    }
    link.get(front(out, 1)) == Err(Failed) && link.faults() == 1
}

fn is_given_up_so(rt: &HostRuntime, pace: &Pace) -> Result<bool, Fail> {
    let mut bytes = vec![in rt.alloc(); b'x'; 32_768]?;
    let listener = TcpListener::bind(rt, "127.0.0.1:0")?;
    let mut client = TcpStream::connect(rt, listener.local_addr()?)?;
    client.write_all(bytes.as_slice())?;
    let (stream, _) = listener.accept()?;
    Ok(keeps_pace(stream, pace, bytes.as_mut_slice()))
}

/// A request has half a minute, and a second more for each 4,096 bytes of it.
#[test]
fn a_slow_client_is_given_up(rt: HostRuntime) -> Result<(), Fail> {
    for (number, pace) in PACES.iter().enumerate() {
        assert!(rt; is_given_up_so(&rt, pace)?, "row {number}");
    }
    Ok(())
}

fn fail_unbound(rt: &HostRuntime) -> Result<bool, Fail> {
    let taken = TcpListener::bind(rt, "127.0.0.1:0")?;
    let address = address(rt.alloc(), taken.local_addr()?.port())?;
    let mut doors = RealDoors::new(rt.clone()?);
    Ok(
        doors.accept().is_err()
            && doors.bind("nowhere") == Err(OutFault::Failed)
            && doors.bind(address.as_str()) == Err(OutFault::Failed)
            && doors.faults() == 3,
    )
}

/// An address has a port, and one that another listens at is refused. Nothing comes in where nothing was bound.
#[test]
fn doors_that_are_not_bound_fail(rt: HostRuntime) -> Result<(), Fail> {
    assert!(rt; fail_unbound(&rt)?);
    Ok(())
}
