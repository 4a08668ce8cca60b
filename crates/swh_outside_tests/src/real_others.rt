// The clock, the sink, and the parts whose calls fail.
use std::fs::File;
use std::io::ErrorKind;
use std::test::Fail;
use std::time::{Duration, SystemTime, UNIX_EPOCH};
use std::{io, rt};
use swh_outside::{Clock, Failed, Sink};
use swh_real::{RealClock, RealSink};
use swh_temp_folders::{clear, fresh_room, is_file, path_in};

// Whole seconds since 1970, as the library says them; none where it says none.
fn seconds(rt: &HostRuntime) -> Option<u64> {
    let now = SystemTime::now(rt).ok()?;
    let time = now.duration_since(UNIX_EPOCH).ok()?;
    Some(time.as_secs())
}

fn says_the_second(rt: &HostRuntime, clock: &mut RealClock<HostRuntime>) -> bool {
    match (seconds(rt), clock.now(), seconds(rt)) {
        (Some(before), Ok(now), Some(after)) => before <= now && now <= after,
        _ => false,
    }
}

#[test]
fn a_clock_says_the_second(rt: HostRuntime) -> Result<(), Fail> {
    let mut clock = RealClock::new(rt.clone()?);
    assert!(rt; says_the_second(&rt, &mut clock) && clock.faults() == 0);
    Ok(())
}

// A clock of the system that says one time, or fails.
#[derive(Drop)]
struct Stopped {
    time: Option<Duration>,
}

impl rt::Clock for Stopped {
    fn monotonic(&self) -> io::Result<Duration> {
        self.since_1970()
    }

    fn since_1970(&self) -> io::Result<Duration> {
        match self.time {
            Some(time) => Ok(time),
            None => Err(io::Error::from(ErrorKind::Unsupported)),
        }
    }
}

// A second and a part of it that the system says, if it says one, and what the clock says then.
const SAID: [(Option<(u64, u32)>, Result<u64, Failed>); 6] = [
    (Some((0, 0)), Ok(0)),
    (Some((0, 999_999_999)), Ok(0)),
    (Some((1_700_000_001, 0)), Ok(1_700_000_001)),
    (Some((1_700_000_002, 500_000_000)), Ok(1_700_000_002)),
    (Some((1 << 40, 0)), Ok(1 << 40)),
    (None, Err(Failed)),
];

#[test]
fn a_clock_says_each_second(rt: HostRuntime) {
    for (number, (said, second)) in SAID.iter().enumerate() {
        let time = said.map(|(seconds, part)| Duration::new(seconds, part));
        let mut clock = RealClock::new(Stopped { time });
        assert_eq!(rt; clock.now(), *second, "row {number}");
    }
}

// Pieces, and what was put in all once each was.
const PIECES: [(&str, &str); 3] = [
    ("one\n", "one\n"),
    ("", "one\n"),
    ("three\n", "one\nthree\n"),
];

fn takes_each_piece(rt: &HostRuntime, path: &str, sink: &mut RealSink<File>) -> bool {
    for (piece, whole) in PIECES {
        if sink.put(piece.as_bytes()).is_err() || !is_file(rt, path, whole.as_bytes()) {
            return false;
        }
    }
    sink.faults() == 0
}

fn is_taken(rt: &HostRuntime, path: &str) -> Result<bool, Fail> {
    let mut sink = RealSink::new(File::create(rt, path)?);
    Ok(takes_each_piece(rt, path, &mut sink))
}

fn is_refused(rt: &HostRuntime, path: &str) -> Result<bool, Fail> {
    let mut shut = RealSink::new(File::open(rt, path)?);
    Ok(shut.put(b"more").is_err() && shut.faults() == 1)
}

fn sinks_end_so(rt: &HostRuntime, room: &str) -> Result<bool, Fail> {
    let path = path_in(rt.alloc(), room, "out")?;
    Ok(is_taken(rt, path.as_str())? && is_refused(rt, path.as_str())?)
}

/// What was put stands in the file while the sink is open still, since each piece is flushed. One over a file that is
/// opened for reading takes nothing.
#[test]
fn a_sink_takes_each_piece(rt: HostRuntime) -> Result<(), Fail> {
    let room = fresh_room(&rt, "sink", &[])?;
    assert!(rt; sinks_end_so(&rt, room.as_str())?);
    clear(&rt, room.as_str())
}
