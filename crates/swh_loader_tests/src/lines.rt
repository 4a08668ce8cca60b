// Lines that report loads.
ghost use Rattle.std.specs.Prelude.{◌≤◌, IfSome};
ghost use Rattle.swh_loader.specs.Report.{outcome_room};

use std::alloc::{AllocError, Global};
use std::test::Fail;
use swh_base::{Bytes, Kind, Memory, Name, Status, Url, Which};
use swh_fixtures::{EMPTY_SNAPSHOT, URL};
use swh_loader::{BadInput, BadText, End, LoadFault, Loaded, Stop, StreamWhy, report_line};

// How an input breaks, without memory of its own.
#[derive(Clone, Copy)]
enum Broken<'a> {
    Stream(u64, StreamWhy),
    Batch(u64),
    Name([u8; 20], [u8; 20]),
    Refs(u64),
    NoObject([u8; 20]),
    Other(&'a [u8]),
    Modes(u64),
    Limit(Which),
}

// How a load ended.
#[derive(Clone, Copy)]
enum Ended<'a> {
    Full,
    NotFound,
    Collision,
    Read,
    Bad(Broken<'a>),
    Stopped(Stop),
}

// The visit of a load, how it ended, and the words that the spec of the lines has for it.
type Line = (u64, Ended<'static>, &'static [u8]);

// The name of a content under which another body is held.
const COLLIDED: Name = Name {
    kind: Kind::Content,
    id: *b"\0\0\0\0\0\0\0\0\0\0\0\0\0\0\0\0\0\0\0\xc3",
};

const LINES: &[Line] = &[
    (
        1,
        Ended::Full,
        b"1\tfull\tswh:1:snp:1a8893e6a86f444e8be8e7bda6cb34fb1735a00e\n",
    ),
    (
        18446744073709551615,
        Ended::NotFound,
        b"18446744073709551615\tnot_found\t-\n",
    ),
    (
        2,
        Ended::Collision,
        b"2\tfailed\tcollision swh:1:cnt:00000000000000000000000000000000000000c3\n",
    ),
    (1, Ended::Read, b"1\tfailed\tread\n"),
    (
        1,
        Ended::Bad(Broken::Stream(0, StreamWhy::Grammar)),
        b"1\tfailed\tstream 0 grammar\n",
    ),
    (
        1,
        Ended::Bad(Broken::Stream(13, StreamWhy::End)),
        b"1\tfailed\tstream 13 end\n",
    ),
    (
        1,
        Ended::Bad(Broken::Stream(18446744073709551615, StreamWhy::LeftOut)),
        b"1\tfailed\tstream 18446744073709551615 left-out\n",
    ),
    (
        1,
        Ended::Bad(Broken::Stream(1, StreamWhy::Mark)),
        b"1\tfailed\tstream 1 mark\n",
    ),
    (
        1,
        Ended::Bad(Broken::Stream(1, StreamWhy::Branch)),
        b"1\tfailed\tstream 1 branch\n",
    ),
    (
        1,
        Ended::Bad(Broken::Stream(1, StreamWhy::Place)),
        b"1\tfailed\tstream 1 place\n",
    ),
    (
        1,
        Ended::Bad(Broken::Batch(18446744073709551615)),
        b"1\tfailed\tbatch 18446744073709551615\n",
    ),
    (
        1,
        Ended::Bad(Broken::Name([0; 20], [255; 20])),
        b"1\tfailed\tname 0000000000000000000000000000000000000000 ffffffffffffffffffffffffffffffffffffffff\n",
    ),
    (
        1,
        Ended::Bad(Broken::Refs(18446744073709551615)),
        b"1\tfailed\trefs 18446744073709551615\n",
    ),
    (
        1,
        Ended::Bad(Broken::NoObject([171; 20])),
        b"1\tfailed\tno-object abababababababababababababababababababab\n",
    ),
    (
        1,
        Ended::Bad(Broken::Other(b"a/b !~\x01 %;\x7f\xc3\xa9")),
        b"1\tfailed\tother a/b%20!~%01%20%25%3B%7F%C3%A9\n",
    ),
    (
        1,
        Ended::Bad(Broken::Modes(18446744073709551615)),
        b"1\tfailed\tmodes 18446744073709551615\n",
    ),
    (
        1,
        Ended::Bad(Broken::Limit(Which::Line)),
        b"1\tfailed\tlimit line\n",
    ),
    (
        1,
        Ended::Bad(Broken::Limit(Which::Path)),
        b"1\tfailed\tlimit path\n",
    ),
    (
        1,
        Ended::Bad(Broken::Limit(Which::Ref)),
        b"1\tfailed\tlimit ref\n",
    ),
    (
        1,
        Ended::Bad(Broken::Limit(Which::Refs)),
        b"1\tfailed\tlimit refs\n",
    ),
    (
        1,
        Ended::Bad(Broken::Limit(Which::Body)),
        b"1\tfailed\tlimit body\n",
    ),
    (
        1,
        Ended::Bad(Broken::Limit(Which::Stream)),
        b"1\tfailed\tlimit stream\n",
    ),
    (0, Ended::Stopped(Stop::DiskFault), b"0\tstopped\tdisk\n"),
    (0, Ended::Stopped(Stop::Wounded), b"0\tstopped\twounded\n"),
    (
        1,
        Ended::Stopped(Stop::Limit {
            which: Which::Store,
            number: 1,
        }),
        b"1\tstopped\tlimit\n",
    ),
    (1, Ended::Stopped(Stop::Memory), b"1\tstopped\tmemory\n"),
    (
        1,
        Ended::Stopped(Stop::Ended {
            status: Status::Failed,
        }),
        b"1\tstopped\tended\n",
    ),
];

// How an input breaks, with memory of its own.
fn text_of(alloc: Global, broken: Broken<'_>) -> Result<BadText, Memory> {
    match broken {
        Broken::Stream(at, why) => Ok(BadText::Stream { at, why }),
        Broken::Batch(at) => Ok(BadText::Batch { at }),
        Broken::Name(given, got) => Ok(BadText::Name { given, got }),
        Broken::Refs(line) => Ok(BadText::Refs { line }),
        Broken::NoObject(id) => Ok(BadText::NoObject { id }),
        Broken::Other(path) => Ok(BadText::Other {
            path: Bytes::from_slice(alloc, path)?,
        }),
        Broken::Modes(line) => Ok(BadText::Modes { line }),
        Broken::Limit(which) => Ok(BadText::Limit { which, number: 1 }),
    }
}

fn failed(visit: u64, bad: BadInput) -> Result<Loaded, LoadFault> {
    Ok(Loaded {
        visit,
        end: End::Failed(bad),
    })
}

fn outcome_of(
    alloc: Global,
    visit: u64,
    ended: Ended<'_>,
) -> Result<Result<Loaded, LoadFault>, Memory> {
    match ended {
        Ended::Full => Ok(Ok(Loaded {
            visit,
            end: End::Full {
                snapshot: EMPTY_SNAPSHOT,
            },
        })),
        Ended::NotFound => Ok(Ok(Loaded {
            visit,
            end: End::NotFound,
        })),
        Ended::Collision => Ok(failed(visit, BadInput::Collision { name: COLLIDED })),
        Ended::Read => Ok(failed(visit, BadInput::Read)),
        Ended::Bad(broken) => Ok(failed(visit, BadInput::Broken(text_of(alloc, broken)?))),
        Ended::Stopped(why) => Ok(Err(LoadFault { visit, why })),
    }
}

/// The room for the detail of an end; for that of a path of more than 26 bytes none is taken here.
fn room_of(ended: &Result<Loaded, LoadFault>) -> Option<usize>
    ensures enough { IfSome result (λ room. outcome_room ended.now ≤ room) }
    ensures small { IfSome result (λ room. room ≤ 86) }
{
    match ended {
        Ok(loaded) => match &loaded.end {
            End::Failed(BadInput::Broken(BadText::Other { path })) => {
                if path.as_slice().len() > 26 {
                    return None;
                }
                Some(86)
            }
            _ => Some(86),
        },
        Err(_) => Some(86),
    }
}

/// The line of a load; none where it tells a longer path than that.
pub fn line_of(
    alloc: Global,
    url: &Url,
    ended: &Result<Loaded, LoadFault>,
) -> Result<Vec<u8>, AllocError> {
    let Some(room) = room_of(ended) else {
        return Ok(Vec::new(alloc));
    };
    let mut text = Vec::with_capacity(alloc, 2_081 + room)?;
    report_line(&mut text, url, ended);
    Ok(text)
}

// Says whether a line tells how its load ended, of the worked origin.
fn is_told(alloc: Global, line: &Line) -> Result<bool, AllocError> {
    let (visit, ended, told) = *line;
    let Ok(url) = Url::new(alloc, URL) else {
        return Ok(false);
    };
    let Ok(outcome) = outcome_of(alloc, visit, ended) else {
        return Ok(false);
    };
    let text = line_of(alloc, &url, &outcome)?;
    Ok(text.as_slice().strip_prefix(b"https://e.org/p\t") == Some(told))
}

#[test]
fn each_end_has_its_line(rt: HostRuntime) -> Result<(), Fail> {
    for line in LINES {
        assert!(rt; is_told(rt.alloc(), line)?);
    }
    Ok(())
}
