// Job files: their jobs, the line that breaks, and the limits.
use std::alloc::{AllocError, Global};
use std::test::Fail;
use swh_base::{Bytes, VisitKind};
use swh_jobs::{JobInput, JobLine, JobWhy, JobsFault, LONGEST, parse_jobs};

// A CR at a line's end belongs to the path; the last LF lacks.
const FILE: &[u8] =
    b"fast\thttps://e.org/a\tstreams/a.fi\nfast\thttps://e.org/b c\tb c\r\ndir\td\tin\ndir\te\tin\tin.modes\n\
batch\tbatch\tb\tr\nfast\t\xc3\xbc\t\xc3\xa9\trefs/heads/\xc3\xb6";

// The kind of an input, its path, and its head or its second path; none is written as an empty one, which no job has.
type Parts = (VisitKind, &'static str, &'static [u8]);

static JOBS: [(&str, Parts); 6] = [
    ("https://e.org/a", (VisitKind::Fast, "streams/a.fi", b"")),
    ("https://e.org/b c", (VisitKind::Fast, "b c\r", b"")),
    ("d", (VisitKind::Dir, "in", b"")),
    ("e", (VisitKind::Dir, "in", b"in.modes")),
    ("batch", (VisitKind::Batch, "b", b"r")),
    ("ü", (VisitKind::Fast, "é", b"refs/heads/\xc3\xb6")),
];

fn head_bytes(head: &Option<Bytes>) -> &[u8] {
    match head {
        Some(head) => head.as_slice(),
        None => b"",
    }
}

fn modes_bytes(modes: &Option<String>) -> &[u8] {
    match modes {
        Some(path) => path.as_bytes(),
        None => b"",
    }
}

fn has_parts(input: &JobInput, (kind, path, more): &Parts) -> bool {
    let (found, first, second) = match input {
        JobInput::Fast { path, head } => (VisitKind::Fast, path.as_str(), head_bytes(head)),
        JobInput::Dir { path, modes } => (VisitKind::Dir, path.as_str(), modes_bytes(modes)),
        JobInput::Batch { path, refs } => (VisitKind::Batch, path.as_str(), refs.as_bytes()),
    };
    found == *kind && first == *path && second == *more
}

fn are_jobs(jobs: &[JobLine]) -> bool {
    let mut pairs = jobs.iter().zip(&JOBS);
    jobs.len() == JOBS.len()
        && pairs.all(|(job, (url, parts))| job.url.as_str() == *url && has_parts(&job.input, parts))
}

#[test]
fn jobs_of_a_file(rt: HostRuntime) -> Result<(), Fail> {
    let jobs = parse_jobs(rt.alloc(), FILE)?;
    assert!(rt; are_jobs(&jobs));
    Ok(())
}

// How many jobs a file has.
fn count(alloc: Global, bytes: &[u8]) -> Result<usize, JobsFault> {
    let jobs = parse_jobs(alloc, bytes)?;
    Ok(jobs.len())
}

fn breaks_at(alloc: Global, bytes: &[u8], line: u64, why: JobWhy) -> bool {
    count(alloc, bytes) == Err(JobsFault::Bad { line, why })
}

// The first line that breaks is named; at one line the form goes before the origin.
static BAD: [(&[u8], u64, JobWhy); 33] = [
    (b"\n", 1, JobWhy::Form),
    (b"\nfast\tu\tp\n", 1, JobWhy::Form),
    (b"fast", 1, JobWhy::Form),
    (b"fast\tu", 1, JobWhy::Form),
    (b"fast\tu\t", 1, JobWhy::Form),
    (b"fast\t\tp", 1, JobWhy::Form),
    (b"fast\tu\tp\t", 1, JobWhy::Form),
    (b"fast\tu\tp\tHEAD", 1, JobWhy::Form),
    (b"fast\tu\tp\trefs/heads/a b", 1, JobWhy::Form),
    (b"fast\tu\tp\trefs/heads/m\r\n", 1, JobWhy::Form),
    (b"fast\tu\tp\trefs/heads/m\t", 1, JobWhy::Form),
    (b"fast\tu\r\tp", 1, JobWhy::Form),
    (b"fast\tu\xff\tp", 1, JobWhy::Form),
    (b"fast\tu\tp\xff", 1, JobWhy::Form),
    (b"fast\tu\tp\tm\xff", 1, JobWhy::Form),
    (b"Fast\tu\tp", 1, JobWhy::Form),
    (b" fast\tu\tp", 1, JobWhy::Form),
    (b"dir", 1, JobWhy::Form),
    (b"dir\tu", 1, JobWhy::Form),
    (b"dir\tu\t\tm", 1, JobWhy::Form),
    (b"dir\tu\tp\t", 1, JobWhy::Form),
    (b"dir\tu\tp\tm\tm", 1, JobWhy::Form),
    (b"dir\tu\tp\tm\xff", 1, JobWhy::Form),
    (b"dirs\tu\tp", 1, JobWhy::Form),
    (b"batch\tu\tp", 1, JobWhy::Form),
    (b"batch\tu\tp\t", 1, JobWhy::Form),
    (b"batch\tu\tp\tr\t", 1, JobWhy::Form),
    (b"batch\tu\tp\tr\ndir\tu\tp", 2, JobWhy::Origin),
    (b"\xef\xbb\xbffast\tu\tp", 1, JobWhy::Form),
    (b"fast\tu\tp\nfast\tv\tp\nfast\tu\tq\n", 3, JobWhy::Origin),
    (b"fast\tu\tp\nfast\tu\tp\nfast\n", 2, JobWhy::Origin),
    (b"fast\tu\tp\nfast\tu\t\nfast\tu\tp\n", 2, JobWhy::Form),
    (b"fast\tu\tp\n\n", 2, JobWhy::Form),
];

#[test]
fn lines_that_break(rt: HostRuntime) {
    for (bytes, line, why) in &BAD {
        assert!(rt; breaks_at(rt.alloc(), bytes, *line, *why));
    }
}

// A line of this kind with so many bytes of a URL, a path and what stands behind it, and without an LF.
fn long_line(alloc: Global, kind: &[u8], lengths: &[usize; 3]) -> Result<Vec<u8>, AllocError> {
    let mut line = kind.to_vec(alloc)?;
    for length in lengths {
        line.push(b'\t')?;
        for _ in 0..*length {
            line.push(b'u')?;
        }
    }
    Ok(line)
}

// Kinds, and lengths of a URL, a path and what stands behind it: each is one too many.
static TOO_LONG: [(&[u8], [usize; 3]); 5] = [
    (b"fast", [2_049, 1, 1]),
    (b"fast", [1, 4_097, 1]),
    (b"fast", [1, 1, 1_025]),
    (b"dir", [1, 1, 4_097]),
    (b"batch", [1, 1, 4_097]),
];

#[test]
fn limits_of_a_line(rt: HostRuntime) -> Result<(), Fail> {
    for (kind, lengths) in &TOO_LONG {
        let line = long_line(rt.alloc(), kind, lengths)?;
        assert!(rt; breaks_at(rt.alloc(), &line, 1, JobWhy::Form));
    }
    Ok(())
}

// Kinds, and the longest lengths of their parts.
static LONG: [(&[u8], [usize; 3]); 3] = [
    (b"fast", [2_048, 4_096, 1_024]),
    (b"dir", [2_048, 4_096, 4_096]),
    (b"batch", [2_048, 4_096, 4_096]),
];

#[test]
fn the_longest_lines(rt: HostRuntime) -> Result<(), Fail> {
    for (kind, lengths) in &LONG {
        let longest = long_line(rt.alloc(), kind, lengths)?;
        assert!(rt; longest.len() < LONGEST / 256);
        assert!(rt; count(rt.alloc(), &longest) == Ok(1));
    }
    Ok(())
}

fn push_line(text: &mut Vec<u8>, number: u32) -> Result<(), AllocError> {
    text.extend_from_slice(b"fast\t")?;
    for _ in 0..number {
        text.push(b'u')?;
    }
    text.extend_from_slice(b"\tp\n")
}

// The first bytes, 256 lines whose origins are `u`, `uu` and so on, and the last bytes.
fn lines(alloc: Global, first: &[u8], last: &[u8]) -> Result<Vec<u8>, AllocError> {
    let mut text = first.to_vec(alloc)?;
    for number in 1..257 {
        push_line(&mut text, number)?;
    }
    text.extend_from_slice(last)?;
    Ok(text)
}

#[test]
fn a_file_has_256_lines(rt: HostRuntime) -> Result<(), Fail> {
    let longest = lines(rt.alloc(), b"", b"")?;
    assert!(rt; count(rt.alloc(), &longest) == Ok(256));
    assert!(rt; count(rt.alloc(), b"") == Ok(0));
    Ok(())
}

// What stands before and behind 256 lines, and the line that breaks. Line 257 is one too many, whatever stands in it.
static TOO_MANY: [(&[u8], &[u8], u64, JobWhy); 5] = [
    (b"", b"fast\tv\tp", 257, JobWhy::Limit),
    (b"", b"fast\tu\tp", 257, JobWhy::Limit),
    (b"", b"\n", 257, JobWhy::Limit),
    (b"", b"x", 257, JobWhy::Limit),
    (b"x\n", b"fast\tv\tp", 1, JobWhy::Form),
];

#[test]
fn a_file_of_more_lines(rt: HostRuntime) -> Result<(), Fail> {
    for (first, last, line, why) in &TOO_MANY {
        let text = lines(rt.alloc(), first, last)?;
        assert!(rt; breaks_at(rt.alloc(), &text, *line, *why));
    }
    Ok(())
}
