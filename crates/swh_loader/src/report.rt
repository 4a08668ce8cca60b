// The line that reports a job.
ghost use Rattle.std.specs.Prelude.{◌≡◌, ◌+◌, ◌≤◌, ◌++◌, ◌∷◌, [], length, vec_capacity, decimal};
ghost use Rattle.swh_loader.specs.Report.{bad_detail, bad_room, end_word, end_detail, end_room};
ghost use Rattle.swh_loader.specs.Report.{fault_detail, outcome_room, report_of, report_line_limit};

use crate::detail::put_bad_text;
use crate::end::{BadInput, End, Loaded};
use crate::writing::{put, put_core, put_number};
use swh_base::{Kind, Name, PATH_LIMIT, Url, VisitKind};
use swh_ingest::{LoadFault, Stop};

/// The most bytes of a line beside its detail: a URL of 2,048, a number of 20 and a status of 9, with a TAB after each, and
/// an LF at the end.
const LINE_ROOM: usize = 2_081;

/// The most bytes of a detail that names no path: a word of 5 and two ids of 40, with spaces between.
const DETAIL_ROOM: usize = 86;

/// The most bytes of the line that reports an input of this kind. A folder's may name a path, whose bytes take three each
/// where they are escaped.
pub fn report_limit(kind: VisitKind) -> usize
    ensures { result ≡ report_line_limit kind }
{
    match kind {
        VisitKind::Fast | VisitKind::Batch => LINE_ROOM + DETAIL_ROOM,
        VisitKind::Dir => LINE_ROOM + 6 + 3 * PATH_LIMIT,
    }
}

fn word_of_end(end: &End) -> &'static [u8]
    ensures is { result.now ≡ end_word end.now }
    ensures short { length result.now ≤ 9 }
{
    match end {
        End::Full { .. } => b"full".as_slice(),
        End::NotFound => b"not_found".as_slice(),
        End::Failed(_) => b"failed".as_slice(),
    }
}

fn detail_of_fault(why: Stop) -> &'static [u8]
    ensures is { result.now ≡ fault_detail why }
    ensures short { length result.now ≤ 7 }
{
    match why {
        Stop::Ended { .. } => b"ended".as_slice(),
        Stop::DiskFault => b"disk".as_slice(),
        Stop::Wounded => b"wounded".as_slice(),
        Stop::Limit { .. } => b"limit".as_slice(),
        Stop::Memory => b"memory".as_slice(),
    }
}

fn put_bad(out: &mut Vec<u8>, bad: &BadInput)
    requires { length out.old.items + bad_room bad.now ≤ vec_capacity out.old }
    ensures items { out.new.items ≡ out.old.items ++ bad_detail bad.now }
    ensures short { length out.new.items ≤ length out.old.items + bad_room bad.now }
    ensures capacity { vec_capacity out.old ≤ vec_capacity out.new }
{
    match bad {
        BadInput::Broken(bad) => put_bad_text(out, bad),
        BadInput::Collision { name } => {
            put(out, b"collision ");
            put_core(out, name);
        }
        BadInput::Read => put(out, b"read"),
    }
}

fn put_detail(out: &mut Vec<u8>, end: &End)
    requires { length out.old.items + end_room end.now ≤ vec_capacity out.old }
    ensures items { out.new.items ≡ out.old.items ++ end_detail end.now }
    ensures short { length out.new.items ≤ length out.old.items + end_room end.now }
    ensures capacity { vec_capacity out.old ≤ vec_capacity out.new }
{
    match end {
        End::Full { snapshot } => put_core(
            out,
            &Name {
                kind: Kind::Snapshot,
                id: *snapshot,
            },
        ),
        End::NotFound => put(out, b"-"),
        End::Failed(bad) => put_bad(out, bad),
    }
}

/// The origin, the visit and the status, with a TAB after each.
fn put_front(out: &mut Vec<u8>, url: &Url, visit: u64, status: &[u8])
    requires room { length out.old.items + 2080 ≤ vec_capacity out.old }
    requires status { length status.now ≤ 9 }
    ensures items { out.new.items ≡ out.old.items ++ (url.now ++ 9 ∷ (decimal visit ++ 9 ∷ (status.now ++ 9 ∷ []))) }
    ensures short { length out.new.items ≤ length out.old.items + 2080 }
    ensures capacity { vec_capacity out.old ≤ vec_capacity out.new }
{
    put(out, url.as_str().as_bytes());
    put(out, b"\t");
    put_number(out, visit);
    put(out, b"\t");
    put(out, status);
    put(out, b"\t");
}

/// Adds the line that reports how the load of an origin ended: its URL, the visit, the status and a detail, with TABs
/// between and an LF at the end.
pub fn report_line(out: &mut Vec<u8>, url: &Url, ended: &Result<Loaded, LoadFault>)
    requires { length out.old.items + (2081 + outcome_room ended.now) ≤ vec_capacity out.old }
    ensures line { out.new.items ≡ out.old.items ++ report_of url.now ended.now }
    ensures short { length out.new.items ≤ length out.old.items + (2081 + outcome_room ended.now) }
    ensures capacity { vec_capacity out.old ≤ vec_capacity out.new }
{
    match ended {
        Ok(loaded) => {
            put_front(out, url, loaded.visit, word_of_end(&loaded.end));
            put_detail(out, &loaded.end);
        }
        Err(fault) => {
            put_front(out, url, fault.visit, b"stopped");
            put(out, detail_of_fault(fault.why));
        }
    }
    put(out, b"\n");
}
