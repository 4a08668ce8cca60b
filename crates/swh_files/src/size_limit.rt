// The system's limit on the length of files that a process writes.
ghost use Rattle.std.specs.Prelude.{◌≡◌, ◌↔◌, ◌+◌, ◌<◌, IsTrue, pos};

use libc::types::rlimit;
use std::io;
use std::io::ErrorKind;

// What asks for the limit on a file's length. Where there is none, the limit is the highest number.
const FILE_SIZE: i32 = 1;

// Whether so many bytes at a place would end past the limit, by what the system answers that was asked for it: 0 where it
// said a limit.
fn is_past(asked: i32, limit: u64, at: u64, count: u64) -> bool
    ensures { IsTrue result ↔ ((asked ≡ pos 0) × (limit < at + count)) }
{
    if asked != 0 {
        return false;
    }
    match at.checked_add(count) {
        Some(end) => limit < end,
        None => true,
    }
}

/// Refuses bytes that would end past the limit. The system itself would answer with a signal that ends the process.
pub fn check_size_limit(at: u64, bytes: &[u8]) -> io::Result<()> {
    let mut limit = rlimit {
        rlim_cur: u64::MAX,
        rlim_max: u64::MAX,
    };
    let asked = libc::getrlimit(FILE_SIZE, &mut limit);
    if is_past(asked, limit.rlim_cur, at, bytes.len() as u64) {
        return Err(io::Error::from(ErrorKind::FileTooLarge));
    }
    Ok(())
}
