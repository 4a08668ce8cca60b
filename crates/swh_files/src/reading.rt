// Reads that a signal interrupts are tried again.
ghost use Rattle.std.specs.Io.{ReadsAtMost};

use std::fs::File;
use std::io;
use std::io::{ErrorKind, Read};
use std::os::unix::fs::FileExt;

/// Reads on from where the file was read to.
pub fn read_next(file: &mut File, out: &mut [u8]) -> io::Result<usize>
    ensures { ReadsAtMost result out.new }
{
    for _ in 0..u64::MAX {
        match file.read(out) {
            Err(fault) if fault.kind() == ErrorKind::Interrupted => {}
            read => return read,
        }
    }
    Err(io::Error::from(ErrorKind::Interrupted))
}

/// Reads from a place.
pub fn read_from(file: &File, at: u64, out: &mut [u8]) -> io::Result<usize>
    ensures { ReadsAtMost result out.new }
{
    for _ in 0..u64::MAX {
        match file.read_at(out, at) {
            Err(fault) if fault.kind() == ErrorKind::Interrupted => {}
            read => return read,
        }
    }
    Err(io::Error::from(ErrorKind::Interrupted))
}
