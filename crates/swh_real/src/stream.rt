// Calls on a connection. One that a signal interrupts is tried again.
ghost use Rattle.std.specs.Io.{ReadsAtMost, WritesAtMost};

use std::io;
use std::io::{ErrorKind, Read, Write};
use std::net::TcpStream;

/// Reads some bytes; 0 where the other side has ended.
pub fn read_some(stream: &mut TcpStream, out: &mut [u8]) -> io::Result<usize>
    ensures { ReadsAtMost result out.new }
{
    for _ in 0..u64::MAX {
        match stream.read(out) {
            Err(fault) if fault.kind() == ErrorKind::Interrupted => {}
            read => return read,
        }
    }
    Err(io::Error::from(ErrorKind::Interrupted))
}

/// Writes some of the bytes, and says how many.
pub fn write_some(stream: &mut TcpStream, bytes: &[u8]) -> io::Result<usize>
    ensures { WritesAtMost result bytes.now }
{
    for _ in 0..u64::MAX {
        match stream.write(bytes) {
            Err(fault) if fault.kind() == ErrorKind::Interrupted => {}
            written => return written,
        }
    }
    Err(io::Error::from(ErrorKind::Interrupted))
}
