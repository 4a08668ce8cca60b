// What a barrier comes to.
ghost use Rattle.std.specs.Prelude.{◌≡◌, ◌↔◌, ◌⊎◌, IsTrue, IsOk, IsErrAnd};
ghost use Rattle.std.specs.IoError.{error_kind};

use crate::opening::Access;
use std::io;
use std::io::ErrorKind;

// Whether a barrier that did not go well is one of a file system that knows none.
fn knows_none(fault: &io::Error) -> bool
    ensures { IsTrue result ↔ (error_kind fault.now ≡ ErrorKind.InvalidInput) }
{
    fault.kind() == ErrorKind::InvalidInput
}

/// What a barrier comes to, by what the system said of it, and by what the file is opened for. For who only reads it may
/// be a file of a file system that takes no writes and knows no barrier: there is nothing to bring to the disk.
pub fn barrier_of(said: io::Result<()>, access: Access) -> io::Result<()>
    ensures { IsOk result ↔ (IsOk said ⊎ (IsErrAnd said (λ fault. error_kind fault ≡ ErrorKind.InvalidInput) × (access ≡ Access.Read))) }
{
    let fault = match said {
        Ok(()) => return Ok(()),
        Err(fault) => fault,
    };
    match access {
        Access::Read if knows_none(&fault) => Ok(()),
        _ => Err(fault),
    }
}
