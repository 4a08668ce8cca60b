// Why a connection ends before its time.
ghost use Rattle.std.specs.Prelude.{◌≡◌};
ghost use Rattle.swh_serve.specs.Causes.{serve_fault};

/// Why a reply was not put whole.
#[derive(Debug, Drop)]
pub enum PutFault {
    /// The sink failed, and has some first bytes of it.
    Write,
    /// Memory ran out, and nothing of it was put.
    Memory,
}

/// Why a connection did not end behind a reply that closes it, or between two requests.
#[derive(Debug, Drop)]
pub enum ServeFault {
    /// The link could not be read.
    Read,
    /// The link could not be written.
    Write,
    /// The link ended inside a request, of which so many bytes had come.
    Short { held: u64 },
    /// Memory ran out.
    Memory,
}

/// The fault of a connection on which a reply was not put whole.
pub fn serve_fault(fault: PutFault) -> ServeFault
    ensures { result ≡ serve_fault fault }
{
    match fault {
        PutFault::Write => ServeFault::Write,
        PutFault::Memory => ServeFault::Memory,
    }
}
