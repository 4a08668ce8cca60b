// Lines of git's format that are left out here.
ghost use Rattle.std.specs.Prelude.{◌≡◌};
ghost use Rattle.swh_fastgrammar.specs.Fault.{is_promise_line, is_left_out};

/// Whether the line is `feature done`.
fn is_promise_line(line: &[u8]) -> bool
    ensures { result ≡ is_promise_line line.now }
{
    line == b"feature done".as_slice()
}

/// Whether the line, without its LF, belongs to git's format and is left out here: notes, folders set by their id,
/// questions to the reader, options, aliases, signatures, and each feature but `done`.
pub fn is_left_out(line: &[u8]) -> bool
    ensures { result ≡ is_left_out line.now }
{
    line.starts_with(b"N ")
        || line.starts_with(b"ls ")
        || line.starts_with(b"cat-blob ")
        || line.starts_with(b"get-mark ")
        || line.starts_with(b"option ")
        || line.starts_with(b"alias")
        || line.starts_with(b"gpgsig ")
        || line.starts_with(b"M 040000 ")
        || (line.starts_with(b"feature ") && !is_promise_line(line))
}
