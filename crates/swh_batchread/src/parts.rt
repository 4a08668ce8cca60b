//! The parts of a batch (git-cat-file(1), batch output), read through a window.
ghost use Rattle.std.specs.Prelude.{
  ◌≡◌,
  ◌≤◌,
  ◌<◌,
  ◌+◌,
  ◌^◌,
  ◌++◌,
  ◌∷◌,
  [],
  IfOk,
  IfErr,
  IfSome,
  IfNone,
  length,
};
ghost use Rattle.std.specs.Bool.{OnTrue};
ghost use Rattle.swh_base.specs.Limits.{body_limit};
ghost use Rattle.swh_base.specs.declared.visit.Which.TheVariants.{Stream as WholeInput};
ghost use Rattle.swh_outside.specs.Faults.{HasCause};
ghost use Rattle.swh_fastlex.specs.Line.{unread, Takes, IsAtEnd, IsLine};
ghost use Rattle.swh_fastlex.specs.ReadOn.{IsReadOn};
ghost use Rattle.swh_batchread.specs.declared.fault.BatchFault.TheVariants.{ReadFault as NotRead};
ghost use Rattle.swh_batchread.specs.declared.fault.BatchFault.TheVariants.{BadBatch, Limit};
ghost use Rattle.swh_batchread.specs.Batch.{IsHeader, header_text};
ghost use Rattle.swh_batchread.specs.BatchFault.{HeaderBreaks, BodyBreaks, MayBreakBatch};
ghost use Rattle.swh_batchread.specs.Failing.{Fails};
ghost use Rattle.swh_batchread.specs.Parts.{IsHeaderIn, EndsBody};

use crate::fault::BatchFault;
use crate::header::{Header, header_of};
use crate::limits::INPUT_LIMIT;
use std::alloc::Global;
use swh_base::{BODY_LIMIT, Which};
use swh_fastlex::{LineFault, Window, next_data, next_line};
use swh_outside::{Failed, Source};

/// Why the object whose header begins at `start` is refused, of which the bytes up to `end` were looked at: where these
/// pass the limit of the input that is told.
fn broken(start: u64, end: u64) -> BatchFault
    ensures past { INPUT_LIMIT < end → result ≡ Limit WholeInput (INPUT_LIMIT + 1) }
    ensures within { end ≤ INPUT_LIMIT → result ≡ BadBatch start }
{
    if end > INPUT_LIMIT {
        BatchFault::Limit {
            which: Which::Stream,
            number: INPUT_LIMIT + 1,
        }
    } else {
        BatchFault::BadBatch { at: start }
    }
}

/// The header that a line with its LF is.
fn header_in(line: &[u8]) -> Option<Header>
    requires { IsLine line.now }
    ensures { IsHeaderIn line.now result }
{
    header_of(&line[..line.len() - 1])
}

/// The next header; none where nothing is to be read.
pub fn next_header<S: Source>(
    alloc: Global,
    window: &mut Window,
    source: &mut S,
) -> Result<Option<Header>, BatchFault>
    requires { window.old.place ≤ INPUT_LIMIT }
    ensures is { IfOk result (λ found. IfSome found IsHeader) }
    ensures counted { IfOk result (λ found. IfSome found (λ h. window.new.place
        ≡ window.old.place + length (header_text h))) }
    ensures within { IfOk result (λ found. IfSome found (λ _. window.new.place ≤ INPUT_LIMIT)) }
    ensures taken { S.tells → IfOk result (λ found. IfSome found (λ h. Takes window.old window.new
        (S.left source.old) (S.left source.new) (header_text h))) }
    ensures none { S.tells → IfOk result (λ found. IfNone found (IsAtEnd window.old window.new
        (S.left source.old) (S.left source.new))) }
    ensures err { IfErr result (Fails S.tells MayBreakBatch
        (HeaderBreaks window.old.place (unread window.old (S.left source.old)))
        (S.faults source.old) (S.faults source.new)) }

    ensures on { IsReadOn S.path S.faults source.old source.new NotRead result }
{
    let start = window.place();
    let line = match next_line(alloc, window, source) {
        Ok(Some(line)) => line,
        Ok(None) => return Ok(None),
        Err(LineFault::End) => return Err(broken(start, window.place())),
        Err(LineFault::Limit) => return Err(broken(start, window.place())),
        Err(LineFault::Failed) => return Err(BatchFault::ReadFault),
        Err(LineFault::Memory) => return Err(BatchFault::Memory),
    };
    if window.place() > INPUT_LIMIT {
        return Err(broken(start, window.place()));
    }
    match header_in(line.as_slice()) {
        Some(header) => Ok(Some(header)),
        None => Err(broken(start, window.place())),
    }
}

/// The next byte; none where nothing is to be read.
fn next_byte<S: Source>(window: &mut Window, source: &mut S) -> Result<Option<u8>, Failed>
    requires { window.old.place ≤ 2 ^ 63 }
    ensures taken { S.tells → IfOk result (λ found. IfSome found (λ byte. Takes window.old window.new
        (S.left source.old) (S.left source.new) (byte ∷ []))) }
    ensures counted { IfOk result (λ found. IfSome found (λ _. window.new.place ≡ window.old.place + 1)) }
    ensures none { S.tells → IfOk result (λ found. IfNone found (IsAtEnd window.old window.new
        (S.left source.old) (S.left source.new))) }
    ensures same_place { IfOk result (λ found. IfNone found (window.new.place ≡ window.old.place)) }

    ensures same_path { S.path source.new ≡ S.path source.old }
    ensures cause { HasCause (S.faults source.old) (S.faults source.new) result }
{
    if !window.fill(source)? {
        return Ok(None);
    }
    let byte = window.held()[0];
    window.skip(1);
    Ok(Some(byte))
}

/// Whether the next byte is the LF behind a body, which is then read; it ends within the limit.
fn ends_body<S: Source>(window: &mut Window, source: &mut S) -> Result<bool, Failed>
    requires { window.old.place ≤ 2 ^ 63 }
    ensures ends { S.tells → IfOk result (EndsBody window.old window.new (S.left source.old) (S.left source.new)) }
    ensures counted { IfOk result (λ ends. OnTrue ends ((window.new.place ≡ window.old.place + 1)
        × (window.new.place ≤ INPUT_LIMIT))) }

    ensures same_path { S.path source.new ≡ S.path source.old }
    ensures cause { HasCause (S.faults source.old) (S.faults source.new) result }
{
    match next_byte(window, source)? {
        Some(byte) => Ok(byte == b'\n' && window.place() <= INPUT_LIMIT),
        None => Ok(false),
    }
}

/// The body of so many bytes, with the LF behind it, of the object whose header begins at `start`. Its room is taken at
/// once, where it is within the limit, and it is copied once.
pub fn next_body<S: Source>(
    alloc: Global,
    window: &mut Window,
    source: &mut S,
    start: u64,
    size: u64,
) -> Result<Vec<u8>, BatchFault>
    requires start { start ≤ INPUT_LIMIT }
    requires place { window.old.place ≤ INPUT_LIMIT }
    ensures size { IfOk result (λ body. length body.items ≡ size) }
    ensures short { IfOk result (λ _. size ≤ body_limit) }
    ensures counted { IfOk result (λ _. window.new.place ≡ window.old.place + (size + 1)) }
    ensures within { IfOk result (λ _. window.new.place ≤ INPUT_LIMIT) }
    ensures taken { S.tells → IfOk result (λ body. Takes window.old window.new (S.left source.old)
        (S.left source.new) (body.items ++ 10 ∷ [])) }
    ensures err { IfErr result (Fails S.tells MayBreakBatch
        (BodyBreaks start window.old.place (unread window.old (S.left source.old)) size)
        (S.faults source.old) (S.faults source.new)) }

    ensures on { IsReadOn S.path S.faults source.old source.new NotRead result }
{
    if size > BODY_LIMIT {
        return Err(BatchFault::Limit {
            which: Which::Body,
            number: size,
        });
    }
    let body = match next_data(alloc, window, source, size) {
        Ok(body) => body,
        Err(LineFault::End) => return Err(broken(start, window.place())),
        Err(LineFault::Limit) => unreachable!(),
        Err(LineFault::Failed) => return Err(BatchFault::ReadFault),
        Err(LineFault::Memory) => return Err(BatchFault::Memory),
    };
    if ends_body(window, source)? {
        Ok(body)
    } else {
        Err(broken(start, window.place()))
    }
}
