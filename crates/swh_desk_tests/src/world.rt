// An archive in memory, and what requests are answered at it.
use std::alloc::Global;
use std::test::Fail;
use swh_base::{Bytes, Memory, Request, Sha1Namer};
use swh_desk::answer_at_keeper;
use swh_fixtures::{Archive, made_archive};

/// A method, a path and a body; and the status, whether the connection closes, and the body of the reply.
pub type Row = (
    (&'static [u8], &'static [u8], &'static [u8]),
    (u16, bool, &'static [u8]),
);

fn request_of(alloc: Global, method: &[u8], path: &[u8], body: &[u8]) -> Result<Request, Memory> {
    Ok(Request {
        method: Bytes::from_slice(alloc, method)?,
        path: Bytes::from_slice(alloc, path)?,
        body: Bytes::from_slice(alloc, body)?,
        keep: true,
    })
}

fn is_answered(alloc: Global, keeper: &mut Archive<Sha1Namer>, row: &Row) -> Result<bool, Memory> {
    let ((method, path, body), (status, closes, told)) = row;
    let request = request_of(alloc, method, path, body)?;
    let answered = answer_at_keeper(alloc, &Sha1Namer, keeper, &request, 1_000_000_000)?;
    Ok(
        answered.reply.status == *status
            && answered.closes == *closes
            && answered.reply.body.as_slice() == *told,
    )
}

fn first_other_at(
    alloc: Global,
    keeper: &mut Archive<Sha1Namer>,
    rows: &[Row],
) -> Result<usize, Memory> {
    for (number, row) in rows.iter().enumerate() {
        if !is_answered(alloc, keeper, row)? {
            return Ok(number);
        }
    }
    Ok(rows.len())
}

/// Asks an archive of no event, whose ledger's calls of these numbers fail, those of its making counted. The number of the
/// first request with another answer, or how many there are.
pub fn first_other(alloc: Global, ledger_failing: &[u64], rows: &[Row]) -> Result<usize, Fail> {
    let mut keeper = made_archive(alloc, Sha1Namer, ledger_failing, &[])?;
    let first = first_other_at(alloc, &mut keeper, rows);
    let (_store, _ledger) = keeper.close();
    Ok(first?)
}
