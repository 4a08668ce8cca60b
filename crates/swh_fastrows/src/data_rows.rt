// Data of a stream (git-fast-import(1), data).
ghost use Rattle.std.specs.Prelude.{◌≡◌, ◌≤◌, [], IfOk, IfErr, length};
ghost use Rattle.swh_base.specs.Limits.{body_limit, line_limit};
ghost use Rattle.swh_fastrows.specs.ReadOn.{AreReadOn};
ghost use Rattle.swh_fastrows.specs.declared.fail.ReadFail.TheVariants.{ReadFault as SourceFailed};
ghost use Rattle.swh_fastrows.specs.Explains.{DataFails, OpensCounted, OpensDelimited, cut_fail, data_fail, lines_fail};
ghost use Rattle.swh_fastgrammar.specs.Grammar.{contents};
ghost use Rattle.swh_fastrows.specs.Held.{IsNext};
ghost use Rattle.swh_fastrows.specs.Places.{Part};
ghost use Rattle.swh_fastrows.specs.Failing.{MayFail};

use crate::fail::ReadFail;
use crate::refusing::{peek, refusal};
use crate::row_source::{RowReader, STREAM_LIMIT};
use swh_base::{BODY_LIMIT, Bytes, LINE_LIMIT, Which};
use swh_fastgrammar::StreamWhy;
use swh_fastlex::{DataFault, LineFault};
use swh_fastlines::{DataLine, data_line};
use swh_outside::Source;

/// Why data are not given that the input's end cuts off, at this place.
fn cut_fail(at: u64) -> ReadFail
    ensures { result ≡ cut_fail at }
{
    if at > STREAM_LIMIT {
        return ReadFail::Limit {
            which: Which::Stream,
            number: STREAM_LIMIT + 1,
        };
    }
    ReadFail::BadStream {
        at,
        why: StreamWhy::End,
    }
}

/// Why data that are counted are not given; they end at this place.
fn data_fail(fault: LineFault, at: u64) -> ReadFail
    ensures { result ≡ data_fail fault at }
{
    match fault {
        LineFault::Failed => ReadFail::ReadFault,
        LineFault::End => cut_fail(at),
        LineFault::Limit => ReadFail::Limit {
            which: Which::Body,
            number: at,
        },
        LineFault::Memory => ReadFail::Memory,
    }
}

/// The data that the held line opens: so many bytes, with an LF directly after them.
pub fn counted_data<S: Source>(rows: &mut RowReader<S>, count: u64) -> Result<Bytes, ReadFail>
    requires next { IsNext rows.old }
    requires opens { OpensCounted rows.old count }
    requires fits { count ≤ body_limit }
    ensures data { S.tells → IfOk result (λ bytes. Part contents rows.old rows.new bytes) }
    ensures fails { S.tells → IfErr result (DataFails rows.old) }
    ensures may { IfErr result MayFail }
    ensures onward { IfOk result (λ _. rows.old.at ≤ rows.new.at) }

    ensures on { AreReadOn rows.old rows.new SourceFailed result }
{
    rows.take();
    let bytes = match rows.bytes(count) {
        Ok(bytes) => bytes,
        Err(fault) => return Err(data_fail(fault, rows.at())),
    };
    rows.feed()?;
    if rows.at() > STREAM_LIMIT {
        return Err(ReadFail::Limit {
            which: Which::Stream,
            number: STREAM_LIMIT + 1,
        });
    }
    Ok(Bytes::from_vec(bytes))
}

/// Why data up to a delimiter are not given; they end at this place.
fn lines_fail(fault: DataFault, at: u64) -> ReadFail
    ensures { result ≡ lines_fail fault at }
{
    match fault {
        DataFault::Failed => ReadFail::ReadFault,
        DataFault::End => cut_fail(at),
        DataFault::Line => ReadFail::Limit {
            which: Which::Line,
            number: LINE_LIMIT as u64 + 1,
        },
        DataFault::Body => ReadFail::Limit {
            which: Which::Body,
            number: BODY_LIMIT + 1,
        },
        DataFault::Memory => ReadFail::Memory,
    }
}

/// The data that the held line opens: the lines before the line that is just the word, with an LF directly after it.
fn delimited_data<S: Source>(rows: &mut RowReader<S>, word: &[u8]) -> Result<Bytes, ReadFail>
    requires next { IsNext rows.old }
    requires opens { OpensDelimited rows.old word.now }
    requires short { length word.now ≤ line_limit }
    ensures data { S.tells → IfOk result (λ bytes. Part contents rows.old rows.new bytes) }
    ensures fails { S.tells → IfErr result (DataFails rows.old) }
    ensures may { IfErr result MayFail }
    ensures onward { IfOk result (λ _. rows.old.at ≤ rows.new.at) }

    ensures on { AreReadOn rows.old rows.new SourceFailed result }
{
    rows.take();
    let bytes = match rows.delimited(word, BODY_LIMIT as usize) {
        Ok(bytes) => bytes,
        Err(fault) => return Err(lines_fail(fault, rows.at())),
    };
    rows.feed()?;
    if rows.at() > STREAM_LIMIT {
        return Err(ReadFail::Limit {
            which: Which::Stream,
            number: STREAM_LIMIT + 1,
        });
    }
    Ok(Bytes::from_vec(bytes))
}

/// The data that come next.
pub fn data<S: Source>(rows: &mut RowReader<S>) -> Result<Bytes, ReadFail>
    ensures data { S.tells → IfOk result (λ bytes. Part contents rows.old rows.new bytes) }
    ensures fails { S.tells → IfErr result (DataFails rows.old) }
    ensures may { IfErr result MayFail }
    ensures onward { IfOk result (λ _. rows.old.at ≤ rows.new.at) }

    ensures on { AreReadOn rows.old rows.new SourceFailed result }
{
    if !peek(rows)? {
        return Err(refusal(rows));
    }
    match data_line(rows.line()) {
        DataLine::Counted(count) => counted_data(rows, count),
        DataLine::Delimited(word) => {
            let word = Vec::from_slice(rows.alloc(), word)?;
            delimited_data(rows, word.as_slice())
        }
        DataLine::No => Err(refusal(rows)),
    }
}
