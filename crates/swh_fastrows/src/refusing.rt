// What comes next where more is wanted still, and why it is refused.
ghost use Rattle.std.specs.Prelude.{◌≡◌, ◌≤◌, ◌^◌, true, false, [], IfOk, IfErr};
ghost use Rattle.swh_outside.specs.Faults.{Rose};
ghost use Rattle.swh_fastrows.specs.ReadOn.{AreReadOn};
ghost use Rattle.swh_fastlex.specs.Line.{IsLine};
ghost use Rattle.swh_fastrows.specs.declared.fail.ReadFail.TheVariants.{ReadFault as SourceFailed};
ghost use Rattle.swh_fastrows.specs.Explains.{Stops, Refusal, line_refusal};
ghost use Rattle.swh_fastrows.specs.Held.{IsNext, EndsNext};
ghost use Rattle.swh_fastrows.specs.Places.{left, Took, Counts};
ghost use Rattle.swh_fastrows.specs.Failing.{MayFail};

use crate::ahead::Ahead;
use crate::fail::ReadFail;
use crate::row_source::{RowReader, STREAM_LIMIT};
use swh_base::{LINE_LIMIT, Which};
use swh_fastgrammar::StreamWhy;
use swh_fastlines::{is_left_out, word_limit};
use swh_outside::Source;

/// Passes over comments and holds the next line; answers whether there is one.
///
/// # Errors
///
/// The next line passes the limit of lines, that of the stream, or that of a word in it.
pub fn peek<S: Source>(rows: &mut RowReader<S>) -> Result<bool, ReadFail>
    ensures line { IfOk result (λ some. some ≡ true → IsNext rows.new) }
    ensures took { S.tells → IfOk result (λ _. Took rows.old rows.new []) }
    ensures end { S.tells → IfOk result (λ some. some ≡ false → EndsNext rows.new) }
    ensures fails { S.tells → IfErr result (Stops rows.old) }
    ensures may { IfErr result MayFail }
    ensures onward { rows.old.at ≤ rows.new.at }
    ensures within { rows.new.at ≤ 2 ^ 33 }

    ensures on { AreReadOn rows.old rows.new SourceFailed result }
{
    match rows.look()? {
        Ahead::Line => match word_limit(rows.alloc(), rows.line())? {
            Some((which, number)) => Err(ReadFail::Limit { which, number }),
            None => Ok(true),
        },
        Ahead::End => Ok(false),
        Ahead::Long => Err(ReadFail::Limit {
            which: Which::Line,
            number: LINE_LIMIT as u64 + 1,
        }),
        Ahead::Over => Err(ReadFail::Limit {
            which: Which::Stream,
            number: STREAM_LIMIT + 1,
        }),
    }
}

/// Why a line at this place, which no part of a command is, is refused.
pub fn refused_line(line: &[u8], at: u64) -> ReadFail
    ensures { result ≡ line_refusal line.now at }
{
    let why = if is_left_out(line) {
        StreamWhy::LeftOut
    } else {
        StreamWhy::Grammar
    };
    ReadFail::BadStream { at, why }
}

/// Why nothing of what comes next is what is wanted.
pub fn refusal<S: Source>(rows: &mut RowReader<S>) -> ReadFail
    ensures refusal { S.tells → Counts (left rows.old) → Refusal rows.old result }
    ensures may { MayFail result }

    ensures same_path { rows.new.path ≡ rows.old.path }
    ensures later { rows.old.faults ≤ rows.new.faults }
    ensures quiet { (result ≡ SourceFailed → ⊥) → rows.new.faults ≡ rows.old.faults }
    ensures cause { result ≡ SourceFailed → Rose rows.old.faults rows.new.faults }
{
    match peek(rows) {
        Ok(true) => refused_line(rows.line(), rows.at()),
        Ok(false) => ReadFail::BadStream {
            at: rows.end(),
            why: StreamWhy::End,
        },
        Err(fail) => fail,
    }
}
