// Parts of commands that may come where more is wanted still.
ghost use Rattle.std.specs.Prelude.{◌≡◌, ◌≤◌, true, codes, IfOk, IfErr};
ghost use Rattle.swh_fastrows.specs.ReadOn.{AreReadOn};
ghost use Rattle.swh_fastrows.specs.declared.fail.ReadFail.TheVariants.{ReadFault as SourceFailed};
ghost use Rattle.swh_fastrows.specs.Explains.{Stops, PartFails};
ghost use Rattle.swh_fastgrammar.specs.Grammar.{line, mark, oid, from};
ghost use Rattle.swh_fastrows.specs.Places.{Part, OptionalPart, FoundPart, opens_none};
ghost use Rattle.swh_fastrows.specs.Failing.{MayFail};
ghost use Rattle.swh_fastgrammar.specs.Word.{NamesPerson, NamesEncoding};

use crate::fail::ReadFail;
use crate::part_lines::{commit_line, encoding_line, mark_line, person_line};
use crate::refusing::{peek, refusal};
use crate::row_source::RowReader;
use swh_base::{Bytes, behind};
use swh_fastgrammar::{At, Commitish};
use swh_outside::Source;

/// The mark, where a line `mark` comes next.
pub fn optional_mark<S: Source>(rows: &mut RowReader<S>) -> Result<Option<u64>, ReadFail>
    ensures part { S.tells → IfOk result (OptionalPart mark rows.old rows.new) }
    ensures fails { S.tells → IfErr result (Stops rows.old) }
    ensures may { IfErr result MayFail }
    ensures onward { rows.old.at ≤ rows.new.at }

    ensures on { AreReadOn rows.old rows.new SourceFailed result }
{
    if !peek(rows)? {
        return Ok(None);
    }
    let Some(mark) = mark_line(rows.line()) else {
        return Ok(None);
    };
    rows.take();
    Ok(Some(mark))
}

/// Passes over a line `original-oid`, where one comes next.
pub fn skip_oid<S: Source>(rows: &mut RowReader<S>) -> Result<bool, ReadFail>
    ensures part { S.tells → IfOk result (FoundPart oid rows.old rows.new) }
    ensures fails { S.tells → IfErr result (Stops rows.old) }
    ensures may { IfErr result MayFail }
    ensures onward { rows.old.at ≤ rows.new.at }

    ensures on { AreReadOn rows.old rows.new SourceFailed result }
{
    if !peek(rows)? {
        return Ok(false);
    }
    let Some(_) = behind(b"original-oid ", rows.line()) else {
        return Ok(false);
    };
    rows.take();
    Ok(true)
}

/// The person, where a line of this word comes next.
pub fn optional_person<S: Source>(
    rows: &mut RowReader<S>,
    word: &[u8],
) -> Result<Option<Bytes>, ReadFail>
    requires closed { opens_none word.now ≡ true }
    ensures part { S.tells → IfOk result (OptionalPart (line word.now NamesPerson) rows.old rows.new) }
    ensures fails { S.tells → IfErr result (Stops rows.old) }
    ensures may { IfErr result MayFail }
    ensures onward { rows.old.at ≤ rows.new.at }

    ensures on { AreReadOn rows.old rows.new SourceFailed result }
{
    if !peek(rows)? {
        return Ok(None);
    }
    let Some(text) = person_line(word, rows.line()) else {
        return Ok(None);
    };
    let person = Bytes::from_slice(rows.alloc(), text)?;
    rows.take();
    Ok(Some(person))
}

/// The encoding, where a line `encoding` comes next.
pub fn optional_encoding<S: Source>(rows: &mut RowReader<S>) -> Result<Option<Bytes>, ReadFail>
    ensures part { S.tells → IfOk result (OptionalPart (line (codes "encoding ") NamesEncoding) rows.old rows.new) }
    ensures fails { S.tells → IfErr result (Stops rows.old) }
    ensures may { IfErr result MayFail }
    ensures onward { rows.old.at ≤ rows.new.at }

    ensures on { AreReadOn rows.old rows.new SourceFailed result }
{
    if !peek(rows)? {
        return Ok(None);
    }
    let Some(text) = encoding_line(rows.line()) else {
        return Ok(None);
    };
    let encoding = Bytes::from_slice(rows.alloc(), text)?;
    rows.take();
    Ok(Some(encoding))
}

/// The person of the line of this word that comes next.
pub fn person<S: Source>(rows: &mut RowReader<S>, word: &[u8]) -> Result<Bytes, ReadFail>
    requires closed { opens_none word.now ≡ true }
    ensures part { S.tells → IfOk result (Part (line word.now NamesPerson) rows.old rows.new) }
    ensures fails { S.tells → IfErr result (PartFails (line word.now NamesPerson) rows.old) }
    ensures may { IfErr result MayFail }
    ensures onward { IfOk result (λ _. rows.old.at ≤ rows.new.at) }

    ensures on { AreReadOn rows.old rows.new SourceFailed result }
{
    match optional_person(rows, word)? {
        Some(person) => Ok(person),
        None => Err(refusal(rows)),
    }
}

/// The commit that the line `from` that comes next names.
pub fn named_commit<S: Source>(rows: &mut RowReader<S>) -> Result<At<Commitish>, ReadFail>
    ensures part { S.tells → IfOk result (Part from rows.old rows.new) }
    ensures fails { S.tells → IfErr result (PartFails from rows.old) }
    ensures may { IfErr result MayFail }
    ensures onward { IfOk result (λ _. rows.old.at ≤ rows.new.at) }

    ensures on { AreReadOn rows.old rows.new SourceFailed result }
{
    if !peek(rows)? {
        return Err(refusal(rows));
    }
    let Some(commit) = commit_line(rows.alloc(), b"from ", rows.line())? else {
        return Err(refusal(rows));
    };
    let at = rows.at();
    rows.take();
    Ok(At { at, it: commit })
}
