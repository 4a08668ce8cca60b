// Resets of a stream (git-fast-import(1), reset).
ghost use Rattle.std.specs.Prelude.{◌≡◌, ◌≤◌, ◌++◌, ◌∷◌, [], codes, IfOk, IfErr, ◌<◌};
ghost use Rattle.swh_fastrows.specs.ReadOn.{AreReadOn};
ghost use Rattle.swh_fastrows.specs.declared.fail.Outside.TheVariants.{Failed};
ghost use Rattle.swh_fastrows.specs.Explains.{Reads};
ghost use Rattle.swh_fastgrammar.specs.Givable.{IsGivable};
ghost use Rattle.swh_fastgrammar.specs.Grammar.{target, IsCommand};
ghost use Rattle.swh_fastrows.specs.Held.{IsNext};
ghost use Rattle.swh_fastgrammar.specs.Word.{NamesRef};

use swh_base::{Bytes, behind};
use swh_fastgrammar::{At, Command, Start};
use swh_fastlex::Word;
use swh_fastlines::{commit_word, is_zeros};
use swh_fastrows::{Outside, RowReader, next_line};
use swh_outside::Source;

/// Where a reset leads: the commit that a line `from` names, where one comes next, or no tip where it names forty zeros.
fn reset_target<S: Source>(rows: &mut RowReader<S>) -> Result<Start, Outside>
    ensures target { S.tells → IfOk result (Reads target rows.old rows.new) }
    ensures onward { IfOk result (λ _. rows.old.at ≤ rows.new.at) }

    ensures on { AreReadOn rows.old rows.new Failed result }
{
    if !next_line(rows)? {
        return Ok(Start::Absent);
    }
    let Some(text) = behind(b"from ", rows.line()) else {
        return Ok(Start::Absent);
    };
    if is_zeros(text) {
        rows.take();
        return Ok(Start::NoTip);
    }
    let commit = match commit_word(rows.alloc(), text)? {
        Word::Is(commit) => commit,
        Word::Over(_) => return Ok(Start::Absent),
        Word::No => return Ok(Start::Absent),
    };
    let at = rows.at();
    rows.take();
    Ok(Start::Of(At { at, it: commit }))
}

/// The reset of this ref that the held line begins.
pub fn read_reset<S: Source>(rows: &mut RowReader<S>, branch: Bytes) -> Result<Command, Outside>
    requires next { IsNext rows.old }
    requires line { rows.old.held ≡ (codes "reset " ++ branch) ++ 10 ∷ [] }
    requires name { NamesRef branch branch }
    ensures givable { IfOk result IsGivable }
    ensures command { S.tells → IfOk result (Reads IsCommand rows.old rows.new) }
    ensures onward { IfOk result (λ _. rows.old.at < rows.new.at) }

    ensures on { AreReadOn rows.old rows.new Failed result }
{
    rows.take();
    let parent = reset_target(rows)?;
    Ok(Command::Reset { branch, parent })
}
