// Commits of a stream (git-fast-import(1), commit).
ghost use Rattle.std.specs.Prelude.{◌≡◌, ◌++◌, ◌∷◌, [], Bool, codes, IfOk, IfErr, ◌<◌};
ghost use Rattle.swh_fastrows.specs.ReadOn.{AreReadOn};
ghost use Rattle.swh_fastrows.specs.declared.fail.ReadFail.TheVariants.{ReadFault as SourceFailed};
ghost use Rattle.swh_fastrows.specs.Explains.{Explains, Reads};
ghost use Rattle.swh_fastgrammar.specs.Givable.{IsGivable};
ghost use Rattle.swh_fastgrammar.specs.Grammar.{IsCommand};
ghost use Rattle.swh_fastrows.specs.Held.{IsNext};
ghost use Rattle.swh_fastrows.specs.Failing.{MayFail};
ghost use Rattle.swh_fastgrammar.specs.Word.{NamesRef};

use crate::tail::read_tail;
use swh_base::Bytes;
use swh_fastgrammar::Command;
use swh_fastrows::{
    ReadFail, RowReader, data, optional_encoding, optional_mark, optional_person, person, skip_oid,
};
use swh_outside::Source;

/// The commit to this ref that the held line begins. It is whole after its data, and after each whole change.
pub fn read_commit<S: Source>(rows: &mut RowReader<S>, branch: Bytes) -> Result<Command, ReadFail>
    requires next { IsNext rows.old }
    requires line { rows.old.held ≡ (codes "commit " ++ branch) ++ 10 ∷ [] }
    requires name { NamesRef branch branch }
    ensures givable { IfOk result IsGivable }
    ensures command { S.tells → IfOk result (Reads IsCommand rows.old rows.new) }
    ensures fails { S.tells → IfErr result (λ fail. (p : Bool) → Explains rows.old p fail) }
    ensures may { IfErr result MayFail }
    ensures onward { IfOk result (λ _. rows.old.at < rows.new.at) }

    ensures on { AreReadOn rows.old rows.new SourceFailed result }
{
    rows.take();
    let mark = optional_mark(rows)?;
    skip_oid(rows)?;
    let author = optional_person(rows, b"author ")?;
    let committer = person(rows, b"committer ")?;
    let encoding = optional_encoding(rows)?;
    let message = data(rows)?;
    let tail = read_tail(rows)?;
    Ok(Command::Commit {
        branch,
        mark,
        author,
        committer,
        encoding,
        message,
        parent: tail.parent,
        merges: tail.merges,
        changes: tail.changes,
    })
}
