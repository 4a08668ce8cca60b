// Tags of a stream (git-fast-import(1), tag).
ghost use Rattle.std.specs.Prelude.{◌≡◌, ◌++◌, ◌∷◌, [], Bool, codes, IfOk, IfErr, ◌<◌};
ghost use Rattle.swh_fastrows.specs.ReadOn.{AreReadOn};
ghost use Rattle.swh_fastrows.specs.declared.fail.ReadFail.TheVariants.{ReadFault as SourceFailed};
ghost use Rattle.swh_fastrows.specs.Explains.{Explains, Reads};
ghost use Rattle.swh_fastgrammar.specs.Givable.{IsGivable};
ghost use Rattle.swh_fastgrammar.specs.Grammar.{IsCommand};
ghost use Rattle.swh_fastrows.specs.Held.{IsNext};
ghost use Rattle.swh_fastrows.specs.Failing.{MayFail};
ghost use Rattle.swh_fastgrammar.specs.Word.{NamesTag};

use swh_base::Bytes;
use swh_fastgrammar::Command;
use swh_fastrows::{
    ReadFail, RowReader, data, named_commit, optional_mark, optional_person, skip_oid,
};
use swh_outside::Source;

/// The tag of this name that the held line begins.
pub fn read_tag<S: Source>(rows: &mut RowReader<S>, branch: Bytes) -> Result<Command, ReadFail>
    requires next { IsNext rows.old }
    requires line { rows.old.held ≡ (codes "tag " ++ branch) ++ 10 ∷ [] }
    requires name { NamesTag branch branch }
    ensures givable { IfOk result IsGivable }
    ensures command { S.tells → IfOk result (Reads IsCommand rows.old rows.new) }
    ensures fails { S.tells → IfErr result (λ fail. (p : Bool) → Explains rows.old p fail) }
    ensures may { IfErr result MayFail }
    ensures onward { IfOk result (λ _. rows.old.at < rows.new.at) }

    ensures on { AreReadOn rows.old rows.new SourceFailed result }
{
    rows.take();
    let mark = optional_mark(rows)?;
    let target = named_commit(rows)?;
    skip_oid(rows)?;
    let tagger = optional_person(rows, b"tagger ")?;
    let message = data(rows)?;
    Ok(Command::Tag {
        branch,
        mark,
        target,
        tagger,
        message,
    })
}
