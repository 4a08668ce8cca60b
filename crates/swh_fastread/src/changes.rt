// Changes of a commit (git-fast-import(1), filemodify, filedelete, filecopy, filerename, filedeleteall).
ghost use Rattle.std.specs.Prelude.{◌≡◌, ◌≤◌, ◌<◌, true, false, IfOk, IfErr, IfSome};
ghost use Rattle.swh_fastrows.specs.ReadOn.{AreReadOn};
ghost use Rattle.swh_fastrows.specs.declared.fail.ReadFail.TheVariants.{ReadFault as SourceFailed};
ghost use Rattle.swh_fastrows.specs.Explains.{EndsWhole};
ghost use Rattle.swh_fastgrammar.specs.Givable.{IsGivableChange, AreGivable};
ghost use Rattle.swh_fastgrammar.specs.Grammar.{change};
ghost use Rattle.swh_fastrows.specs.Held.{IsNext};
ghost use Rattle.swh_fastrows.specs.Failing.{MayFail};
ghost use Rattle.swh_fastread.specs.Tail.{FindsChange, ChangeFails, ChangesFail, ReadsAll};

use swh_base::Items;
use swh_fastgrammar::{At, Change, Dataref};
use swh_fastlines::{ChangeLine, change_line};
use swh_fastrows::{ReadFail, RowReader, data, next_line};
use swh_outside::Source;

/// The change that the held line is, with the data that follow it where they are inline.
fn next_change<S: Source>(rows: &mut RowReader<S>) -> Result<Option<At<Change>>, ReadFail>
    requires next { IsNext rows.old }
    ensures change { S.tells → IfOk result (FindsChange rows.old rows.new) }
    ensures fails { S.tells → IfErr result (ChangeFails rows.old) }
    ensures may { IfErr result MayFail }
    ensures givable { IfOk result (λ found. IfSome found (λ a. IsGivableChange a.it)) }
    ensures onward { IfOk result (λ found. IfSome found (λ _. rows.old.at < rows.new.at)) }
    ensures never_back { IfOk result (λ _. rows.old.at ≤ rows.new.at) }

    ensures on { AreReadOn rows.old rows.new SourceFailed result }
{
    let at = rows.at();
    match change_line(rows.alloc(), rows.line())? {
        ChangeLine::Whole(change) => {
            rows.take();
            Ok(Some(At { at, it: change }))
        }
        ChangeLine::Inline { mode, path } => {
            rows.take();
            let bytes = data(rows)?;
            let what = Dataref::Inline(bytes);
            let it = Change::Set { mode, what, path };
            Ok(Some(At { at, it }))
        }
        ChangeLine::Over(_) => Ok(None),
        ChangeLine::No => Ok(None),
    }
}

/// The changes that come next; `next` says whether a line is held.
pub fn read_changes<S: Source>(
    rows: &mut RowReader<S>,
    next: bool,
) -> Result<Items<At<Change>>, ReadFail>
    requires line { next ≡ true → IsNext rows.old }
    requires end { S.tells → next ≡ false → EndsWhole rows.old }
    ensures changes { S.tells → IfOk result (ReadsAll change rows.old rows.new false) }
    ensures fails { S.tells → IfErr result (ChangesFail rows.old) }
    ensures may { IfErr result MayFail }
    ensures onward { IfOk result (λ _. rows.old.at ≤ rows.new.at) }
    ensures givable { IfOk result AreGivable }
    ensures some { IfErr result (λ _. next ≡ true) }
    ensures none { next ≡ false → rows.new ≡ rows.old }

    ensures on { AreReadOn rows.old rows.new SourceFailed result }
{
    let mut changes = Vec::new(rows.alloc());
    let mut more = next;
    'changes: while more {
        let Some(change) = next_change(rows)? else {
            return Ok(Items::from_vec(changes));
        };
        changes.push(change)?;
        more = next_line(rows)?;
    }
    Ok(Items::from_vec(changes))
}
