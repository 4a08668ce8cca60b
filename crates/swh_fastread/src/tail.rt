// What may follow a commit's data (git-fast-import(1), from, merge).
ghost use Rattle.std.specs.Prelude.{◌≡◌, ◌≤◌, true, false, codes, IfOk, IfErr};
ghost use Rattle.swh_fastrows.specs.ReadOn.{AreReadOn};
ghost use Rattle.swh_fastrows.specs.declared.fail.Outside.TheVariants.{Failed};
ghost use Rattle.swh_fastrows.specs.declared.fail.ReadFail.TheVariants.{ReadFault as SourceFailed};
ghost use Rattle.swh_fastrows.specs.Explains.{EndsWhole};
ghost use Rattle.swh_fastgrammar.specs.Givable.{AreGivable};
ghost use Rattle.swh_fastgrammar.specs.Grammar.{placed_line, start_of};
ghost use Rattle.swh_fastgrammar.specs.Word.{NamesCommit};
ghost use Rattle.swh_fastrows.specs.Held.{IsNext};
ghost use Rattle.swh_fastrows.specs.Failing.{MayFail};
ghost use Rattle.swh_fastread.specs.Tail.{ReadsFrom, ReadsAll, ReadsStart, TailFails};

use crate::changes::read_changes;
use swh_base::Items;
use swh_fastgrammar::{At, Change, Commitish, Start};
use swh_fastrows::{Outside, ReadFail, RowReader, commit_line, next_line};
use swh_outside::Source;

/// The parent that a line `from` names, if one came, and whether a line is held then.
#[derive(Drop)]
struct Parent {
    commit: Option<At<Commitish>>,
    next: bool,
}

/// The commits that lines `merge` name, and whether a line is held then.
#[derive(Drop)]
struct Merges {
    commits: Items<At<Commitish>>,
    next: bool,
}

/// What follows a commit's data.
#[derive(Drop)]
pub struct Tail {
    pub parent: Start,
    pub merges: Items<At<Commitish>>,
    pub changes: Items<At<Change>>,
}

/// What a commit starts from.
fn start_of(parent: Option<At<Commitish>>) -> Start
    ensures { result ≡ start_of parent }
{
    match parent {
        Some(commit) => Start::Of(commit),
        None => Start::Absent,
    }
}

/// The parent, where a line `from` comes next.
fn read_parent<S: Source>(rows: &mut RowReader<S>) -> Result<Parent, Outside>
    ensures parent { S.tells → IfOk result (λ r. ReadsFrom rows.old rows.new r.next r.commit) }
    ensures line { IfOk result (λ r. r.next ≡ true → IsNext rows.new) }
    ensures end { S.tells → IfOk result (λ r. r.next ≡ false → EndsWhole rows.new) }
    ensures onward { IfOk result (λ _. rows.old.at ≤ rows.new.at) }

    ensures on { AreReadOn rows.old rows.new Failed result }
{
    if !next_line(rows)? {
        return Ok(Parent {
            commit: None,
            next: false,
        });
    }
    let Some(commit) = commit_line(rows.alloc(), b"from ", rows.line())? else {
        return Ok(Parent {
            commit: None,
            next: true,
        });
    };
    let at = rows.at();
    rows.take();
    let next = next_line(rows)?;
    Ok(Parent {
        commit: Some(At { at, it: commit }),
        next,
    })
}

/// The merges that come next; `next` says whether a line is held.
fn read_merges<S: Source>(rows: &mut RowReader<S>, next: bool) -> Result<Merges, Outside>
    requires line { next ≡ true → IsNext rows.old }
    requires end { S.tells → next ≡ false → EndsWhole rows.old }
    ensures merges { S.tells → IfOk result (λ r. ReadsAll (placed_line (codes "merge ") NamesCommit)
        rows.old rows.new r.next r.commits) }
    ensures line { IfOk result (λ r. r.next ≡ true → IsNext rows.new) }
    ensures end { S.tells → IfOk result (λ r. r.next ≡ false → EndsWhole rows.new) }
    ensures onward { IfOk result (λ _. rows.old.at ≤ rows.new.at) }
    ensures none { next ≡ false → IfOk result (λ r. r.next ≡ false) }
    ensures still { next ≡ false → rows.new ≡ rows.old }

    ensures on { AreReadOn rows.old rows.new Failed result }
{
    let mut merges = Vec::new(rows.alloc());
    let mut more = next;
    'merges: while more {
        let Some(commit) = commit_line(rows.alloc(), b"merge ", rows.line())? else {
            return Ok(Merges {
                commits: Items::from_vec(merges),
                next: true,
            });
        };
        let at = rows.at();
        rows.take();
        merges.push(At { at, it: commit })?;
        more = next_line(rows)?;
    }
    Ok(Merges {
        commits: Items::from_vec(merges),
        next: false,
    })
}

/// The parent, the merges and the changes, as far as each comes next.
pub fn read_tail<S: Source>(rows: &mut RowReader<S>) -> Result<Tail, ReadFail>
    ensures tail { S.tells → IfOk result (λ t. ReadsStart rows.old rows.new t.parent t.merges t.changes) }
    ensures givable { IfOk result (λ t. AreGivable t.changes) }
    ensures fails { S.tells → IfErr result (TailFails rows.old) }
    ensures may { IfErr result MayFail }
    ensures onward { IfOk result (λ _. rows.old.at ≤ rows.new.at) }

    ensures on { AreReadOn rows.old rows.new SourceFailed result }
{
    let parent = read_parent(rows)?;
    let merges = read_merges(rows, parent.next)?;
    let changes = read_changes(rows, merges.next)?;
    Ok(Tail {
        parent: start_of(parent.commit),
        merges: merges.commits,
        changes,
    })
}
