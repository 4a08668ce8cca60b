// What stands at a command's place (git-fast-import(1), commands).
ghost use Rattle.std.specs.Prelude.{◌≤◌, ◌^◌, false, Bool, IfOk, IfErr, IfSome, IsErrOf, ◌<◌};
ghost use Rattle.swh_fastrows.specs.ReadOn.{AreReadOn};
ghost use Rattle.swh_fastgrammar.specs.Givable.{IsGivable};
ghost use Rattle.swh_fastrows.specs.declared.fail.ReadFail.TheVariants.{ReadFault as SourceFailed};
ghost use Rattle.swh_fastrows.specs.Explains.{Explains};
ghost use Rattle.swh_fastrows.specs.Held.{IsNext, EndsNext};
ghost use Rattle.swh_fastrows.specs.Failing.{MayFail};
ghost use Rattle.swh_fastread.specs.Steps.{FindsStep, FindsNext, Moves, StepGivable};

use crate::blob::read_blob;
use crate::commit::read_commit;
use crate::reset::read_reset;
use crate::tag::read_tag;
use swh_base::Which;
use swh_fastgrammar::{Command, StreamWhy};
use swh_fastlines::{ItemLine, item_line};
use swh_fastrows::{ReadFail, RowReader, peek, refused_line};
use swh_outside::Source;

/// What stands at a command's place.
#[derive(Drop)]
pub enum Step {
    Command(Command),
    /// The line `done` will end the stream.
    Promise,
    /// A line that says nothing.
    Nothing,
    /// The stream ends.
    End,
}

/// The next command of a stream, and whether `done` was promised so far.
#[derive(Drop)]
pub struct Next {
    pub command: Option<Command>,
    pub promised: bool,
}

/// The item that the held line begins, or the end of the stream.
fn held_item<S: Source>(rows: &mut RowReader<S>) -> Result<Step, ReadFail>
    requires next { IsNext rows.old }
    ensures item { S.tells → IfOk result (λ step. (p : Bool) → FindsStep rows.old rows.new p step) }
    ensures fails { S.tells → IfErr result (λ fail. (p : Bool) → Explains rows.old p fail) }
    ensures may { IfErr result MayFail }
    ensures givable { IfOk result StepGivable }
    ensures onward { IfOk result (Moves rows.old rows.new) }

    ensures on { AreReadOn rows.old rows.new SourceFailed result }
{
    match item_line(rows.alloc(), rows.line())? {
        ItemLine::Blob => Ok(Step::Command(read_blob(rows)?)),
        ItemLine::Commit(branch) => Ok(Step::Command(read_commit(rows, branch)?)),
        ItemLine::Tag(branch) => Ok(Step::Command(read_tag(rows, branch)?)),
        ItemLine::Reset(branch) => Ok(Step::Command(read_reset(rows, branch)?)),
        ItemLine::Promise => {
            rows.take();
            Ok(Step::Promise)
        }
        ItemLine::Nothing => {
            rows.take();
            Ok(Step::Nothing)
        }
        ItemLine::Done => Ok(Step::End),
        ItemLine::Over(number) => Err(ReadFail::Limit {
            which: Which::Ref,
            number,
        }),
        ItemLine::No => Err(refused_line(rows.line(), rows.at())),
    }
}

/// The end of the input, before a line ends: that of the stream where nothing is held and no `done` was promised.
fn end_of_input<S: Source>(rows: &RowReader<S>, promised: bool) -> Result<Step, ReadFail>
    requires within { rows.now.at ≤ 2 ^ 33 }
    requires end { S.tells → EndsNext rows.now }
    ensures item { S.tells → IfOk result (FindsStep rows.now rows.now promised) }
    ensures fails { S.tells → IfErr result (Explains rows.now promised) }
    ensures may { IfErr result MayFail }
    ensures givable { IfOk result StepGivable }
    ensures onward { IfOk result (Moves rows.now rows.now) }
    ensures cause { IsErrOf result SourceFailed → ⊥ }
{
    let cut = ReadFail::BadStream {
        at: rows.end(),
        why: StreamWhy::End,
    };
    if promised {
        return Err(cut);
    }
    if rows.at() < rows.end() {
        return Err(cut);
    }
    Ok(Step::End)
}

/// The item that comes next, or the end of the stream. `promised` says whether the line `done` has to end it.
fn read_item<S: Source>(rows: &mut RowReader<S>, promised: bool) -> Result<Step, ReadFail>
    ensures item { S.tells → IfOk result (FindsStep rows.old rows.new promised) }
    ensures fails { S.tells → IfErr result (Explains rows.old promised) }
    ensures may { IfErr result MayFail }
    ensures givable { IfOk result StepGivable }
    ensures onward { IfOk result (Moves rows.old rows.new) }

    ensures on { AreReadOn rows.old rows.new SourceFailed result }
{
    if peek(rows)? {
        held_item(rows)
    } else {
        end_of_input(rows, promised)
    }
}

/// The next command, or none where the stream ends without one.
pub fn read_next<S: Source>(rows: &mut RowReader<S>, promised: bool) -> Result<Next, ReadFail>
    ensures next { S.tells → IfOk result (λ n. FindsNext rows.old rows.new promised n.promised n.command) }
    ensures onward { IfOk result (λ n. IfSome n.command (λ _. rows.old.at < rows.new.at)) }
    ensures givable { IfOk result (λ n. IfSome n.command IsGivable) }
    ensures fails { S.tells → IfErr result (Explains rows.old promised) }
    ensures may { IfErr result MayFail }

    ensures on { AreReadOn rows.old rows.new SourceFailed result }
{
    let mut wants_done = promised;
    'items: loop {
        match read_item(rows, wants_done)? {
            Step::Command(command) => {
                return Ok(Next {
                    command: Some(command),
                    promised: wants_done,
                });
            }
            Step::Promise => wants_done = true,
            Step::Nothing => {}
            Step::End => {
                return Ok(Next {
                    command: None,
                    promised: wants_done,
                });
            }
        }
    }
}
