// The command `check`.
ghost use Rattle.std.specs.Prelude.{◌≡◌, ◌≢◌, None, IfOk};
ghost use Rattle.swh_model.specs.Step.{replay};
ghost use Rattle.swh_exit.specs.Answers.{TellsLine};
ghost use Rattle.swh_program.specs.CheckCommand.{report_line, checking};
ghost use Rattle.swh_exit.specs.Damage.{IsUndamaged};
ghost use Rattle.swh_program.specs.Reading.{IsOfArchive, LeavesKept};
ghost use Rattle.swh_exit.specs.declared.answer.Ending.TheVariants as ending;
ghost use Rattle.swh_exit.specs.declared.answer.Answer.TheVariants.{OutsideDisk};

use itoa::Buffer;
use std::alloc::Global;
use swh_base::{Bytes, Memory, Namer};
use swh_check::{CheckFault, Report, check_all};
use swh_exit::{Answer, Ending, Text, tell_body};
use swh_keeper::Keeper;
use swh_outside::Disk;

// What is printed of the counts of an archive.
fn report_line(alloc: Global, report: &Report) -> Result<Bytes, Memory>
    ensures { IfOk result (λ line. line ≡ report_line report.now) }
{
    let mut digits = Buffer::new();
    let mut line = Vec::new(alloc);
    line.extend_from_slice(b"objects ")?;
    line.extend_from_slice(digits.format(report.objects).as_bytes())?;
    line.extend_from_slice(b" closed ")?;
    line.extend_from_slice(digits.format(report.closed).as_bytes())?;
    line.extend_from_slice(b" visits ")?;
    line.extend_from_slice(digits.format(report.visits).as_bytes())?;
    line.push(b'\n')?;
    Ok(Bytes::from_vec(line))
}

// The answer that tells the counts of an archive.
fn tell_report(alloc: Global, report: &Report) -> Answer
    ensures told { TellsLine (report_line report.now) ending.Done result }
    ensures inside { result ≢ OutsideDisk }
{
    match report_line(alloc, report) {
        Ok(line) => Answer::Told {
            text: Text::of(alloc, line),
            ending: Ending::Done,
        },
        Err(_) => Answer::Memory,
    }
}

/// Checks an archive that is open, and tells what came of it.
pub fn tell_check<N: Namer, D: Disk>(alloc: Global, namer: &N, keeper: &mut Keeper<N, D>) -> Answer
    requires { keeper.old.wounded ≡ None }
    ensures told { IsOfArchive (checking N.id_of) (replay keeper.old.history) result }
    ensures undamaged { D.tells → IsUndamaged result }
    ensures left { LeavesKept D.tells D.file D.faults keeper.old keeper.new result }
{
    match check_all(alloc, namer, keeper) {
        Ok(report) => tell_report(alloc, &report),
        Err(CheckFault::Damaged { name, .. }) => tell_body(alloc, &name),
        Err(CheckFault::DiskFault) => Answer::OutsideDisk,
        Err(CheckFault::Memory) => Answer::Memory,
    }
}
