// What is told of loads.
ghost use Rattle.std.specs.Prelude.{◌≡◌, IfOk, OnErr};
ghost use Rattle.swh_program.specs.Lines.{ending_of_end, ending_of_why, ending_for, ending_of_all, worse};
ghost use Rattle.swh_exit.specs.declared.answer.Answer.TheVariants.{Told, Memory as OutOfMemory};

use std::alloc::Global;
use swh_base::Memory;
use swh_exit::{Answer, Ending, Text};
use swh_loader::{End, LoadFault, Loaded, Stop};
use swh_pool::Report;

fn ending_of_end(end: &End) -> Ending
    ensures { result ≡ ending_of_end end.now }
{
    match end {
        End::Full { .. } => Ending::Done,
        End::NotFound | End::Failed(_) => Ending::Wanting,
    }
}

fn ending_of_why(why: Stop) -> Ending
    ensures { result ≡ ending_of_why why }
{
    match why {
        Stop::DiskFault | Stop::Wounded => Ending::OutsideDisk,
        Stop::Ended { .. } | Stop::Limit { .. } => Ending::Wanting,
        Stop::Memory => Ending::Memory,
    }
}

fn ending_of(outcome: &Result<Loaded, LoadFault>) -> Ending
    ensures { result ≡ ending_for outcome.now }
{
    match outcome {
        Ok(loaded) => ending_of_end(&loaded.end),
        Err(fault) => ending_of_why(fault.why),
    }
}

// The worse of two: a disk that failed, then want of memory, then a job that is not full.
fn worse(a: Ending, b: Ending) -> Ending
    ensures { result ≡ worse a b }
{
    match (a, b) {
        (Ending::OutsideDisk, _) | (_, Ending::OutsideDisk) => Ending::OutsideDisk,
        (Ending::Memory, _) | (_, Ending::Memory) => Ending::Memory,
        (Ending::Wanting, _) | (_, Ending::Wanting) => Ending::Wanting,
        (Ending::Done, Ending::Done) => Ending::Done,
    }
}

fn worst_of(outcomes: &[Result<Loaded, LoadFault>]) -> Ending
    ensures { result ≡ ending_of_all outcomes.now }
{
    let mut worst = Ending::Done;
    for outcome in outcomes {
        worst = worse(worst, ending_of(outcome));
    }
    worst
}

/// The answer that tells how loads ended, or that memory ran out before them.
pub fn tell_loaded(alloc: Global, loaded: Result<Report, Memory>) -> Answer
    ensures told { IfOk loaded (λ report. result ≡ Told report.text (ending_of_all report.outcomes.items)) }
    ensures memory { OnErr loaded (result ≡ OutOfMemory) }
{
    match loaded {
        Ok(Report { outcomes, text }) => {
            let ending = worst_of(&outcomes);
            let text = Text::of(alloc, text);
            Answer::Told { text, ending }
        }
        Err(_) => Answer::Memory,
    }
}
