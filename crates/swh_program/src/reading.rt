// An archive in a folder that is only read.
ghost use Rattle.std.specs.Prelude.{◌≡◌, ◌≤◌, None};
ghost use Rattle.swh_outside.specs.Faults.{Rose};
ghost use Rattle.swh_dircook.specs.Made.{yarded};
ghost use Rattle.swh_model.specs.Step.{replay};
ghost use Rattle.swh_exit.specs.Archives.{archive_at, SameElsewhere};
ghost use Rattle.swh_program.specs.Commands.{telling, LooksLeave, ReadsLeave};
ghost use Rattle.swh_exit.specs.Damage.{IsUndamaged};
ghost use Rattle.swh_exit.specs.Own.{KeepsOwn};
ghost use Rattle.swh_program.specs.Reading.{IsOfArchive, LeavesKept, IsReadAnswer, OfHistory, OfArchive, ReadEnds};
ghost use Rattle.swh_program.specs.Yards.{yards};
ghost use Rattle.swh_exit.specs.declared.answer.Answer.TheVariants.{OutsideDisk};

use crate::ask_command::tell_replies;
use crate::check_command::tell_check;
use crate::cook_command::tell_cook;
use std::alloc::Global;
use swh_base::{Name, Namer};
use swh_exit::{Answer, close_archive, open_archive};
use swh_keeper::Keeper;
use swh_outside::{Depot, Disk, Yard};

/// A command that only reads an archive.
#[derive(Drop)]
pub enum Reading<'a> {
    /// `ask`: a GET of each of the paths.
    Ask { paths: &'a [&'a str] },
    /// `check`: each stored body is read again, and what is held is counted.
    Check,
    /// `cook`: a name becomes a folder or a file of the yard.
    Cook { name: Name, out: &'a str },
}

// Looks at an archive that is open, and tells what came of it.
fn look<N: Namer, D: Disk, Y: Yard>(
    alloc: Global,
    namer: &N,
    keeper: &mut Keeper<N, D>,
    yard: &mut Y,
    reading: &Reading<'_>,
) -> Answer
    requires { keeper.old.wounded ≡ None }
    ensures told { IsOfArchive (telling N.id_of (yards Y.Sink.tells (yarded (Y.Sink.begun yard.old) (Y.Sink.taken yard.old))
        (yarded (Y.Sink.begun yard.new) (Y.Sink.taken yard.new)) (yard.new ≡ yard.old)
        (Rose (Y.Sink.faults yard.old) (Y.Sink.faults yard.new))) reading.now) (replay keeper.old.history) result }
    ensures leaves { LooksLeave (yards Y.Sink.tells (yarded (Y.Sink.begun yard.old) (Y.Sink.taken yard.old))
        (yarded (Y.Sink.begun yard.new) (Y.Sink.taken yard.new)) (yard.new ≡ yard.old)
        (Rose (Y.Sink.faults yard.old) (Y.Sink.faults yard.new))) reading.now (replay keeper.old.history) result }
    ensures undamaged { D.tells → IsUndamaged result }
    ensures left { LeavesKept D.tells D.file D.faults keeper.old keeper.new result }
    ensures later { Y.Sink.faults yard.old ≤ Y.Sink.faults yard.new }
{
    match reading {
        Reading::Ask { paths } => tell_replies(alloc, keeper.replayed(), paths),
        Reading::Check => tell_check(alloc, namer, keeper),
        Reading::Cook { name, out } => tell_cook(alloc, keeper.replayed(), *name, yard, out),
    }
}

/// Opens the archive in a folder, looks at it, and gives its files back.
pub fn read_archive<N: Namer, P: Depot, Y: Yard>(
    alloc: Global,
    namer: N,
    depot: &mut P,
    yard: &mut Y,
    dir: &str,
    reading: &Reading<'_>,
) -> Answer
    // What is told is of one history, which is the one for which the files stand where the depot tells them.
    ensures one_of { IsReadAnswer N.id_of (telling N.id_of (yards Y.Sink.tells (yarded (Y.Sink.begun yard.old) (Y.Sink.taken yard.old))
        (yarded (Y.Sink.begun yard.new) (Y.Sink.taken yard.new)) (yard.new ≡ yard.old)
        (Rose (Y.Sink.faults yard.old) (Y.Sink.faults yard.new))) reading.now) result }
    ensures ends { P.tells → ReadEnds N.id_of (telling N.id_of (yards Y.Sink.tells (yarded (Y.Sink.begun yard.old) (Y.Sink.taken yard.old))
        (yarded (Y.Sink.begun yard.new) (Y.Sink.taken yard.new)) (yard.new ≡ yard.old)
        (Rose (Y.Sink.faults yard.old) (Y.Sink.faults yard.new))) reading.now) (archive_at (P.files depot.old) dir.now)
        (archive_at (P.files depot.new) dir.now) result }
    ensures own { P.tells → KeepsOwn N.id_of (archive_at (P.files depot.old) dir.now)
        (archive_at (P.files depot.new) dir.now) result }
    ensures elsewhere { P.tells → SameElsewhere dir.now (P.files depot.old) (P.files depot.new) }
    ensures later { P.faults depot.old ≤ P.faults depot.new }
    ensures cause { result ≡ OutsideDisk → Rose (P.faults depot.old) (P.faults depot.new) }

    // How the yard is left: what is made in it is of the same history.
    ensures leaves { ReadsLeave (OfHistory N.id_of) (yards Y.Sink.tells (yarded (Y.Sink.begun yard.old) (Y.Sink.taken yard.old))
        (yarded (Y.Sink.begun yard.new) (Y.Sink.taken yard.new)) (yard.new ≡ yard.old)
        (Rose (Y.Sink.faults yard.old) (Y.Sink.faults yard.new))) reading.now result }
    ensures leaves_there { P.tells → ReadsLeave (OfArchive N.id_of (archive_at (P.files depot.old) dir.now)) (yards Y.Sink.tells (yarded (Y.Sink.begun yard.old) (Y.Sink.taken yard.old))
        (yarded (Y.Sink.begun yard.new) (Y.Sink.taken yard.new)) (yard.new ≡ yard.old)
        (Rose (Y.Sink.faults yard.old) (Y.Sink.faults yard.new))) reading.now
        result }
    ensures yard_later { Y.Sink.faults yard.old ≤ Y.Sink.faults yard.new }
{
    let mut keeper = match open_archive(alloc, namer, depot, dir) {
        Ok(keeper) => keeper,
        Err(answer) => return answer,
    };
    let answer = look(alloc, &namer, &mut keeper, yard, reading);
    close_archive(depot, dir, keeper);
    answer
}
