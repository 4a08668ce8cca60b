// The command `init`.
ghost use Rattle.std.specs.Prelude.{◌≡◌, ◌≤◌, ℕ, List};
ghost use Rattle.swh_base.specs.declared.kind.Kind.{Kind};
ghost use Rattle.swh_outside.specs.Faults.{Rose};
ghost use Rattle.swh_segment.specs.Making.{IsMade};
ghost use Rattle.swh_exit.specs.Archives.{archive_at, SameElsewhere};
ghost use Rattle.swh_program.specs.InitCommand.{InitEnds, IsInitAnswer};
ghost use Rattle.swh_exit.specs.Own.{KeepsOwn};
ghost use Rattle.swh_exit.specs.declared.answer.Answer.TheVariants.{OutsideDisk};

use swh_exit::{Answer, close_files, open_files, see_images};
use swh_outside::{Depot, OutFault};
use swh_segment::{MakeFault, make};

/// Makes an archive in a folder.
pub fn init<P: Depot>(depot: &mut P, dir: &str) -> Answer
    ensures one_of { IsInitAnswer result }
    ensures ends { P.tells → InitEnds (archive_at (P.files depot.old) dir.now)
        (archive_at (P.files depot.new) dir.now) result }
    // A made archive is as it was, also where a disk failed.
    ensures spared { P.tells → IsMade (archive_at (P.files depot.old) dir.now 0).seen
        → archive_at (P.files depot.new) dir.now ≡ archive_at (P.files depot.old) dir.now }
    ensures own { P.tells → (id_of : Kind → List ℕ → List ℕ)
        → KeepsOwn id_of (archive_at (P.files depot.old) dir.now) (archive_at (P.files depot.new) dir.now) result }
    ensures elsewhere { P.tells → SameElsewhere dir.now (P.files depot.old) (P.files depot.new) }
    ensures later { P.faults depot.old ≤ P.faults depot.new }
    ensures cause { result ≡ OutsideDisk → Rose (P.faults depot.old) (P.faults depot.new) }
{
    let mut files = match open_files(depot, dir) {
        Ok(files) => files,
        Err(OutFault::Failed) => return Answer::OutsideDisk,
        Err(OutFault::Memory) => return Answer::Memory,
    };
    let made = make(&mut files.store, &mut files.ledger);
    see_images(&files);
    close_files(depot, dir, files);
    match made {
        Ok(()) => Answer::Made,
        Err(MakeFault::Made) => Answer::AlreadyMade,
        Err(MakeFault::Disk) => Answer::OutsideDisk,
    }
}
