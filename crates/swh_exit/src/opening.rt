// The archive in a folder, opened and given back.
ghost use Rattle.std.specs.Prelude.{◌≡◌, ◌≤◌, ◌<◌, None, IfOk, IfErr, OnOk};
ghost use Rattle.swh_outside.specs.Faults.{Rose};
ghost use Rattle.swh_outside.specs.Files.{files_of};
ghost use Rattle.swh_model.specs.Step.{IsHistory};
ghost use Rattle.swh_keeper.specs.Kept.{IsKept};
ghost use Rattle.swh_keeper.specs.Own.{AreOwn};
ghost use Rattle.swh_exit.specs.Archives.{archive_at, SameElsewhere};
ghost use Rattle.swh_keeper.specs.Opening.{IsOpeningFault};
ghost use Rattle.swh_exit.specs.Opening.{IsOpenRefusal, IsRefusalFor, IsOpenedFrom, IsLeftRefused};
ghost use Rattle.swh_keeper.specs.declared.opening.OpenWhy.TheVariants.{DiskFault};
ghost use Rattle.swh_exit.specs.declared.answer.Answer.TheVariants.{OutsideDisk};

use crate::Answer;
use crate::damage::tell_harm;
use crate::files::{ArchiveFiles, close_files, open_files, see_images};
use std::alloc::Global;
use swh_base::Namer;
use swh_keeper::{Keeper, OpenFault, OpenWhy};
use swh_outside::{Depot, OutFault};

// What a refusal of the keeper comes to.
fn refused_by(alloc: Global, why: OpenWhy) -> Answer
    requires { IsOpeningFault why }
    ensures refusal { IsRefusalFor why result }
    ensures one_of { IsOpenRefusal result }
    ensures disk { result ≡ OutsideDisk → why ≡ DiskFault }
{
    match why {
        OpenWhy::Made => unreachable!(),
        OpenWhy::NotMade => Answer::NotMade,
        OpenWhy::Damaged { file, at, .. } => tell_harm(alloc, file, at),
        OpenWhy::DiskFault => Answer::OutsideDisk,
        OpenWhy::Memory => Answer::Memory,
    }
}

/// Opens the archive in a folder. Where it is refused, its files are given back.
pub fn open_archive<N: Namer, P: Depot>(
    alloc: Global,
    namer: N,
    depot: &mut P,
    dir: &str,
) -> Result<Keeper<N, P::D>, Answer>
    ensures disks_tell { P.tells → P.D.tells }
    ensures opened { P.tells → IfOk result (IsOpenedFrom N.id_of P.D.file (archive_at (P.files depot.old) dir.now)) }
    // Whatever the disks tell, the history may happen.
    ensures happens { IfOk result (λ keeper. IsHistory N.id_of keeper.history) }
    ensures unwounded { IfOk result (λ keeper. keeper.wounded ≡ None) }
    ensures places { OnOk result (P.has_place depot.new dir.now 0 × P.has_place depot.new dir.now 1) }

    ensures one_of { IfErr result IsOpenRefusal }
    // Own files are not told of as damaged, and are left own.
    ensures refused { P.tells → IfErr result (IsLeftRefused N.id_of (archive_at (P.files depot.old) dir.now)
        (archive_at (P.files depot.new) dir.now)) }
    ensures others { P.tells → SameElsewhere dir.now (P.files depot.old) (P.files depot.new) }
    ensures later { P.faults depot.old ≤ P.faults depot.new }
    ensures cause { IfErr result (λ answer. answer ≡ OutsideDisk → Rose (P.faults depot.old) (P.faults depot.new)) }
{
    let files = match open_files(depot, dir) {
        Ok(files) => files,
        Err(OutFault::Failed) => return Err(Answer::OutsideDisk),
        Err(OutFault::Memory) => return Err(Answer::Memory),
    };
    see_images(&files);
    let ArchiveFiles { store, ledger } = files;
    match Keeper::open(alloc, namer, store, ledger) {
        Ok(keeper) => {
            let _history = keeper.history();
            Ok(keeper)
        }
        Err(OpenFault { why, store, ledger }) => {
            close_files(depot, dir, ArchiveFiles { store, ledger });
            Err(refused_by(alloc, why))
        }
    }
}

/// Gives the files of an archive back, which are own. Where one of them has failed, the depot's count rises.
pub fn close_archive<N: Namer, P: Depot>(depot: &mut P, dir: &str, keeper: Keeper<N, P::D>)
    requires { P.has_place depot.old dir.now 0 × P.has_place depot.old dir.now 1 }
    ensures taken { P.tells → archive_at (P.files depot.new) dir.now
        ≡ files_of (P.D.file keeper.ledger) (P.D.file keeper.store) }
    ensures kept { IsKept N.id_of P.D.tells P.D.file keeper }
    ensures own { P.D.tells → P.tells → AreOwn N.id_of (archive_at (P.files depot.new) dir.now) }
    ensures others { P.tells → SameElsewhere dir.now (P.files depot.old) (P.files depot.new) }
    ensures later { P.faults depot.old ≤ P.faults depot.new }
    ensures store_cause { 0 < P.D.faults keeper.store → Rose (P.faults depot.old) (P.faults depot.new) }
    ensures ledger_cause { 0 < P.D.faults keeper.ledger → Rose (P.faults depot.old) (P.faults depot.new) }
{
    let (store, ledger) = keeper.close();
    close_files(depot, dir, ArchiveFiles { store, ledger });
}
