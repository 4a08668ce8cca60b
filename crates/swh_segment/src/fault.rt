// Why an archive, or a ledger, is not made.
ghost use Rattle.std.specs.Prelude.{◌≡◌};

use swh_outside::Failed;

#[derive(Clone, Copy, Debug, PartialEq, Eq)]
pub enum MakeFault {
    /// It is made already.
    Made,
    /// A disk failed.
    Disk,
}

impl From<Failed> for MakeFault {
    ghost use Rattle.swh_segment.specs.declared.fault.MakeFault.TheVariants.{Disk};

    ghost from_gives = { λ _ e. e ≡ Disk };

    fn from(_: Failed) -> Self {
        MakeFault::Disk
    }
}
