//! How a visit goes on, or ends.
use swh_base::Status;
use swh_closure::Cert;

/// A status, with the snapshot that it may have.
#[derive(Drop)]
pub enum How {
    Ongoing,
    /// All that is reached from the snapshot is held. The certificate may spare the walk that finds out, and nothing is
    /// believed of it.
    Full { snapshot: [u8; 20], cert: Cert },
    Partial { snapshot: Option<[u8; 20]> },
    NotFound,
    Failed,
}

impl How {
    ghost use Rattle.std.specs.Prelude.{◌≡◌};
    ghost use Rattle.swh_model.specs.Judge.{StatusAllows};
    ghost use Rattle.swh_plan.specs.Plan.{status_of, snapshot_of};

    /// The status and the snapshot with which a visit is marked.
    pub fn mark(&self) -> (Status, Option<[u8; 20]>)
        ensures status { result.0 ≡ status_of self.now }
        ensures snapshot { result.1 ≡ snapshot_of self.now }
        ensures fits { StatusAllows (status_of self.now) (snapshot_of self.now) }
    {
        match self {
            How::Ongoing => (Status::Ongoing, None),
            How::Full { snapshot, .. } => (Status::Full, Some(*snapshot)),
            How::Partial { snapshot } => (Status::Partial, *snapshot),
            How::NotFound => (Status::NotFound, None),
            How::Failed => (Status::Failed, None),
        }
    }
}
