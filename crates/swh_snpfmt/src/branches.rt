//! The branches of a snapshot as one value.

use crate::branch::Branch;
use std::marker::Model;

/// The branches of a snapshot, ascending by their names.
#[derive(Debug, Drop)]
pub struct Branches {
    list: Vec<Branch>,
}

impl Model for Branches {
    ghost use Rattle.std.specs.Prelude.{List};
    ghost use Rattle.swh_base.specs.Snapshot.{SnapshotBranch, AreBranches};
    ghost use Rattle.swh_snpfmt.specs.Branches.{branch_views};

    ghost Value = { List SnapshotBranch };

    ghost view = { λ a. branch_views a.list.items };

    ghost invariant = { λ a. AreBranches (branch_views a.list.items) };
}

impl Branches {
    ghost use Rattle.std.specs.Prelude.{◌≡◌};
    ghost use Rattle.swh_base.specs.Snapshot.{AreBranches};
    ghost use Rattle.swh_snpfmt.specs.Branches.{branch_views};

    /// The branches of this list, which stand in order and have distinct names.
    pub fn of(list: Vec<Branch>) -> Branches
        requires { AreBranches (branch_views list.items) }
        ensures { result ≡ branch_views list.items }
    {
        Branches { list }
    }

    /// The branches where they lie, in the order of the body.
    pub fn list(&self) -> &[Branch]
        ensures list { branch_views result.now ≡ self.now }
        ensures good { AreBranches self.now }
    {
        self.list.as_slice()
    }
}
