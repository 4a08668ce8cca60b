// What a load came to, as it is reported.
ghost use Rattle.std.specs.Prelude.{◌≡◌};
ghost use Rattle.swh_loader.specs.Ending.{end_for, outcome_for};

use crate::end::{BadInput, End, Loaded};
use swh_ingest::{self as walk, LoadFault};
use swh_inputs::InputFault;

/// The end of a visit, as it is reported.
fn end_of(end: walk::End<InputFault>) -> End
    ensures { result ≡ end_for end }
{
    match end {
        walk::End::Full { snapshot } => End::Full { snapshot },
        walk::End::NotFound => End::NotFound,
        walk::End::Unread => End::Failed(BadInput::Read),
        walk::End::Bad(InputFault::Bad(bad)) => End::Failed(BadInput::Broken(bad)),
        walk::End::Bad(InputFault::ReadFault) => End::Failed(BadInput::Read),
        walk::End::Met(name) => End::Failed(BadInput::Collision { name }),
    }
}

/// What a load came to, as it is reported.
pub fn outcome_of(loaded: Result<walk::Loaded<InputFault>, LoadFault>) -> Result<Loaded, LoadFault>
    ensures { result ≡ outcome_for loaded }
{
    match loaded {
        Ok(loaded) => Ok(Loaded {
            visit: loaded.visit,
            end: end_of(loaded.end),
        }),
        Err(fault) => Err(fault),
    }
}
