// What is kept for where memory runs out.
ghost use Rattle.std.specs.Prelude.{◌≡◌, IfOk};
ghost use Rattle.swh_serve.specs.Turns.{starved_reply};

use std::alloc::Global;
use swh_base::{Memory, Reply};
use swh_replies::refusal;

/// An allocator, and the reply that tells that it has no more memory, which is made before that.
#[derive(Drop)]
pub struct Spare {
    pub alloc: Global,
    pub starved: Reply,
}

/// Makes the reply to requests for which there will be no memory: 503 `memory`. Fails where there is none now.
pub fn make_spare(alloc: Global) -> Result<Spare, Memory>
    ensures { IfOk result (λ spare. spare.starved ≡ starved_reply) }
{
    let starved = refusal(alloc, 503, "memory")?;
    Ok(Spare { alloc, starved })
}
