// A desk that is made of a call.
ghost use Rattle.swh_serve.specs.Calls.{MayAsk, IsAnswered};

use crate::desk::{Answered, Desk};
use std::alloc::Global;
use swh_base::{Memory, Request};

/// The protocol of seats of one kind.
pub trait HasProtocol<S> {
    ghost use Rattle.std.specs.Prelude.{ℕ};
    ghost use Rattle.swh_serve.specs.Desk.{Protocol, IsLawful};

    /// The protocol at each date.
    ghost protocol: { ℕ → Protocol S };

    /// What the protocol obeys.
    ghost lawful: { (date : ℕ) → IsLawful (protocol date) };
}

/// The call that answers at a desk, and the protocol of its seats. A function whose archive is of any disks can make
/// one, where no type of its own can be a desk.
#[derive(Drop)]
pub struct DeskCall<W, F> {
    pub said: W,
    pub answer: F,
}

impl<S, W: HasProtocol<S>, F: Fn(&mut S, &Request, u64) -> Result<Answered, Memory>> Desk<S>
    for DeskCall<W, F> {
    ghost protocol = { λ _. W.protocol };

    ghost fits = { λ d.
        ((s : _) (request : _) (date : _) → MayAsk (W.protocol date) s.now → F.pre d.answer s request date)
        × ((s : _) (request : _) (date : _) (r : _) (t : _) → MayAsk (W.protocol date) s.now → F.post d.answer s request date r t
        → IsAnswered (W.protocol date) request.now s.now t.now r) };

    fn answer(
        &self,
        _alloc: Global,
        seat: &mut S,
        request: &Request,
        date: u64,
    ) -> Result<Answered, Memory> {
        (self.answer)(seat, request, date)
    }

    ghost lawful = { λ _. W.lawful };
}
