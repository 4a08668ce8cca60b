// A destination that is made of calls.
ghost use Rattle.swh_ingest.specs.Calls.{MayLook, Looks, Finds, MayCertify, Certifies, Applies};

use crate::destination::{Destination, Wanted};
use crate::refusal::Refusal;
use std::alloc::Global;
use swh_base::{Entry, Memory, Name, Shared};
use swh_closure::Cert;
use swh_model::Outcome;
use swh_store::Standing;

/// The protocol of writers of one kind.
pub trait HasProtocol<Q: Wanted, S> {
    ghost use Rattle.std.specs.Prelude.{ℕ};
    ghost use Rattle.swh_ingest.specs.Knowing.{Protocol, IsLawful};

    /// The protocol, by the loader's number.
    ghost protocol: { ℕ → Protocol S };

    /// What the protocol obeys.
    ghost lawful: { (by : ℕ) → IsLawful Q.id_of (protocol by) };
}

/// The calls of a loader of this number, one for each method of a destination, and the protocol of its writers. A
/// function whose archive is of any disks can make one, where no type of its own can be a destination.
#[derive(Drop)]
pub struct Calls<W, A, B, C, D> {
    pub by: u32,
    pub said: W,
    pub standing: A,
    pub body: D,
    pub certify: B,
    pub apply: C,
}

impl<
    Q: Wanted,
    S,
    W: HasProtocol<Q, S>,
    A: Fn(&mut S, &Entry) -> Result<Standing, Memory>,
    B: Fn(&mut S, [u8; 20], Vec<Name>) -> Result<Cert, Memory>,
    C: Fn(&mut S, Q) -> Result<Outcome, Refusal>,
    D: Fn(&mut S, &Name) -> Option<Shared<u8>>,
> Destination<Q, S> for Calls<W, A, B, C, D> {
    ghost protocol = { λ p. W.protocol p.by };

    ghost fits = { λ p.
        ((s : _) (e : _) → MayLook (W.protocol p.by) s.now → A.pre p.standing s e)
        × ((s : _) (e : _) (r : _) (t : _) → MayLook (W.protocol p.by) s.now → A.post p.standing s e r t
        → Looks (W.protocol p.by) s.now e.now t.now r)
        × ((s : _) (name : _) → MayLook (W.protocol p.by) s.now → D.pre p.body s name)
        × ((s : _) (name : _) (r : _) (t : _) → MayLook (W.protocol p.by) s.now → D.post p.body s name r t
        → Finds (W.protocol p.by) s.now name.now t.now r)
        × ((s : _) (snapshot : _) (names : _) → MayCertify (W.protocol p.by) s.now snapshot → B.pre p.certify s snapshot names)
        × ((s : _) (snapshot : _) (names : _) (r : _) (t : _) → MayCertify (W.protocol p.by) s.now snapshot
        → B.post p.certify s snapshot names r t → Certifies (W.protocol p.by) s.now snapshot t.now r)
        × ((s : _) (plan : _) → C.pre p.apply s plan)
        × ((s : _) (plan : _) (r : _) (t : _) → C.post p.apply s plan r t
        → Applies Q.id_of (W.protocol p.by) s.now (Q.wish plan) t.now r) };

    fn standing(&self, writer: &mut S, entry: &Entry) -> Result<Standing, Memory> {
        (self.standing)(writer, entry)
    }

    fn body(&self, writer: &mut S, name: &Name) -> Option<Shared<u8>> {
        (self.body)(writer, name)
    }

    fn certify(
        &self,
        _alloc: Global,
        writer: &mut S,
        snapshot: [u8; 20],
        names: Vec<Name>,
    ) -> Result<Cert, Memory> {
        (self.certify)(writer, snapshot, names)
    }

    fn apply(&self, writer: &mut S, plan: Q) -> Result<Outcome, Refusal> {
        (self.apply)(writer, plan)
    }

    ghost lawful = { λ p. W.lawful p.by };
}
