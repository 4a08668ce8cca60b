// An archive to which a loader sends its plans.
use crate::refusal::Refusal;
use std::alloc::Global;
use swh_base::{Entry, Memory, Name, Namer, Shared};
use swh_closure::Cert;
use swh_model::Outcome;
use swh_plan::Plan;
use swh_store::Standing;

/// Something that is wanted of an archive.
pub trait Wanted {
    ghost use Rattle.std.specs.Prelude.{ℕ, List};
    ghost use Rattle.swh_base.specs.declared.kind.Kind.{Kind};
    ghost use Rattle.swh_model.specs.declared.event.Wish.{Wish};

    /// How its objects are named.
    ghost id_of: { Kind → List ℕ → List ℕ };

    /// What is wanted.
    ghost wish: { Self → Wish };
}

impl<N: Namer> Wanted for Plan<N> {
    ghost use Rattle.swh_plan.specs.Plan.{wish_of};

    ghost id_of = { N.id_of };

    ghost wish = { wish_of };
}

/// An archive to which one loader sends plans of type `Q`. What the loader knows of it lies in a writer of type `S`: its
/// number, a front of the history, and how many events it made. Contracts see all of it through the protocol.
pub trait Destination<Q: Wanted, S> {
    ghost use Rattle.std.specs.Prelude.{◌≡◌, [], Some, IfOk, IfErr, IfSome};
    ghost use Rattle.swh_base.specs.Snapshot.{snapshot_name};
    ghost use Rattle.swh_model.specs.Archive.{IsClosed, body_of};
    ghost use Rattle.swh_store.specs.Adding.{IsStanding};
    ghost use Rattle.swh_ingest.specs.Knowing.{Protocol, IsLawful, CarriesOut, RefusesPlan, held_in};

    /// What holds of writers.
    ghost protocol: { Self → Protocol S };

    /// That what the destination was made of keeps to its protocol. One that is made of closures says so here of their
    /// calls. It is owed by the one who has the destination and calls a method, so that one of which it never holds
    /// serves nobody.
    ghost fits: { Self → Type 0 };

    /// How an entry stands to what is held.
    fn standing(&self, writer: &mut S, entry: &Entry) -> Result<Standing, Memory>
        requires fits { fits self.now }
        requires ready { (protocol self.now).ready writer.old }
        ensures looks { (protocol self.now).adds [] writer.old writer.new }
        ensures standing { IfOk result (IsStanding (held_in ((protocol self.now).known writer.new)) entry.now) };

    /// The body that is held under a name, shared; none where there is none, or memory is short.
    fn body(&self, writer: &mut S, name: &Name) -> Option<Shared<u8>>
        requires fits { fits self.now }
        requires ready { (protocol self.now).ready writer.old }
        ensures looks { (protocol self.now).adds [] writer.old writer.new }
        ensures held { IfSome result (λ body. body_of (held_in ((protocol self.now).known writer.new)) name.now ≡ Some body) };

    /// A certificate that all that is reached from a snapshot is held. The names are those of the input, among which all of
    /// it stands.
    fn certify(
        &self,
        alloc: Global,
        writer: &mut S,
        snapshot: [u8; 20],
        names: Vec<Name>,
    ) -> Result<Cert, Memory>
        requires fits { fits self.now }
        requires ready { (protocol self.now).ready writer.old }
        requires closed { IsClosed (held_in ((protocol self.now).known writer.old)) (snapshot_name snapshot) }
        ensures looks { (protocol self.now).adds [] writer.old writer.new }
        ensures root { IfOk result (λ cert. cert.root ≡ snapshot_name snapshot) };

    /// Lets a plan be carried out.
    fn apply(&self, writer: &mut S, plan: Q) -> Result<Outcome, Refusal>
        requires { fits self.now }
        ensures ok { IfOk result (CarriesOut Q.id_of (protocol self.now) (Q.wish plan) writer.old writer.new) }
        ensures err { IfErr result (RefusesPlan Q.id_of (protocol self.now) (Q.wish plan) writer.old writer.new) };

    /// What the protocol of each destination obeys.
    ghost lawful: { (destination : Self) → IsLawful Q.id_of (protocol destination) };
}
