// A keeper to which two loaders add.
ghost use Rattle.std.specs.Prelude.{◌≡◌, None};
ghost use Rattle.swh_base.specs.Namer.{byte_id};
ghost use Rattle.swh_loader_tests.specs.Sharing.{IsOthers, AddsAmong, shared_protocol};
ghost use Rattle.swh_loader_tests.specs.Shared.{shared_lawful};

use std::alloc::Global;
use std::collections::VecDeque;
use swh_base::{ByteNamer, Entry, Memory, Name, Shared};
use swh_closure::Cert;
use swh_fixtures::Archive;
use swh_ingest::{Destination, Refusal};
use swh_keeperload::{body_in, carry_out, certificate_in, standing_in};
use swh_model::Outcome;
use swh_plan::Plan;
use swh_store::Standing;

/// A keeper, and what loader 1 adds to it, one before each plan of loader 2.
pub struct Desk {
    pub keeper: Archive<ByteNamer>,
    pub others: VecDeque<Plan<ByteNamer>>,
}

/// Loader 2.
#[derive(Clone, Copy, Debug)]
pub struct Second;

/// Adds the next of what loader 1 adds.
fn add_other(keeper: &mut Archive<ByteNamer>, others: &mut VecDeque<Plan<ByteNamer>>)
    ensures { IsOthers byte_id keeper.old keeper.new }
{
    let Some(plan) = others.pop_front() else {
        return;
    };
    match carry_out(1, keeper, plan) {
        Ok(_) => {}
        Err(_) => {}
    }
}

impl Destination<Plan<ByteNamer>, Desk> for Second {
    ghost protocol = { λ p. shared_protocol byte_id (λ desk. desk.keeper) };

    ghost fits = { λ p. Unit {0} };

    fn standing(&self, desk: &mut Desk, entry: &Entry) -> Result<Standing, Memory> {
        Ok(standing_in(&mut desk.keeper, entry))
    }

    fn body(&self, desk: &mut Desk, name: &Name) -> Option<Shared<u8>> {
        body_in(&mut desk.keeper, name)
    }

    fn certify(
        &self,
        _alloc: Global,
        desk: &mut Desk,
        snapshot: [u8; 20],
        names: Vec<Name>,
    ) -> Result<Cert, Memory> {
        Ok(certificate_in(&mut desk.keeper, snapshot, names))
    }

    fn apply(&self, desk: &mut Desk, plan: Plan<ByteNamer>) -> Result<Outcome, Refusal> {
        add_other(&mut desk.keeper, &mut desk.others);
        carry_out(2, &mut desk.keeper, plan)
    }

    ghost lawful = { λ p. shared_lawful byte_id (λ desk. desk.keeper) };
}
