//! What is new of a batch, and whether a name would have two bodies.
ghost use Rattle.std.specs.Prelude.{◌≡◌, [], None, IfOk, IfSome, IfNone, OnErr};
ghost use Rattle.std.specs.List.{AllByRecursion};
ghost use Rattle.swh_base.specs.declared.name.Name.{Name};
ghost use Rattle.swh_model.specs.Archive.{body_of};
ghost use Rattle.swh_model.specs.Step.{HasItsChildren};
ghost use Rattle.swh_model.specs.Judge.{not_held, Collides};
ghost use Rattle.swh_plan.specs.Batches.{TakesUp, first_collision};

use std::alloc::Global;
use swh_base::{Entry, Memory, Name};
use swh_store::{Distinct, Standing, Store};

/// The entries of a batch that are not held, each once, and the name of the first entry whose name would have two bodies.
#[derive(Drop)]
pub struct Split {
    pub fresh: Vec<Entry>,
    pub collision: Option<Name>,
}

/// How an entry stands to what is held and to what is new before it, which it joins where it is new. It is looked for once
/// in each.
fn take_up(store: &Store, fresh: &mut Distinct, entry: &Entry) -> Result<Standing, Memory>
    requires { HasItsChildren entry.now }
    ensures ok { IfOk result (TakesUp store.now.bodies fresh.old fresh.new entry.now) }
    ensures err { OnErr result (body_of store.now.bodies entry.now.name ≡ None) }
{
    match store.standing(entry) {
        Standing::New => fresh.join(entry.again()?),
        Standing::Known => Ok(Standing::Known),
        Standing::Other => Ok(Standing::Other),
    }
}

/// The name that was found to have two bodies, or else this one, where its entry stands so.
fn first_collision(found: Option<Name>, name: Name, standing: Standing) -> Option<Name>
    ensures { result ≡ first_collision found name standing }
{
    match (found, standing) {
        (None, Standing::Other) => Some(name),
        _ => found,
    }
}

/// What is new of a batch, in one pass. Fails where memory runs out. No room is taken for what is held, so that a batch of
/// which nothing is new never fails.
pub fn split_fresh(alloc: Global, store: &Store, entries: &[Entry]) -> Result<Split, Memory>
    requires { AllByRecursion HasItsChildren entries.now }
    ensures fresh { IfOk result (λ split. split.fresh.items ≡ not_held store.now.bodies entries.now) }
    ensures some { IfOk result (λ split. IfSome split.collision (Collides store.now.bodies entries.now)) }
    ensures none { IfOk result (λ split. IfNone split.collision ((name : Name)
        → Collides store.now.bodies entries.now name → ⊥)) }
    ensures held { not_held store.now.bodies entries.now ≡ [] → OnErr result ⊥ }
{
    let mut fresh = Distinct::new(alloc);
    let mut collision = None;
    for entry in entries {
        let standing = take_up(store, &mut fresh, entry)?;
        collision = first_collision(collision, entry.name, standing);
    }
    Ok(Split {
        fresh: fresh.into_vec(),
        collision,
    })
}
