//! What a history makes of the empty archive.
ghost use Rattle.std.specs.Prelude.{◌≡◌, ℕ, List, IfOk, IfSome, IfNone};
ghost use Rattle.std.specs.List.{AllByRecursion};
ghost use Rattle.swh_base.specs.declared.kind.Kind.{Kind};
ghost use Rattle.swh_model.specs.Step.{IsHistory, replay};
ghost use Rattle.swh_model.specs.Happens.{IsGoodEvent, IsNamedEvent};

use crate::event::Event;
use crate::state::State;
use crate::stepping::may_happen;
use std::alloc::Global;
use swh_base::Memory;

/// The archive once the events happened, one after another from the empty archive on, or none where they may not. Fails
/// where memory runs out. It is asked that the events' entries are bodies of their kinds with their children. That
/// their names are a namer's is not asked; the clauses on the answer suppose it.
pub fn replay(alloc: Global, history: &[Event]) -> Result<Option<State>, Memory>
    requires { AllByRecursion IsGoodEvent history.now }
    ensures value { IfOk result (λ state. IfSome state (λ archive. archive ≡ replay history.now)) }
    ensures some { (id_of : Kind → List ℕ → List ℕ) → AllByRecursion (IsNamedEvent id_of) history.now
        → IfOk result (λ state. IfSome state (λ _. IsHistory id_of history.now)) }
    ensures none { (id_of : Kind → List ℕ → List ℕ)
        → IfOk result (λ state. IfNone state (IsHistory id_of history.now → ⊥)) }
{
    let mut state = State::new(alloc);
    for event in history {
        if !may_happen(alloc, &state, event)? {
            return Ok(None);
        }
        state.happen(alloc, event)?;
    }
    Ok(Some(state))
}
