//! The bytes of one connection, in whatever pieces they come.
use crate::ask::Ask;
use crate::state::{State, fresh, take_turn};
use std::alloc::Global;
use std::marker::Model;
use std::mem;
use swh_base::Memory;

/// What turns the bytes of one connection into requests. Contracts see the bytes that wait for more, and none once a
/// refusal was given or memory ran out: from then on nothing is taken.
#[derive(Drop)]
pub struct Session {
    alloc: Global,
    state: State,
}

impl Model for Session {
    ghost use Rattle.std.specs.Prelude.{List, ℕ, Option};

    ghost Value = { Option (List ℕ) };

    ghost use Rattle.swh_http.specs.Turn.{held_of, MayTakeMore};

    ghost view = { λ s. held_of s.state };

    ghost invariant = { λ s. MayTakeMore s.state };
}

ghost use Rattle.std.specs.Prelude.{◌≡◌, ◌++◌, ℕ, List, [], Some, None, IfOk, OnOk};
ghost use Rattle.swh_http.specs.Turn.{held_of, MayTakeMore, asks_with};
ghost use Rattle.swh_http.specs.Wire.{AreAsks, held_length};

// One more ask, where there is one.
fn push_ask(asks: &mut Vec<Ask>, ask: Option<Ask>) -> Result<(), Memory>
    ensures { OnOk result (asks.new.items ≡ asks_with asks.old.items ask) }
{
    match ask {
        Some(ask) => asks.push(ask)?,
        None => {}
    }
    Ok(())
}

// All that the bytes ask, and what waits then.
fn read(alloc: Global, state: State, piece: &[u8]) -> Result<(Vec<Ask>, State), Memory>
    requires { MayTakeMore state }
    ensures ready { IfOk result (λ r. MayTakeMore r.1) }
    ensures open { IfOk result (λ r. (held : List ℕ) → held_of state ≡ Some held
        → AreAsks (held ++ piece.now) r.0.items (held_of r.1)) }
    ensures closed { IfOk result (λ r. held_of state ≡ None → (r.0.items ≡ []) × (held_of r.1 ≡ None)) }
{
    let mut asks = Vec::new(alloc);
    let mut state = state;
    let mut rest = piece;
    'turns: while !rest.is_empty() {
        let turn = take_turn(alloc, state, rest)?;
        push_ask(&mut asks, turn.ask)?;
        state = turn.state;
        rest = rest.split_at(turn.taken).1;
    }
    Ok((asks, state))
}

// How many bytes wait.
fn waiting_bytes(state: &State) -> u64
    ensures { result ≡ held_length (held_of state.now) }
{
    match state {
        State::Head { bytes, .. } => bytes.len() as u64,
        State::Body { head, body, .. } => head.len() as u64 + body.len() as u64,
        State::Closed => 0,
    }
}

impl Session {
    ghost use Rattle.std.specs.Prelude.{◌≡◌, ◌++◌, ◌+◌, ◌<◌, ℕ, List, [], Some, None, IfOk, OnErr};
    ghost use Rattle.swh_base.specs.Limits.{body_limit};
    ghost use Rattle.swh_http.specs.Wire.{AreAsks, AwaitsBytes, head_limit, held_length};

    /// A session that has taken nothing.
    pub fn new(alloc: Global) -> Session
        ensures { result ≡ Some [] }
    {
        Session {
            alloc,
            state: fresh(alloc),
        }
    }

    /// What the bytes held and these ask, in order; the rest of them waits. After want of memory nothing more is taken.
    pub fn feed(&mut self, piece: &[u8]) -> Result<Vec<Ask>, Memory>
        ensures open { IfOk result (λ asks. (held : List ℕ) → self.old ≡ Some held
            → AreAsks (held ++ piece.now) asks.items self.new) }
        ensures closed { IfOk result (λ asks. self.old ≡ None → (asks.items ≡ []) × (self.new ≡ None)) }
        ensures err { OnErr result (self.new ≡ None) }
    {
        let state = mem::replace(&mut self.state, State::Closed);
        let (asks, state) = read(self.alloc, state, piece)?;
        self.state = state;
        Ok(asks)
    }

    /// How many bytes wait for more: a head's, at most 16,384, or those of a head that is taken and of its body, which
    /// are fewer than the at most 67,108,864 that it says. The room for a body grows with the bytes that came, at most
    /// by doubling, and none is taken for the length that the head says.
    pub fn held(&self) -> u64
        ensures length { result ≡ held_length self.now }
        ensures waits { (held : List ℕ) → self.now ≡ Some held → AwaitsBytes held }
        ensures few { result < head_limit + body_limit }
    {
        waiting_bytes(&self.state)
    }
}
