//! What waits for more bytes, and one turn of it.
ghost use Rattle.std.specs.Prelude.{
  ◌≡◌,
  ◌+◌,
  ◌*◌,
  ◌<◌,
  ◌≤◌,
  ◌++◌,
  ◌∷◌,
  [],
  length,
  Some,
  None,
  OnOk,
  IfOk,
  MatchOption,
  List,
  ℕ,
  take,
  vec_len,
  vec_capacity,
};
ghost use Rattle.swh_http.specs.Framed.{Frames, IsWholeHead};
ghost use Rattle.swh_http.specs.HeadState.{place_of};
ghost use Rattle.swh_http.specs.Turn.{GoesAt, MayTakeMore, IsHeadEnd, IsTurn, StaysClosed, held_of};
ghost use Rattle.swh_http.specs.Wire.{head_limit};

use crate::ask::Ask;
use crate::head::{Framed, frame};
use crate::head_state::{HeadState, advance};
use std::alloc::Global;
use swh_base::{Bytes, Memory, Request};

// The most bytes of a head.
const HEAD_LIMIT: usize = 16_384;

/// What waits for more bytes.
#[derive(Drop)]
pub enum State {
    /// A head without its end, whose bytes end at this place.
    Head {
        bytes: Vec<u8>,
        place: HeadState,
    },
    /// A head, and a body without its end.
    Body {
        head: Vec<u8>,
        framed: Framed,
        body: Vec<u8>,
    },
    /// A refusal was given.
    Closed,
}

/// How many bytes were taken, what they ask, and what waits now.
#[derive(Drop)]
pub struct Turn {
    pub taken: usize,
    pub ask: Option<Ask>,
    pub state: State,
}

/// What the bytes of a head come to.
#[derive(Drop)]
enum HeadEnd {
    Waits { bytes: Vec<u8>, place: HeadState },
    Whole { bytes: Vec<u8>, taken: usize },
    Refused { status: u16 },
}

// One byte more of a head.
fn next_place(held: &mut Vec<u8>, place: HeadState, byte: u8) -> Result<HeadState, Memory>
    requires { place_of held.old.items ≡ place }
    ensures { IfOk result (λ after. (held.new.items ≡ held.old.items ++ byte ∷ [])
        × (place_of held.new.items ≡ after)) }
{
    let after = advance(held.as_slice(), place, byte);
    held.push(byte)?;
    Ok(after)
}

fn read_head(bytes: Vec<u8>, place: HeadState, rest: &[u8]) -> Result<HeadEnd, Memory>
    requires { GoesAt bytes.items place }
    ensures { IfOk result (IsHeadEnd bytes.items rest.now) }
{
    let mut held = bytes;
    let mut place = place;
    'bytes: for (index, byte) in rest.iter().enumerate() {
        if held.len() >= HEAD_LIMIT {
            return Ok(HeadEnd::Refused { status: 431 });
        }
        match next_place(&mut held, place, *byte)? {
            HeadState::Whole => {
                let taken = index + 1;
                return Ok(HeadEnd::Whole { bytes: held, taken });
            }
            HeadState::Broken => return Ok(HeadEnd::Refused { status: 400 }),
            after => place = after,
        }
    }
    Ok(HeadEnd::Waits { bytes: held, place })
}

// Takes room for bytes behind a body: where there is none, for as many again as the body has then.
fn take_room(body: &mut Vec<u8>, count: usize) -> Result<(), Memory>
    requires { vec_capacity body.old ≤ 2 * vec_len body.old }
    ensures items { body.new.items ≡ body.old.items }
    ensures same { vec_len body.new ≡ vec_len body.old }
    ensures enough { OnOk result (vec_len body.new + count ≤ vec_capacity body.new) }
    ensures room { OnOk result (vec_capacity body.new ≤ 2 * (vec_len body.new + count)) }
{
    let held = body.len();
    if body.capacity().saturating_sub(held) < count {
        body.reserve_exact(count.max(held))?;
    }
    Ok(())
}

// Puts bytes into the room behind a body.
fn put_bytes(body: &mut Vec<u8>, more: &[u8])
    requires { vec_len body.old + length more.now ≤ vec_capacity body.old }
    ensures items { body.new.items ≡ body.old.items ++ more.now }
    ensures longer { vec_len body.new ≡ vec_len body.old + length more.now }
    ensures room { vec_capacity body.new ≡ vec_capacity body.old }
{
    for byte in more {
        body.push_reserved(*byte);
    }
}

// More bytes of a body, for which no more room is taken than for twice what has come: not for what the head declares.
fn push_bytes(body: &mut Vec<u8>, more: &[u8]) -> Result<(), Memory>
    requires { vec_capacity body.old ≤ 2 * vec_len body.old }
    ensures items { OnOk result (body.new.items ≡ body.old.items ++ more.now) }
    ensures room { OnOk result (vec_capacity body.new ≤ 2 * vec_len body.new) }
{
    take_room(body, more.len())?;
    put_bytes(body, more);
    Ok(())
}

fn body_turn(
    alloc: Global,
    head: Vec<u8>,
    framed: Framed,
    body: Vec<u8>,
    rest: &[u8],
) -> Result<Turn, Memory>
    requires frames { Frames head.items framed }
    requires short { length head.items ≤ head_limit }
    requires within { length body.items ≤ framed.length }
    requires room { vec_capacity body ≤ 2 * vec_len body }
    ensures turn { IfOk result (IsTurn (head.items ++ body.items) rest.now) }
    ensures within { IfOk result (λ turn. turn.taken ≤ length rest.now) }
    ensures some { IfOk result (λ turn. length body.items < framed.length → 0 < length rest.now → 0 < turn.taken) }
{
    let mut body = body;
    let taken = rest.len().min(framed.length - body.len());
    push_bytes(&mut body, &rest[..taken])?;
    if body.len() < framed.length {
        let state = State::Body { head, framed, body };
        return Ok(Turn {
            taken,
            ask: None,
            state,
        });
    }
    let Framed {
        method,
        path,
        keep,
        ..
    } = framed;
    let body = Bytes::from_vec(body);
    let ask = Ask::Request(Request {
        method,
        path,
        body,
        keep,
    });
    Ok(Turn {
        taken,
        ask: Some(ask),
        state: fresh(alloc),
    })
}

/// Nothing is held.
pub fn fresh(alloc: Global) -> State
    ensures ready { MayTakeMore result }
    ensures empty { held_of result ≡ Some [] }
{
    State::Head {
        bytes: Vec::new(alloc),
        place: HeadState::Blank,
    }
}

fn refusal(status: u16, taken: usize) -> Turn
    ensures taken { result.taken ≡ taken }
    ensures ask { result.ask ≡ Some (Ask.Refused status) }
    ensures state { result.state ≡ State.Closed }
{
    Turn {
        taken,
        ask: Some(Ask::Refused { status }),
        state: State::Closed,
    }
}

// The head ends after so many of the bytes.
fn whole_turn(alloc: Global, bytes: &[u8], head: Vec<u8>, taken: usize) -> Result<Turn, Memory>
    requires some { 0 < taken }
    requires within { taken ≤ length bytes.now }
    requires whole { IsWholeHead head.items }
    requires short { length head.items ≤ head_limit }
    ensures some_taken { IfOk result (λ turn. (0 < turn.taken) × (turn.taken ≤ length bytes.now)) }
    ensures turn { IfOk result (λ turn. (held : List ℕ) → head.items ≡ held ++ take taken bytes.now
        → IsTurn held bytes.now turn) }
{
    match frame(alloc, head.as_slice())? {
        Ok(framed) => {
            let (_, rest) = bytes.split_at(taken);
            let turn = body_turn(alloc, head, framed, Vec::new(alloc), rest)?;
            Ok(Turn {
                taken: taken + turn.taken,
                ask: turn.ask,
                state: turn.state,
            })
        }
        Err(status) => Ok(refusal(status, bytes.len())),
    }
}

fn head_turn(alloc: Global, bytes: Vec<u8>, place: HeadState, rest: &[u8]) -> Result<Turn, Memory>
    requires stands { GoesAt bytes.items place }
    requires more { 0 < length rest.now }
    ensures some_taken { IfOk result (λ turn. (0 < turn.taken) × (turn.taken ≤ length rest.now)) }
    ensures turn { IfOk result (λ turn. IsTurn bytes.items rest.now turn) }
{
    match read_head(bytes, place, rest)? {
        HeadEnd::Waits { bytes, place } => Ok(Turn {
            taken: rest.len(),
            ask: None,
            state: State::Head { bytes, place },
        }),
        HeadEnd::Whole { bytes, taken } => whole_turn(alloc, rest, bytes, taken),
        HeadEnd::Refused { status } => Ok(refusal(status, rest.len())),
    }
}

/// Takes bytes behind those that wait, up to the end of the first ask among them.
pub fn take_turn(alloc: Global, state: State, rest: &[u8]) -> Result<Turn, Memory>
    requires ready { MayTakeMore state }
    requires more { 0 < length rest.now }
    ensures some_taken { IfOk result (λ turn. (0 < turn.taken) × (turn.taken ≤ length rest.now)) }
    ensures turn { IfOk result (λ turn. MatchOption (held_of state) (StaysClosed rest.now turn)
        (λ held. IsTurn held rest.now turn)) }
{
    match state {
        State::Head { bytes, place } => head_turn(alloc, bytes, place, rest),
        State::Body { head, framed, body } => body_turn(alloc, head, framed, body, rest),
        State::Closed => Ok(Turn {
            taken: rest.len(),
            ask: None,
            state: State::Closed,
        }),
    }
}
