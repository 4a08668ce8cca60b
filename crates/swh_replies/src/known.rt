// The names that a request's body lists, and what is answered of them.
ghost use Rattle.std.specs.Prelude.{◌≡◌, ◌≢◌, ◌∷◌, ◌≤◌, [], List, IfOk, OnOk, IfSome, IfNone, MatchBool, length};
ghost use Rattle.std.specs.List.{AllByRecursion};
ghost use Rattle.json.specs.Token as token;
ghost use Rattle.json.specs.Token.{Token as AToken};
ghost use Rattle.serde_json.specs.Data.{put as put_member};
ghost use Rattle.serde_json.specs.View.{view, members_view};
ghost use Rattle.swh_base.specs.Name.{IsName};
ghost use Rattle.swh_swhid.specs.Core.{core_text};
ghost use Rattle.swh_replies.specs.Json.{is_known_data, known_data};
ghost use Rattle.swh_replies.specs.Known.{names_limit, later_tokens, ListsNames, ListsNone, EndsNoneOf};
ghost use Rattle.swh_replies.specs.Steps.{IsStepOf, Steps};

use crate::words::core_string;
use json::{Reader, Scratch, Token};
use serde_json::{Map, Value, json, put};
use std::alloc::{AllocError, Global};
use std::str;
use swh_base::{Memory, Name};
use swh_model::Look;
use swh_swhid::parse_core;

/// How many names a request may list.
const NAMES_LIMIT: usize = 1_000;

/// What comes next in an array of names.
#[derive(Clone, Copy)]
pub enum Step {
    /// One more name.
    Next(Name),
    /// The bracket that closes the array.
    End,
    /// Neither.
    No,
}

// The name whose core identifier a text is.
fn name_step(text: &str) -> Step
    ensures { IsStepOf text.now result }
{
    match parse_core(text.as_bytes()) {
        Some(name) => Step::Next(name),
        None => Step::No,
    }
}

// What comes next.
fn next_step(reader: &mut Reader<'_>) -> Step
    ensures { Steps reader.old result reader.new }
{
    let Some(token) = reader.next() else {
        return Step::No;
    };
    match token {
        Token::String(text) => name_step(text),
        Token::EndArray => Step::End,
        _ => Step::No,
    }
}

// The array begins.
fn opens(reader: &mut Reader<'_>) -> bool
    ensures { MatchBool result (reader.old ≡ token.begin_array ∷ reader.new)
        ((rest : List AToken) → reader.old ≡ token.begin_array ∷ rest → ⊥) }
{
    matches!(reader.next(), Some(Token::BeginArray))
}

// The names, where nothing comes behind the bracket that closes their array.
fn ended(reader: &mut Reader<'_>, names: Vec<Name>) -> Option<Vec<Name>>
    ensures some { IfSome result (λ list. (list ≡ names) × (reader.old ≡ [])) }
    ensures none { IfNone result (reader.old ≢ []) }
{
    match reader.next() {
        None => Some(names),
        Some(_) => None,
    }
}

// The names of an array that has begun.
fn names_in(alloc: Global, reader: &mut Reader<'_>) -> Result<Option<Vec<Name>>, Memory>
    ensures some { IfOk result (λ found. IfSome found (λ names. AllByRecursion IsName names.items
        × (reader.old ≡ later_tokens names.items) × (length names.items ≤ names_limit))) }
    ensures none { IfOk result (λ found. IfNone found (EndsNoneOf names_limit reader.old)) }
{
    let mut names = Vec::new(alloc);
    'listed: while names.len() <= NAMES_LIMIT {
        match next_step(reader) {
            Step::Next(name) => names.push(name)?,
            Step::End => return Ok(ended(reader, names)),
            Step::No => return Ok(None),
        }
    }
    Ok(None)
}

/// The names that a request's body lists: it is a JSON array (RFC 8259) of at most 1,000 strings, each a core identifier.
/// None where it is anything else; no more of it is read then than up to the first string that is none. Fails where
/// memory runs out.
pub fn listed_names(alloc: Global, body: &[u8]) -> Result<Option<Vec<Name>>, Memory>
    ensures some { IfOk result (λ found. IfSome found (λ names. ListsNames body.now names.items)) }
    ensures none { IfOk result (λ found. IfNone found (ListsNone body.now)) }
{
    let Ok(text) = str::from_utf8(body) else {
        return Ok(None);
    };
    let mut scratch = Scratch::new(alloc);
    let mut reader = Reader::new(text, &mut scratch)?;
    if !opens(&mut reader) {
        return Ok(None);
    }
    names_in(alloc, &mut reader)
}

fn is_known_value<L: Look>(alloc: Global, look: &L, name: &Name) -> Result<Value, AllocError>
    ensures { IfOk result (λ value. view value ≡ is_known_data (L.archive look.now).bodies name.now) }
{
    let known = look.has(name);
    json!(in alloc; {"known": known})
}

// Whether a body is held under one more name, at its core identifier.
fn put_known<L: Look>(
    alloc: Global,
    look: &L,
    members: &mut Map<String, Value>,
    name: &Name,
) -> Result<(), AllocError>
    ensures { OnOk result (members_view members.new.entries ≡ put_member (core_text name.now)
        (is_known_data (L.archive look.now).bodies name.now) (members_view members.old.entries)) }
{
    let text = core_string(alloc, name)?;
    let value = is_known_value(alloc, look, name)?;
    put(members, alloc, text.as_str(), value)
}

/// Of each name whether a body is held under it.
pub fn known_value<L: Look>(alloc: Global, look: &L, names: &[Name]) -> Result<Value, AllocError>
    ensures { IfOk result (λ value. view value ≡ known_data (L.archive look.now).bodies names.now) }
{
    let mut members = Map::new(alloc);
    for name in names {
        put_known(alloc, look, &mut members, name)?;
    }
    Ok(Value::Object(members))
}
