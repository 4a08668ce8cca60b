// Refusals, and the replies on origins, contents, bodies and lists of names.
ghost use Rattle.std.specs.Prelude.{◌≡◌, IfOk, IfSome, IfNone};
ghost use Rattle.serde_json.specs.View.{view};
ghost use Rattle.swh_replies.specs.Json.{visits_data, origin_data, error_data, not_held_data, uncarried_data, no_path_data, tree_reply, error_reply};
ghost use Rattle.swh_replies.specs.Answers.{
  SpellsUrl,
  NoUrl,
  SpellsId,
  NoId,
  SpellsCore,
  NoCore,
  of_visits,
  plain_reply,
  IsOriginReply,
  IsContentReply,
  IsRawReply,
  IsKnownReply,
};

use crate::artifacts::content_value;
use crate::known::{known_value, listed_names};
use crate::value::json_reply;
use crate::visits::{origin_value, visits_text};
use crate::words::core_string;
use percent_encoding::percent_decode;
use serde_json::{Value, json};
use std::alloc::{AllocError, Global};
use std::str;
use swh_base::{Kind, Memory, Name, Reply, Shared, Url, UrlFault};
use swh_model::{Look, Visit};
use swh_swhid::parse_core;

fn error_value(alloc: Global, word: &str) -> Result<Value, AllocError>
    ensures { IfOk result (λ value. view value ≡ error_data word.now) }
{
    json!(in alloc; {"error": word})
}

fn not_held_value(alloc: Global, name: &Name) -> Result<Value, AllocError>
    ensures { IfOk result (λ value. view value ≡ not_held_data name.now) }
{
    let text = core_string(alloc, name)?;
    json!(in alloc; {"error": "not held", "name": text})
}

fn uncarried_value(alloc: Global, name: &Name, why: &str) -> Result<Value, AllocError>
    ensures { IfOk result (λ value. view value ≡ uncarried_data name.now why.now) }
{
    let text = core_string(alloc, name)?;
    json!(in alloc; {"error": "uncarried", "name": text, "why": why})
}

fn no_path_value(alloc: Global, component: u64) -> Result<Value, AllocError>
    ensures { IfOk result (λ value. view value ≡ no_path_data component) }
{
    json!(in alloc; {"component": component, "error": "no path"})
}

/// The reply that tells one word: why there is no other.
pub fn refusal(alloc: Global, status: u16, word: &str) -> Result<Reply, Memory>
    ensures { IfOk result (λ reply. reply ≡ error_reply status word.now) }
{
    let value = error_value(alloc, word)?;
    json_reply(alloc, status, &value)
}

/// The reply where nothing is held under a name: 404.
pub fn not_held(alloc: Global, name: &Name) -> Result<Reply, Memory>
    ensures { IfOk result (λ reply. reply ≡ tree_reply 404 (not_held_data name.now)) }
{
    let value = not_held_value(alloc, name)?;
    json_reply(alloc, 404, &value)
}

/// The reply where an object is not cooked, with the word that tells why: 422.
pub fn uncarried(alloc: Global, name: &Name, why: &str) -> Result<Reply, Memory>
    ensures { IfOk result (λ reply. reply ≡ tree_reply 422 (uncarried_data name.now why.now)) }
{
    let value = uncarried_value(alloc, name, why)?;
    json_reply(alloc, 422, &value)
}

/// The reply where a component of a path leads nowhere: 404.
pub fn no_path(alloc: Global, component: u64) -> Result<Reply, Memory>
    ensures { IfOk result (λ reply. reply ≡ tree_reply 404 (no_path_data component)) }
{
    let value = no_path_value(alloc, component)?;
    json_reply(alloc, 404, &value)
}

/// The URL that a text in a path spells, percent-decoded (RFC 3986). None where it is no URL. A `%` without two
/// hexadecimal digits stays as it is. Fails where memory runs out.
pub fn url_of(alloc: Global, text: &[u8]) -> Result<Option<Url>, Memory>
    ensures some { IfOk result (λ found. IfSome found (SpellsUrl text.now)) }
    ensures none { IfOk result (λ found. IfNone found (NoUrl text.now)) }
{
    let mut bytes = Vec::new(alloc);
    percent_decode(text).append_to(&mut bytes)?;
    let Ok(url) = str::from_utf8(bytes.as_slice()) else {
        return Ok(None);
    };
    match Url::new(alloc, url) {
        Ok(url) => Ok(Some(url)),
        Err(UrlFault::BadUrl) => Ok(None),
        Err(UrlFault::Memory) => Err(Memory),
    }
}

/// The reply on these visits of an origin, of which the oldest stands first: the latest first, and 404 where there are none.
pub fn listed_visits(alloc: Global, origin: &[u8], visits: &[Visit]) -> Result<Reply, Memory>
    ensures { IfOk result (λ reply. reply ≡ of_visits (visits_data origin.now) visits.now) }
{
    if visits.is_empty() {
        return refusal(alloc, 404, "not found");
    }
    let text = visits_text(alloc, origin, visits)?;
    Ok(Reply {
        status: 200,
        json: true,
        body: Shared::from_vec(text)?,
    })
}

fn counted_visits(alloc: Global, origin: &[u8], visits: &[Visit]) -> Result<Reply, Memory>
    ensures { IfOk result (λ reply. reply ≡ of_visits (origin_data origin.now) visits.now) }
{
    if visits.is_empty() {
        return refusal(alloc, 404, "not found");
    }
    let value = origin_value(alloc, origin, visits)?;
    json_reply(alloc, 200, &value)
}

/// The reply on the visits of the origin that a text spells, the latest first: 404 where it was never opened, and 400 where
/// the text is no URL. Fails where memory runs out.
pub fn visits_reply<L: Look>(alloc: Global, look: &L, text: &[u8]) -> Result<Reply, Memory>
    ensures { IfOk result (IsOriginReply visits_data (L.archive look.now) text.now) }
{
    let Some(url) = url_of(alloc, text)? else {
        return refusal(alloc, 400, "swhid");
    };
    let origin = url.as_str().as_bytes();
    listed_visits(alloc, origin, look.visits(origin))
}

/// The reply on the origin that a text spells: 404 where it was never opened, and 400 where the text is no URL. Fails
/// where memory runs out.
pub fn origin_reply<L: Look>(alloc: Global, look: &L, text: &[u8]) -> Result<Reply, Memory>
    ensures { IfOk result (IsOriginReply origin_data (L.archive look.now) text.now) }
{
    let Some(url) = url_of(alloc, text)? else {
        return refusal(alloc, 400, "swhid");
    };
    let origin = url.as_str().as_bytes();
    counted_visits(alloc, origin, look.visits(origin))
}

/// The name of this kind whose id a text in a path is; none where it is no id.
pub fn id_of(kind: Kind, text: &[u8]) -> Option<Name>
    ensures some { IfSome result (λ name. (name.kind ≡ kind) × SpellsId text.now name.id) }
    ensures none { IfNone result (NoId text.now) }
{
    Name::from_hex(kind, text)
}

/// The name whose core identifier a text in a path is; none where it is none.
pub fn core_of(text: &[u8]) -> Option<Name>
    ensures some { IfSome result (SpellsCore text.now) }
    ensures none { IfNone result (NoCore text.now) }
{
    parse_core(text)
}

/// The reply on the content whose id a text is: 404 where it is not held, and 400 where the text is no id. Fails where
/// memory runs out.
pub fn content_reply<L: Look>(alloc: Global, look: &L, text: &[u8]) -> Result<Reply, Memory>
    ensures { IfOk result (IsContentReply (L.archive look.now) text.now) }
{
    let Some(name) = id_of(Kind::Content, text) else {
        return refusal(alloc, 400, "swhid");
    };
    let Some(body) = look.body(&name) else {
        return not_held(alloc, &name);
    };
    let value = content_value(alloc, &name, body.as_slice())?;
    json_reply(alloc, 200, &value)
}

/// The reply with the body that is held under the name whose core identifier a text is: 404 where none is, and 400 where
/// the text is no core identifier. The body is not copied. Fails where memory runs out.
pub fn raw_reply<L: Look>(alloc: Global, look: &L, text: &[u8]) -> Result<Reply, Memory>
    ensures { IfOk result (IsRawReply (L.archive look.now) text.now) }
{
    let Some(name) = core_of(text) else {
        return refusal(alloc, 400, "swhid");
    };
    let Some(body) = look.body(&name) else {
        return not_held(alloc, &name);
    };
    Ok(Reply {
        status: 200,
        json: false,
        body: body.again()?,
    })
}

/// The reply that tells which of the names that a request's body lists are held: 400 where it lists none. Fails where
/// memory runs out.
pub fn known_reply<L: Look>(alloc: Global, look: &L, body: &[u8]) -> Result<Reply, Memory>
    ensures { IfOk result (IsKnownReply (L.archive look.now) body.now) }
{
    let Some(names) = listed_names(alloc, body)? else {
        return refusal(alloc, 400, "json");
    };
    let value = known_value(alloc, look, names.as_slice())?;
    json_reply(alloc, 200, &value)
}
