// Values that are written as JSON: texts, ids and lists of ids; and the reply that writes a value.
ghost use Rattle.std.specs.Prelude.{◌≡◌, false, IfOk};
ghost use Rattle.serde_json.specs.View.{view};
ghost use Rattle.serde_json.specs.Written.{has_float};
ghost use Rattle.swh_replies.specs.Json.{text_data, id_data, array_data, tree_reply};

use serde_json::Value;
use std::alloc::{AllocError, Global};
use swh_base::{Memory, Reply, Shared, escape};

/// Bytes as an escaped text.
pub fn text_value(alloc: Global, bytes: &[u8]) -> Result<Value, AllocError>
    ensures { IfOk result (λ value. view value ≡ text_data bytes.now) }
{
    let text = escape(alloc, bytes)?;
    Ok(Value::String(text))
}

/// An id's forty digits.
pub fn id_value(alloc: Global, id: &[u8]) -> Result<Value, AllocError>
    ensures { IfOk result (λ value. view value ≡ id_data id.now) }
{
    let text = hex::encode(alloc, id)?;
    Ok(Value::String(text))
}

/// The ids, in their order.
pub fn ids_value(alloc: Global, ids: &[[u8; 20]]) -> Result<Value, AllocError>
    ensures { IfOk result (λ value. view value ≡ array_data id_data ids.now) }
{
    let mut values = Vec::new(alloc);
    for id in ids {
        values.push(id_value(alloc, id)?)?;
    }
    Ok(Value::Array(values))
}

/// A reply with a value as its body, in JSON (RFC 8259).
pub fn json_reply(alloc: Global, status: u16, value: &Value) -> Result<Reply, Memory>
    requires { has_float (view value.now) ≡ false }
    ensures { IfOk result (λ reply. reply ≡ tree_reply status (view value.now)) }
{
    let text = value.to_string(alloc)?;
    Ok(Reply {
        status,
        json: true,
        body: Shared::from_vec(text.into_bytes())?,
    })
}
