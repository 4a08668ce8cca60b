// The reply to a posted load.
ghost use Rattle.std.specs.Prelude.{◌≡◌, IfOk};
ghost use Rattle.serde_json.specs.View.{view};
ghost use Rattle.swh_api.specs.Load.{load_data, load_reply};

use serde_json::{Value, json};
use std::alloc::{AllocError, Global};
use swh_base::{Memory, Reply, Url, escape};
use swh_replies::json_reply;

fn load_value(
    alloc: Global,
    origin: &Url,
    visit: u64,
    status: &str,
    detail: &str,
) -> Result<Value, AllocError>
    ensures { IfOk result (λ value. view value ≡ load_data origin.now visit status.now detail.now) }
{
    let origin = escape(alloc, origin.as_str().as_bytes())?;
    json!(in alloc; {"detail": detail, "origin": origin, "status": status, "visit": visit})
}

/// The reply to a load of an origin whose visit has ended: 200, with the visit's number, the status with which it ended, and
/// its snapshot, or why it has none. Fails where memory runs out.
pub fn load_reply(
    alloc: Global,
    origin: &Url,
    visit: u64,
    status: &str,
    detail: &str,
) -> Result<Reply, Memory>
    ensures { IfOk result (λ reply. reply ≡ load_reply origin.now visit status.now detail.now) }
{
    let value = load_value(alloc, origin, visit, status, detail)?;
    json_reply(alloc, 200, &value)
}
