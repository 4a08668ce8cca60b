// The reply to a GET of a path.
ghost use Rattle.std.specs.Prelude.{◌≡◌, IfOk};
ghost use Rattle.swh_api.specs.Answer.{IsAnswer};
ghost use Rattle.swh_api.specs.Get.{get_request, text_of, IsReplyToGet};

use crate::answer::reply;
use std::alloc::Global;
use swh_base::{Bytes, Memory, Reply, Request};
use swh_model::Look;

fn get_request(alloc: Global, path: &[u8]) -> Result<Request, Memory>
    ensures { IfOk result (λ request. request ≡ get_request path.now) }
{
    let method = Bytes::from_slice(alloc, b"GET")?;
    let path = Bytes::from_slice(alloc, path)?;
    Ok(Request {
        method,
        path,
        body: Bytes::from_vec(Vec::new(alloc)),
        keep: false,
    })
}

/// The reply to a GET of a path, as `reply` has it. Fails where memory runs out.
pub fn reply_to_get<L: Look>(alloc: Global, look: &L, path: &[u8]) -> Result<Reply, Memory>
    ensures answer { IfOk result (IsAnswer (L.archive look.now) (get_request path.now)) }
    ensures text { IfOk result (λ r. IsReplyToGet (L.archive look.now) path.now (text_of r)) }
{
    let request = get_request(alloc, path)?;
    reply(alloc, look, &request)
}
