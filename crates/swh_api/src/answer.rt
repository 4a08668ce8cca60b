// The answer to a request.
ghost use Rattle.std.specs.Prelude.{◌≡◌, ◌↔◌, ℕ, List, IsTrue, IfOk};
ghost use Rattle.swh_replies.specs.Answers.{NoUrl};
ghost use Rattle.swh_replies.specs.Json.{error_reply};
ghost use Rattle.swh_replies.specs.Shape.{Load, shape_of};
ghost use Rattle.swh_api.specs.Answer.{method_of, IsMethodOf, IsShapeReply, IsAnswer};
ghost use Rattle.swh_api.specs.Route.{AsksNoLoad};

use crate::cooking::cook_reply;
use crate::objects::{
    directory_reply, entry_reply, log_reply, release_reply, resolve_reply, revision_reply,
    snapshot_reply,
};
use std::alloc::Global;
use swh_base::{Memory, Reply, Request};
use swh_model::Look;
use swh_replies::{
    Asked, content_reply, known_reply, origin_reply, raw_reply, read_path, refusal, visits_reply,
};

// The method that a path is asked by.
fn method_of(asked: &Asked<'_>) -> &'static [u8]
    ensures { result.now ≡ method_of (shape_of asked.now) }
{
    match asked {
        Asked::Known | Asked::Load(_) => b"POST",
        _ => b"GET",
    }
}

// Whether a path is asked by this method. One that is asked by GET is asked by HEAD too.
fn is_method_of(asked: &Asked<'_>, method: &[u8]) -> bool
    ensures { IsTrue result ↔ IsMethodOf method.now (shape_of asked.now) }
{
    let own = method_of(asked);
    method == own || (method == b"HEAD".as_slice() && own == b"GET".as_slice())
}

// The reply to what a path asks for, by its method, with this body.
fn reply_to<L: Look>(
    alloc: Global,
    look: &L,
    asked: &Asked<'_>,
    body: &[u8],
) -> Result<Reply, Memory>
    requires { (url : List ℕ) → shape_of asked.now ≡ Load url → NoUrl url }
    ensures { IfOk result (IsShapeReply (L.archive look.now) body.now (shape_of asked.now)) }
{
    match asked {
        Asked::Known => known_reply(alloc, look, body),
        Asked::Visits(url) => visits_reply(alloc, look, url),
        Asked::Origin(url) => origin_reply(alloc, look, url),
        Asked::Revision(id) => revision_reply(alloc, look, id),
        Asked::Log(id) => log_reply(alloc, look, id),
        Asked::Release(id) => release_reply(alloc, look, id),
        Asked::Directory(id) => directory_reply(alloc, look, id),
        Asked::DirectoryEntry(id, path) => entry_reply(alloc, look, id, path),
        Asked::Snapshot(id) => snapshot_reply(alloc, look, id),
        Asked::Content(id) => content_reply(alloc, look, id),
        Asked::Resolve(swhid) => resolve_reply(alloc, look, swhid),
        Asked::Raw(core) => raw_reply(alloc, look, core),
        Asked::Cook(core) => cook_reply(alloc, look, core),
        Asked::Load(_) => refusal(alloc, 400, "swhid"),
    }
}

/// The reply to a request that is no load, over what is looked at. A path that is none of the API's is 404 `not found`, and
/// then another method than the path's is 405 `method`; a text that is no id, SWHID or URL is 400 `swhid`, and a body that
/// lists no names 400 `json`; what is not held is 404 `not held`, a path that leads nowhere 404 `no path`, and what is not
/// cooked 422 `uncarried`. Fails where memory runs out.
pub fn reply<L: Look>(alloc: Global, look: &L, request: &Request) -> Result<Reply, Memory>
    requires { AsksNoLoad request.now }
    ensures { IfOk result (IsAnswer (L.archive look.now) request.now) }
{
    let Some(asked) = read_path(request.path.as_slice()) else {
        return refusal(alloc, 404, "not found");
    };
    if !is_method_of(&asked, request.method.as_slice()) {
        return refusal(alloc, 405, "method");
    }
    reply_to(alloc, look, &asked, request.body.as_slice())
}
