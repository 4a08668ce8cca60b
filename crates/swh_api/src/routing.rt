// Which requests are loads.
ghost use Rattle.std.specs.Prelude.{ℕ, List, IfOk, IfSome, IfNone};
ghost use Rattle.swh_replies.specs.Shape.{Load, Spells};
ghost use Rattle.swh_api.specs.Route.{IsRoute};

use crate::wanted::Route;
use std::alloc::Global;
use swh_base::{Memory, Request};
use swh_replies::{Asked, read_path, url_of};

// The text in the place of the URL, where the path is one of a load.
fn load_text(path: &[u8]) -> Option<&[u8]>
    ensures some { IfSome result (λ text. Spells path.now (Load text.now)) }
    ensures none { IfNone result ((text : List ℕ) → Spells path.now (Load text) → ⊥) }
{
    let Some(asked) = read_path(path) else {
        return None;
    };
    match asked {
        Asked::Load(text) => Some(text),
        _ => None,
    }
}

/// What a request asks for: a load exactly where it is a `POST` of `load/fast/<url>/`, and the text there is a URL, percent
/// decoded (RFC 3986). Fails where memory runs out.
pub fn route(alloc: Global, request: &Request) -> Result<Route, Memory>
    ensures { IfOk result (IsRoute request.now) }
{
    let Some(text) = load_text(request.path.as_slice()) else {
        return Ok(Route::Read);
    };
    if request.method.as_slice() != b"POST".as_slice() {
        return Ok(Route::Read);
    }
    match url_of(alloc, text)? {
        Some(origin) => Ok(Route::Load { origin }),
        None => Ok(Route::Read),
    }
}
