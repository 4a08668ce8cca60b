// Origins as the ledger has them.
ghost use Rattle.std.specs.Prelude.{◌≡◌, IfOk, IfSome, IfNone};
ghost use Rattle.swh_format.specs.Origin.{IsOrigin};

use std::alloc::Global;
use swh_base::{Memory, Url, UrlFault, is_url};

/// The text of an origin.
pub fn origin_of(bytes: &[u8]) -> Option<&str>
    ensures some { IfSome result (λ text. IsOrigin bytes.now × (text.now ≡ bytes.now)) }
    ensures none { IfNone result (IsOrigin bytes.now → ⊥) }
{
    if !is_url(bytes) {
        return None;
    }
    str::from_utf8(bytes).ok()
}

/// The origin of these bytes; `Memory` where there is none.
pub fn read_origin(alloc: Global, bytes: &[u8]) -> Result<Option<Url>, Memory>
    ensures some { IfOk result (λ found. IfSome found (λ url. IsOrigin bytes.now × (url ≡ bytes.now))) }
    ensures none { IfOk result (λ found. IfNone found (IsOrigin bytes.now → ⊥)) }
{
    let Some(text) = origin_of(bytes) else {
        return Ok(None);
    };
    match Url::new(alloc, text) {
        Ok(url) => Ok(Some(url)),
        Err(UrlFault::BadUrl) => Ok(None),
        Err(UrlFault::Memory) => Err(Memory),
    }
}

/// What the type says of a URL: it is one, and it is text.
pub fn origin_is_codable(origin: &Url)
    ensures { IsOrigin origin.now }
{
    let _text = origin.as_str();
}
