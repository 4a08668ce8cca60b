//! URLs of origins.

use crate::limits::URL_LIMIT;
use crate::memory::Memory;
use std::alloc::{AllocError, Global};
use std::marker::Model;

/// Why there is no URL.
#[derive(Clone, Copy, Debug, PartialEq, Eq)]
pub enum UrlFault {
    /// The text names no origin: it is empty, longer than 2,048 bytes, or has a byte below a space or DEL.
    BadUrl,
    /// Memory ran out.
    Memory,
}

impl From<AllocError> for UrlFault {
    ghost use Rattle.std.specs.Prelude.{◌≡◌};
    ghost use Rattle.swh_base.specs.declared.url.UrlFault.TheVariants.{Memory as OutOfMemory};

    ghost from_gives = { λ _ e. e ≡ OutOfMemory };

    fn from(_e: AllocError) -> UrlFault {
        UrlFault::Memory
    }
}

/// Where an origin is. Contracts see its bytes; two are the same where their bytes are.
#[derive(Debug, Drop)]
pub struct Url {
    text: String,
}

impl Model for Url {
    ghost use Rattle.std.specs.Prelude.{ℕ, List, string_bytes, ◌≤◌, length};
    ghost use Rattle.swh_base.specs.Url.{IsUrl};

    ghost Value = { List ℕ };

    ghost view = { λ u. string_bytes u.text };

    ghost invariant = { λ u. IsUrl (string_bytes u.text) };
}

ghost use Rattle.std.specs.Prelude.{◌↔◌, IsTrue};
ghost use Rattle.swh_base.specs.Url.{IsUrl, is_url_byte};

/// Whether a text may name an origin: 1 to 2,048 bytes, none below a space and no DEL. That it is a URI (RFC 3986) is
/// not tested.
pub fn is_url(text: &[u8]) -> bool
    ensures { IsTrue result ↔ IsUrl text.now }
{
    !text.is_empty() && text.len() <= URL_LIMIT && text.iter().all(|c| *c >= 32 && *c != 127)
}

impl Url {
    ghost use Rattle.std.specs.Prelude.{◌≡◌, ◌↔◌, IfOk, OnOk};
    ghost use Rattle.swh_base.specs.Url.{IsUrl};
    ghost use Rattle.swh_base.specs.declared.url.UrlFault.TheVariants.{BadUrl};

    /// The URL of this text. Fails with `BadUrl` exactly where the text names no origin, and where memory runs out.
    pub fn new(alloc: Global, text: &str) -> Result<Url, UrlFault>
        ensures ok { IfOk result (λ url. url ≡ text.now) }
        ensures good { OnOk result (IsUrl text.now) }
        ensures bad { (result ≡ Err BadUrl) ↔ (IsUrl text.now → ⊥) }
    {
        if !is_url(text.as_bytes()) {
            return Err(UrlFault::BadUrl);
        }
        let text = String::from_str(alloc, text)?;
        Ok(Url { text })
    }

    /// The text, which names an origin.
    pub fn as_str(&self) -> &str
        ensures text { result.now ≡ self.now }
        ensures good { IsUrl self.now }
    {
        self.text.as_str()
    }

    /// An equal one with a text of its own. Fails where memory runs out.
    pub fn again(&self, alloc: Global) -> Result<Url, Memory>
        ensures { IfOk result (λ url. url ≡ self.now) }
    {
        let text = String::from_str(alloc, self.text.as_str())?;
        Ok(Url { text })
    }
}
