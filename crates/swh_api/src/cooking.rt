// Replies with what a name is cooked to.
ghost use Rattle.std.specs.Prelude.{◌≡◌, ◌≢◌, IfOk, IfErr, IfSome, IfNone};
ghost use Rattle.swh_base.specs.declared.kind.Kind.TheVariants.{Content as ContentKind, Directory as DirectoryKind};
ghost use Rattle.swh_api.specs.Cook.{
  Cooked,
  IsCookAnswer,
  RefusesCook,
  TellsCook,
  IsCookFaultReply,
  SpellsCooked,
  NoCooked,
  IsCookReply,
};

use crate::collected::Collected;
use std::alloc::Global;
use swh_base::{Kind, Memory, Name, Reply, Shared};
use swh_carried::{CookFault, why_word};
use swh_fastcook::{make_ready, write_stream};
use swh_model::Look;
use swh_replies::{core_of, not_held, refusal, uncarried};

// The reply that tells why a name has no text. A text in memory is broken off for want of memory alone.
fn cook_fault_reply(alloc: Global, fault: CookFault) -> Result<Reply, Memory>
    ensures { IfOk result (IsCookFaultReply fault) }
{
    match fault {
        CookFault::NotHeld { name } => not_held(alloc, &name),
        CookFault::Uncarried { name, why } => uncarried(alloc, &name, why_word(why)),
        CookFault::WriteFault | CookFault::Memory => Err(Memory),
    }
}

// The text that a name is cooked to. All is known of it before its first byte is written, and it is written once.
fn cooked_text<L: Look>(alloc: Global, look: &L, name: Name) -> Result<Vec<u8>, CookFault>
    requires { name.kind ≢ ContentKind }
    ensures ok { IfOk result (λ text. IsCookAnswer (L.archive look.now).bodies name (Cooked text.items)) }
    ensures err { IfErr result (RefusesCook (L.archive look.now).bodies name) }
{
    look.is_graph();
    look.is_of_bytes();
    let ready = match make_ready(alloc, look, name) {
        Ok(ready) => ready,
        Err(fault) => return Err(fault),
    };
    let mut collected = Collected::new(alloc);
    match write_stream(alloc, look, &ready.marks, name, &mut collected) {
        Ok(()) => Ok(collected.into_bytes()),
        Err(_) => Err(CookFault::Memory),
    }
}

// The reply with the bytes of a content. They are not copied.
fn content_told<L: Look>(alloc: Global, look: &L, name: Name) -> Result<Reply, Memory>
    requires { name.kind ≡ ContentKind }
    ensures { IfOk result (TellsCook (L.archive look.now).bodies name) }
{
    look.is_graph();
    look.is_of_bytes();
    let Some(held) = look.body(&name) else {
        return not_held(alloc, &name);
    };
    let body = held.again()?;
    Ok(Reply {
        status: 200,
        json: false,
        body,
    })
}

// The reply with the stream of all that is reached from a name.
fn stream_told<L: Look>(alloc: Global, look: &L, name: Name) -> Result<Reply, Memory>
    requires { name.kind ≢ ContentKind }
    ensures { IfOk result (TellsCook (L.archive look.now).bodies name) }
{
    let text = match cooked_text(alloc, look, name) {
        Ok(text) => text,
        Err(fault) => return cook_fault_reply(alloc, fault),
    };
    let body = Shared::from_vec(text)?;
    Ok(Reply {
        status: 200,
        json: false,
        body,
    })
}

fn told<L: Look>(alloc: Global, look: &L, name: Name) -> Result<Reply, Memory>
    requires { name.kind ≢ DirectoryKind }
    ensures { IfOk result (TellsCook (L.archive look.now).bodies name) }
{
    match name.kind {
        Kind::Content => content_told(alloc, look, name),
        _ => stream_told(alloc, look, name),
    }
}

// The name whose core identifier a text is, where it is no directory's.
fn cooked_name(text: &[u8]) -> Option<Name>
    ensures some { IfSome result (SpellsCooked text.now) }
    ensures none { IfNone result (NoCooked text.now) }
{
    let Some(name) = core_of(text) else {
        return None;
    };
    match name.kind {
        Kind::Directory => None,
        _ => Some(name),
    }
}

/// The reply with what the name is cooked to whose core identifier a text is: a content as its bytes, which are not copied,
/// and a revision, a release or a snapshot as a stream (git-fast-import(1)). 400 where the text is no core identifier, or a
/// directory's; 404 with the first name that a walk enters and that is not held; 422 with the first that a stream cannot
/// carry, and why. Fails where memory runs out.
pub fn cook_reply<L: Look>(alloc: Global, look: &L, text: &[u8]) -> Result<Reply, Memory>
    ensures { IfOk result (IsCookReply (L.archive look.now).bodies text.now) }
{
    let Some(name) = cooked_name(text) else {
        return refusal(alloc, 400, "swhid");
    };
    told(alloc, look, name)
}
