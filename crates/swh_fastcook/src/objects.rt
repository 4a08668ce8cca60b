//! The objects of a stream, in their order.
ghost use Rattle.std.specs.Prelude.{◌≡◌, Some, Contains};
ghost use Rattle.swh_base.specs.declared.kind.Kind.TheVariants.{Content as ContentKind, Revision as RevisionKind, Release as ReleaseKind};
ghost use Rattle.swh_base.specs.declared.name.Name.{Name as Named};
ghost use Rattle.swh_model.specs.Archive.{body_of};
ghost use Rattle.swh_postorder.specs.Cycle.{IsSomePostorder, ArePreceded};
ghost use Rattle.swh_fastcarried.specs.Rules.{IsOddObject};
ghost use Rattle.swh_fastwrite.specs.Held.{WroteSome, kept};
ghost use Rattle.swh_fastcook.specs.Cause.{HasWriteCause};
ghost use Rattle.swh_fastcook.specs.Stream.{IsBlob, IsCommit, IsTag, IsObjectText, AreObjectTexts};

use crate::commits::{write_blob, write_commit, write_tag};
use std::alloc::Global;
use swh_base::{Kind, Name, Shared};
use swh_carried::CookFault;
use swh_fastwrite::Taker;
use swh_marks::Marks;
use swh_model::Look;
use swh_revfmt::{plain_rel, plain_rev};

/// The body of a name in the order.
pub fn body_at<'a, L: Look>(look: &'a L, marks: &Marks, name: &Name) -> &'a Shared<u8>
    requires order { IsSomePostorder (L.children_of look.now) marks.now }
    requires there { Contains marks.now name.now }
    ensures { body_of (L.archive look.now).bodies name.now ≡ Some result.now }
{
    look.is_graph();
    match look.body(name) {
        Some(body) => body,
        None => unreachable!(),
    }
}

/// Writes a content.
fn write_content<L: Look, T: Taker>(
    look: &L,
    marks: &Marks,
    name: Name,
    taker: &mut T,
    held: &mut Vec<u8>,
) -> Result<(), CookFault>
    requires order { IsSomePostorder (L.children_of look.now) marks.now }
    requires there { Contains marks.now name }
    requires kind { name.kind ≡ ContentKind }
    ensures bytes { WroteSome T.takes T.takes_front (kept taker.old held.old.items)
        (IsBlob (L.archive look.now).bodies marks.now name) (kept taker.new held.new.items) result }
    ensures cause { HasWriteCause (T.failures taker.old) (T.failures taker.new) result }
{
    let body = body_at(look, marks, &name);
    write_blob(taker, held, marks.get(&name), body.as_slice())
}

/// Writes a revision, which is plain.
fn write_revision<L: Look, T: Taker>(
    alloc: Global,
    look: &L,
    marks: &Marks,
    name: Name,
    taker: &mut T,
    held: &mut Vec<u8>,
) -> Result<(), CookFault>
    requires order { IsSomePostorder (L.children_of look.now) marks.now }
    requires preceded { ArePreceded (L.children_of look.now) marks.now }
    requires there { Contains marks.now name }
    requires kind { name.kind ≡ RevisionKind }
    requires plain { IsOddObject (L.archive look.now).bodies name → ⊥ }
    ensures bytes { WroteSome T.takes T.takes_front (kept taker.old held.old.items)
        (IsCommit (L.archive look.now).bodies marks.now name) (kept taker.new held.new.items) result }
    ensures cause { HasWriteCause (T.failures taker.old) (T.failures taker.new) result }
{
    look.is_graph();
    let body = body_at(look, marks, &name);
    let plain = plain_rev(alloc, body.as_slice())?;
    match plain {
        Some(plain) => write_commit(alloc, look, marks, name, &plain, taker, held),
        None => unreachable!(),
    }
}

/// Writes a release, which is plain.
fn write_release<L: Look, T: Taker>(
    alloc: Global,
    look: &L,
    marks: &Marks,
    name: Name,
    taker: &mut T,
    held: &mut Vec<u8>,
) -> Result<(), CookFault>
    requires order { IsSomePostorder (L.children_of look.now) marks.now }
    requires preceded { ArePreceded (L.children_of look.now) marks.now }
    requires there { Contains marks.now name }
    requires kind { name.kind ≡ ReleaseKind }
    requires plain { IsOddObject (L.archive look.now).bodies name → ⊥ }
    ensures bytes { WroteSome T.takes T.takes_front (kept taker.old held.old.items)
        (IsTag (L.archive look.now).bodies marks.now name) (kept taker.new held.new.items) result }
    ensures cause { HasWriteCause (T.failures taker.old) (T.failures taker.new) result }
{
    look.is_graph();
    let body = body_at(look, marks, &name);
    let plain = plain_rel(alloc, body.as_slice())?;
    match plain {
        Some(plain) => write_tag(taker, held, marks, name, &plain),
        None => unreachable!(),
    }
}

/// Writes what stands for an object.
fn write_object<L: Look, T: Taker>(
    alloc: Global,
    look: &L,
    marks: &Marks,
    name: Name,
    taker: &mut T,
    held: &mut Vec<u8>,
) -> Result<(), CookFault>
    requires order { IsSomePostorder (L.children_of look.now) marks.now }
    requires preceded { ArePreceded (L.children_of look.now) marks.now }
    requires there { Contains marks.now name }
    requires plain { IsOddObject (L.archive look.now).bodies name → ⊥ }
    ensures bytes { WroteSome T.takes T.takes_front (kept taker.old held.old.items)
        (IsObjectText (L.archive look.now).bodies marks.now name) (kept taker.new held.new.items) result }
    ensures cause { HasWriteCause (T.failures taker.old) (T.failures taker.new) result }
{
    match name.kind {
        Kind::Content => write_content(look, marks, name, taker, held),
        Kind::Revision => write_revision(alloc, look, marks, name, taker, held),
        Kind::Release => write_release(alloc, look, marks, name, taker, held),
        Kind::Directory => Ok(()),
        Kind::Snapshot => Ok(()),
    }
}

/// Writes what stands for some of the objects, in their order.
fn write_each<L: Look, T: Taker>(
    alloc: Global,
    look: &L,
    marks: &Marks,
    names: &[Name],
    taker: &mut T,
    held: &mut Vec<u8>,
) -> Result<(), CookFault>
    requires order { IsSomePostorder (L.children_of look.now) marks.now }
    requires preceded { ArePreceded (L.children_of look.now) marks.now }
    requires there { (n : Named) → Contains names.now n → Contains marks.now n }
    requires plain { (n : Named) → Contains names.now n → IsOddObject (L.archive look.now).bodies n → ⊥ }
    ensures bytes { WroteSome T.takes T.takes_front (kept taker.old held.old.items)
        (AreObjectTexts (L.archive look.now).bodies marks.now names.now) (kept taker.new held.new.items) result }
    ensures cause { HasWriteCause (T.failures taker.old) (T.failures taker.new) result }
{
    for name in names {
        write_object(alloc, look, marks, *name, taker, held)?;
    }
    Ok(())
}

/// Writes what stands for the objects, in their order.
pub fn write_objects<L: Look, T: Taker>(
    alloc: Global,
    look: &L,
    marks: &Marks,
    taker: &mut T,
    held: &mut Vec<u8>,
) -> Result<(), CookFault>
    requires order { IsSomePostorder (L.children_of look.now) marks.now }
    requires preceded { ArePreceded (L.children_of look.now) marks.now }
    requires plain { (n : Named) → Contains marks.now n → IsOddObject (L.archive look.now).bodies n → ⊥ }
    ensures bytes { WroteSome T.takes T.takes_front (kept taker.old held.old.items)
        (AreObjectTexts (L.archive look.now).bodies marks.now marks.now) (kept taker.new held.new.items) result }
    ensures cause { HasWriteCause (T.failures taker.old) (T.failures taker.new) result }
{
    write_each(alloc, look, marks, marks.order(), taker, held)
}
