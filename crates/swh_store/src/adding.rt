//! A batch of entries, of which some may be known, is added whole or not at all.
ghost use Rattle.std.specs.Prelude.{◌≡◌, ◌<◌, ◌^◌, ◌↔◌, ◌++◌, IsTrue, Some, IfOk, IfErr, OnOk, OnErr, length, take};
ghost use Rattle.std.specs.List.{AllByRecursion};
ghost use Rattle.swh_base.specs.declared.name.Name.{Name};
ghost use Rattle.swh_model.specs.Archive.{Bodies, body_of};
ghost use Rattle.swh_model.specs.Step.{HasItsChildren};
ghost use Rattle.swh_model.specs.Judge.{not_held, Collides};
ghost use Rattle.swh_store.specs.Entries.{bodies_in};
ghost use Rattle.swh_store.specs.Places.{IsIndexed};
ghost use Rattle.swh_store.specs.Adding.{IsStanding, Joins, IsTakenUp, IsEntryFault, IsStoreFault};

use crate::entries::{Held, push_again};
use crate::fault::StoreFault;
use swh_base::{Entry, Memory};

/// How an entry stands to what is held.
#[derive(Clone, Copy)]
pub enum Standing {
    /// Nothing is held under its name.
    New,
    /// Its body is held.
    Known,
    /// Another body is held under its name.
    Other,
}

fn is_same(a: &[u8], b: &[u8]) -> bool
    ensures { IsTrue result ↔ (a.now ≡ b.now) }
{
    a == b
}

/// The standing of an entry where this one is held under its name.
fn standing_beside(known: &Entry, entry: &Entry) -> Standing
    ensures { (bodies : Bodies) → body_of bodies entry.now.name ≡ Some known.now.body → IsStanding bodies entry.now result }
{
    if is_same(known.body.as_slice(), entry.body.as_slice()) {
        Standing::Known
    } else {
        Standing::Other
    }
}

/// The standing of an entry.
pub fn standing_of(held: &Held, entry: &Entry) -> Standing
    requires { IsIndexed held.now }
    ensures { IsStanding (bodies_in held.now.entries.items) entry.now result }
{
    match held.get(&entry.name) {
        None => Standing::New,
        Some(known) => standing_beside(known, entry),
    }
}

/// Adds an entry where nothing is held under its name, and answers how it stood to what was held.
pub fn join(held: &mut Held, entry: Entry) -> Result<Standing, Memory>
    requires indexed { IsIndexed held.old }
    requires good { HasItsChildren entry }
    ensures indexed { IsIndexed held.new }
    ensures ok { IfOk result (Joins held.old.entries.items held.new.entries.items entry) }
    ensures err { OnErr result (held.new.entries.items ≡ held.old.entries.items) }
{
    if let Some(known) = held.get(&entry.name) {
        return Ok(standing_beside(known, &entry));
    }
    held.push(entry)?;
    Ok(Standing::New)
}

fn add_one(held: &mut Held, entry: &Entry) -> Result<(), StoreFault>
    requires indexed { IsIndexed held.old }
    requires good { HasItsChildren entry.now }
    ensures indexed { IsIndexed held.new }
    ensures ok { OnOk result (IsTakenUp held.old.entries.items held.new.entries.items entry.now) }
    ensures err { OnErr result (held.new.entries.items ≡ held.old.entries.items) }
    ensures fault { IfErr result (IsEntryFault (bodies_in held.old.entries.items) entry.now) }
{
    match standing_of(held, entry) {
        Standing::Known => Ok(()),
        Standing::Other => Err(StoreFault::Collision { name: entry.name }),
        Standing::New => match push_again(held, entry) {
            Ok(()) => Ok(()),
            Err(_) => Err(StoreFault::Memory),
        },
    }
}

/// Adds entries one after another up to the first that is refused. What was held stays in front.
fn add_each(held: &mut Held, entries: &[Entry]) -> Result<(), StoreFault>
    requires indexed { IsIndexed held.old }
    requires good { AllByRecursion HasItsChildren entries.now }
    ensures indexed { IsIndexed held.new }
    ensures front { take (length held.old.entries.items) held.new.entries.items ≡ held.old.entries.items }
    ensures ok { OnOk result (held.new.entries.items
        ≡ held.old.entries.items ++ not_held (bodies_in held.old.entries.items) entries.now) }
    ensures distinct { OnOk result ((name : Name) → Collides (bodies_in held.old.entries.items) entries.now name → ⊥) }
    ensures fault { IfErr result (IsStoreFault (bodies_in held.old.entries.items) entries.now) }
{
    for entry in entries {
        if let Err(fault) = add_one(held, entry) {
            return Err(fault);
        }
    }
    Ok(())
}

/// Adds a batch, and answers how many entries were new. Where it is refused, those that were added are taken out again.
pub fn add_batch(held: &mut Held, entries: &[Entry]) -> Result<u32, StoreFault>
    requires indexed { IsIndexed held.old }
    requires good { AllByRecursion HasItsChildren entries.now }
    requires few { length entries.now < 2 ^ 32 }
    ensures indexed { IsIndexed held.new }
    ensures ok { OnOk result (held.new.entries.items
        ≡ held.old.entries.items ++ not_held (bodies_in held.old.entries.items) entries.now) }
    ensures count { IfOk result (λ new. new ≡ length (not_held (bodies_in held.old.entries.items) entries.now)) }
    ensures distinct { OnOk result ((name : Name) → Collides (bodies_in held.old.entries.items) entries.now name → ⊥) }
    ensures err { OnErr result (held.new.entries.items ≡ held.old.entries.items) }
    ensures fault { IfErr result (IsStoreFault (bodies_in held.old.entries.items) entries.now) }
{
    let before = held.entries.len();
    match add_each(held, entries) {
        Ok(()) => Ok((held.entries.len() - before) as u32),
        Err(fault) => {
            held.cut(before);
            Err(fault)
        }
    }
}
