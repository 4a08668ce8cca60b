//! The bodies of a run that was read again, against those of its objects.
ghost use Rattle.std.specs.Prelude.{◌≡◌, ◌≤◌, ◌↔◌, length, take, drop, IsTrue, IfOk, IfErr, OnOk, OnErr};
ghost use Rattle.std.specs.List.{AllByRecursion};
ghost use Rattle.swh_model.specs.Archive.{Bodies};
ghost use Rattle.swh_model.specs.Limits.{run_length, stored_length};
ghost use Rattle.swh_format.specs.StoredObject.{coded_run};
ghost use Rattle.swh_format.specs.EventRecord.{packed_objects};
ghost use Rattle.swh_check.specs.Counts.{bodies_by};
ghost use Rattle.swh_check.specs.Bodies.{HaveTheirIds, HasItsIds, IsHeldNamed, IsHeldKind, IsBodyFault};

use crate::fault::CheckFault;
use swh_base::{Entry, Namer};
use swh_keeper::head_length;
use swh_model::EventKind;

fn is_same(a: &[u8], b: &[u8]) -> bool
    ensures { IsTrue result ↔ (a.now ≡ b.now) }
{
    a == b
}

/// The first bytes, as many as are asked or as there are, and the rest.
fn cut(bytes: &[u8], count: usize) -> (&[u8], &[u8])
    ensures front { result.0.now ≡ take count bytes.now }
    ensures back { result.1.now ≡ drop count bytes.now }
{
    bytes.split_at(count.min(bytes.len()))
}

/// Compares bytes that stand for an object's body with it, and where they differ their id with that of its name. The
/// body in memory has this id, so that bytes which are equal need not be hashed.
fn check_body<N: Namer>(namer: &N, entry: &Entry, body: &[u8]) -> Result<(), CheckFault>
    requires long { length body.now ≤ length entry.now.body }
    requires named { entry.now.name.id ≡ N.id_of entry.now.name.kind entry.now.body }
    ensures ok { OnOk result (N.id_of entry.now.name.kind body.now ≡ entry.now.name.id) }
    ensures told { entry.now.name.id ≡ N.id_of entry.now.name.kind body.now → OnErr result ⊥ }
    ensures damaged { (bodies : Bodies) → IsHeldNamed N.id_of bodies entry.now
        → IfErr result (IsBodyFault N.id_of bodies) }
{
    if is_same(body, entry.body.as_slice()) {
        return Ok(());
    }
    let name = entry.name;
    let found = namer.id(name.kind, body);
    if found == name.id {
        return Ok(());
    }
    Err(CheckFault::Damaged { name, found })
}

/// Compares the bodies in a run with those of the objects that stand there, up to the first of another id, and counts
/// them. Of a run that is cut the bodies have the bytes that are there.
fn check_run<N: Namer>(namer: &N, run: &[u8], entries: &[Entry]) -> Result<u64, CheckFault>
    requires long { length run.now ≤ run_length entries.now }
    requires held { (bodies : Bodies) × AllByRecursion (IsHeldNamed N.id_of bodies) entries.now }
    ensures ok { OnOk result (HaveTheirIds N.id_of run.now entries.now) }
    ensures count { IfOk result (λ count. count ≡ length entries.now) }
    ensures told { (bodies : Bodies) → AllByRecursion (IsHeldNamed N.id_of bodies) entries.now
        → run.now ≡ coded_run entries.now → OnErr result ⊥ }
    ensures damaged { (bodies : Bodies) → AllByRecursion (IsHeldNamed N.id_of bodies) entries.now
        → IfErr result (IsBodyFault N.id_of bodies) }
{
    let mut rest = run;
    let mut count = 0;
    for entry in entries {
        let (_head, behind) = cut(rest, head_length(entry.name.id));
        let (body, more) = cut(behind, entry.body.as_slice().len());
        if let Err(fault) = check_body(namer, entry, body) {
            return Err(fault);
        }
        rest = more;
        count += 1;
    }
    Ok(count)
}

/// Compares the bodies in the run of an event, and counts them.
pub fn check_objects<N: Namer>(namer: &N, run: &[u8], event: &EventKind) -> Result<u64, CheckFault>
    requires long { length run.now ≤ stored_length event.now }
    requires held { (bodies : Bodies) × IsHeldKind N.id_of bodies event.now }
    ensures ok { OnOk result (HasItsIds N.id_of run.now event.now) }
    ensures count { IfOk result (λ count. count ≡ bodies_by event.now) }
    ensures told { (bodies : Bodies) → IsHeldKind N.id_of bodies event.now → run.now ≡ packed_objects event.now
        → OnErr result ⊥ }
    ensures damaged { (bodies : Bodies) → IsHeldKind N.id_of bodies event.now
        → IfErr result (IsBodyFault N.id_of bodies) }
{
    check_run(namer, run, event.entries())
}
