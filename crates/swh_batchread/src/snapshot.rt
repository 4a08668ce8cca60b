//! The snapshot of refs and of the objects of a batch (SWHID v1.2, core identifiers, snapshots).
ghost use Rattle.std.specs.Prelude.{◌≡◌, ◌≤◌, ◌+◌, ◌^◌, ◌++◌, ◌∷◌, [], ℕ, List, IfOk, IfErr, OnOk, IsErrOf, MatchResult, length, map};
ghost use Rattle.std.specs.List.{AllByRecursion, filter_map};
ghost use Rattle.swh_base.specs.Name.{IsId};
ghost use Rattle.swh_base.specs.declared.kind.Kind.TheVariants.{Snapshot};
ghost use Rattle.swh_base.specs.Snapshot.{AreBranches, branch_text, snapshot_name, snapshot_text};
ghost use Rattle.swh_base.specs.declared.entry.Entry.{Entry};
ghost use Rattle.swh_outside.specs.Views.{sources};
ghost use Rattle.swh_object.specs.Object.{IsObject};
ghost use Rattle.swh_snpfmt.specs.Branches.{branch_views};
ghost use Rattle.swh_dedup.specs.Making.{made_from, object_of};
ghost use Rattle.swh_dedup.specs.Whole.{HasAllThatIsReached};
ghost use Rattle.swh_fastlex.specs.ReadOn.{IsReadOn};
ghost use Rattle.swh_batchread.specs.declared.fault.BatchFault.TheVariants.{ReadFault as NotRead};
ghost use Rattle.swh_batchread.specs.Failing.{Fails};
ghost use Rattle.swh_batchread.specs.Refs.{RefLine, branch_to, branch_with, AreRefLines, GivesSnapshot, EndsWithSnapshot, MeansRefs};
ghost use Rattle.swh_batchread.specs.RefsFault.{SnapshotBreaks, MayBreakSnapshot, MeansRefsLeft, ExplainsRefs};
ghost use Rattle.swh_batchread.specs.RefSteps.{line_at, kind_in, AreHeld, Ascend, Holds, IsWholeWith, KnowsObjects, knowing, PassesBody};

use crate::fault::BatchFault;
use crate::names::{Known, check_names, known_of};
use crate::refs::{Refs, read_lines};
use std::alloc::Global;
use std::collections::BTreeMap;
use swh_base::{BODY_LIMIT, Bytes, Kind, Memory, Name, Namer, Which};
use swh_dedup::{MakeFault, Objects, make_object, whole_id};
use swh_fastlex::Window;
use swh_object::Object;
use swh_outside::Source;
use swh_snpfmt::{Branch, Branches, Target, write_snp};

/// Branches, and how many bytes they have in a snapshot.
#[derive(Drop)]
struct Listing {
    branches: Vec<Branch>,
    length: u64,
}

/// How many bytes a branch to an object of this kind has beside its name: the kind's word, a space, a NUL, `20:` and the id.
fn frame_length(kind: Kind) -> u64
    ensures length { (r : RefLine) → IsId r.id → length (branch_text (branch_to r kind)) ≡ length r.name + result }
    ensures small { result ≤ 34 }
{
    match kind {
        Kind::Content => 32,
        Kind::Directory => 34,
        Kind::Revision => 33,
        Kind::Release => 32,
        Kind::Snapshot => 33,
    }
}

/// Adds the branch of a ref of this name and id, where the id leads to a kind, and tells how many bytes it has in a snapshot.
fn put_branch(
    list: &mut Vec<Branch>,
    first: &BTreeMap<[u8; 20], Kind>,
    name: Vec<u8>,
    id: [u8; 20],
) -> Result<u64, Memory>
    ensures list { OnOk result (branch_views list.new.items ≡ branch_views list.old.items
        ++ filter_map (branch_with (kind_in first.now.entries)) (line_at (name, id) ∷ [])) }
    ensures added { IfOk result (λ n. n ≡ length (snapshot_text
        (filter_map (branch_with (kind_in first.now.entries)) (line_at (name, id) ∷ [])))) }
{
    let Some(kind) = first.get(&id) else {
        return Ok(0);
    };
    let id = whole_id(&id);
    let length = name.as_slice().len() as u64 + frame_length(*kind);
    let target = Target::Object(Name { kind: *kind, id });
    list.push(Branch {
        name: Bytes::from_vec(name),
        target,
    })?;
    Ok(length)
}

/// The sum, or want of memory where it passes 64 bits: no machine holds a body of such a length.
fn plus(a: u64, b: u64) -> Result<u64, Memory>
    ensures { MatchResult result (λ sum. sum ≡ a + b) (λ _. 2 ^ 64 ≤ a + b) }
{
    a.checked_add(b).ok_or(Memory)
}

/// The branches of refs, in the order of their names.
fn branches_of(
    alloc: Global,
    first: &BTreeMap<[u8; 20], Kind>,
    refs: BTreeMap<Vec<u8>, [u8; 20]>,
) -> Result<Listing, Memory>
    ensures list { IfOk result (λ l. branch_views l.branches.items
        ≡ filter_map (branch_with (kind_in first.now.entries)) (map line_at refs.entries)) }
    ensures length { IfOk result (λ l. l.length ≡ length (snapshot_text (branch_views l.branches.items))) }
    ensures ascend { IfOk result (λ _. Ascend (map line_at refs.entries)) }
{
    let mut list = Vec::new(alloc);
    let mut length = 0u64;
    for (name, id) in refs {
        let added = put_branch(&mut list, first, name, id)?;
        length = plus(length, added)?;
    }
    Ok(Listing {
        branches: list,
        length,
    })
}

/// The snapshot of these branches. One above the limit of bodies is refused before any of it is written.
fn snapshot_of<N: Namer>(
    alloc: Global,
    namer: &N,
    listing: Listing,
) -> Result<Object<N>, BatchFault>
    requires good { AreBranches (branch_views listing.branches.items) }
    requires length { listing.length ≡ length (snapshot_text (branch_views listing.branches.items)) }
    ensures made { IfOk result (λ o. made_from o
        ≡ object_of Snapshot (snapshot_text (branch_views listing.branches.items))) }
    ensures object { IfOk result (IsObject N.id_of) }
    ensures err { (faults : ℕ) → IfErr result (Fails (Unit {0})
        (PassesBody (snapshot_text (branch_views listing.branches.items)))
        (PassesBody (snapshot_text (branch_views listing.branches.items))) faults faults) }
{
    let Listing { branches, length } = listing;
    if length > BODY_LIMIT {
        return Err(BatchFault::Limit {
            which: Which::Body,
            number: length,
        });
    }
    let body = write_snp(alloc, &Branches::of(branches))?;
    match make_object(alloc, namer, Kind::Snapshot, body) {
        Ok(object) => Ok(object),
        Err(MakeFault::TooLong { len: _ }) => unreachable!(),
        Err(MakeFault::Memory) => Err(BatchFault::Memory),
    }
}

/// The objects, and behind them their snapshot.
fn with_snapshot<N: Namer>(
    objects: Vec<Object<N>>,
    snapshot: Object<N>,
) -> Result<Objects<N>, Memory>
    ensures objects { IfOk result (λ all. all.objects.items ≡ objects.items ++ snapshot ∷ []) }
    ensures id { IfOk result (λ all. all.snapshot ≡ snapshot.name.id) }
{
    let mut objects = objects;
    let id = snapshot.name().id;
    objects.push(snapshot)?;
    Ok(Objects {
        objects,
        snapshot: id,
    })
}

/// The snapshot of refs and of the objects that are known.
fn end_refs<N: Namer>(
    alloc: Global,
    namer: &N,
    refs: Refs,
    known: &Known,
) -> Result<Object<N>, BatchFault>
    requires { AreHeld refs }
    ensures ok { (objects : List Entry) → KnowsObjects objects (knowing known.now) → (rs : List RefLine) → AreRefLines rs
        → Holds rs refs → IfOk result (λ o. GivesSnapshot rs objects (objects ++ o ∷ []) o.name.id) }
    ensures named { IfOk result (λ o. o.name ≡ snapshot_name o.name.id) }
    ensures whole { (objects : List Entry) → KnowsObjects objects (knowing known.now) → AllByRecursion (IsObject N.id_of) objects
        → IfOk result (λ o. IsWholeWith N.id_of (objects ++ o ∷ []) o.name.id) }
    ensures err { (objects : List Entry) → KnowsObjects objects (knowing known.now) → (rs : List RefLine) → AreRefLines rs
        → Holds rs refs → (faults : ℕ) → IfErr result (Fails (Unit {0}) (MayBreakSnapshot objects)
        (SnapshotBreaks rs objects) faults faults) }
    ensures quiet { IsErrOf result NotRead → ⊥ }
{
    let Refs {
        ids,
        by_name,
        counted: _,
    } = refs;
    check_names(known, ids.as_slice())?;
    let listing = branches_of(alloc, &known.names.first, by_name)?;
    snapshot_of(alloc, namer, listing)
}

/// The snapshot of the refs that are left of a source, for the objects that are known.
pub fn read_snapshot<N: Namer, S: Source>(
    alloc: Global,
    namer: &N,
    source: &mut S,
    known: &Known,
) -> Result<Object<N>, BatchFault>
    ensures ok { S.tells → (objects : List Entry) → KnowsObjects objects (knowing known.now)
        → IfOk result (λ o. MeansRefs (S.left source.old) objects (objects ++ o ∷ []) o.name.id) }
    ensures named { IfOk result (λ o. o.name ≡ snapshot_name o.name.id) }
    ensures whole { (objects : List Entry) → KnowsObjects objects (knowing known.now) → AllByRecursion (IsObject N.id_of) objects
        → IfOk result (λ o. IsWholeWith N.id_of (objects ++ o ∷ []) o.name.id) }
    ensures read { S.tells → IfOk result (λ _. S.left source.new ≡ []) }
    ensures err { (objects : List Entry) → KnowsObjects objects (knowing known.now)
        → IfErr result (ExplainsRefs (sources S.tells S.left S.faults S.path) source.old objects source.new) }

    ensures on { IsReadOn S.path S.faults source.old source.new NotRead result }
{
    let mut window = Window::new(alloc)?;
    let refs = read_lines(alloc, &mut window, source)?;
    end_refs(alloc, namer, refs, known)
}

/// The objects of a batch, and behind them the snapshot of the refs that are left of a source (git-show-ref(1), with
/// `--head` and `--dereference`): lines of an id in hexadecimal digits, a space and a name. A line whose name ends with
/// `^{}` is skipped. Each other one is a branch, `HEAD` too, to the first object of its id. The whole source is read, a
/// line at a time.
///
/// # Errors
///
/// `BadRefs` at the first line, from 1, that is none, or has a name that stands before; `Limit` where a line is above
/// 1,048,576 bytes with its LF, the source above 4,294,967,296, or the refs but for `HEAD` above 65,536. Where all lines
/// are good, `NoObject` with the first id that is named and that no object has, or none of the kind that it is named
/// with: by the refs in their order, and then by the objects in theirs; and then `Limit` where the snapshot is above
/// 67,108,864 bytes, of which none is written. `ReadFault` where the source fails, and `Memory`. The objects are spent by
/// every answer, and what is left of the source after a refusal is not promised.
pub fn read_refs<N: Namer, S: Source>(
    alloc: Global,
    namer: &N,
    source: &mut S,
    objects: Vec<Object<N>>,
) -> Result<Objects<N>, BatchFault>
    // What is left of the source gives this with these objects.
    ensures ok { IfOk result (MeansRefsLeft (sources S.tells S.left S.faults S.path) source.old objects.items) }
    // Behind the objects there is their snapshot, also where the source does not tell what is left.
    ensures kept { IfOk result (λ given. EndsWithSnapshot objects.items given.objects.items given.snapshot) }
    // All that is named is there.
    ensures whole { IfOk result (HasAllThatIsReached N.id_of) }
    // All of it was read.
    ensures read { S.tells → IfOk result (λ _. S.left source.new ≡ []) }
    // Refs that are refused break so, or the source failed.
    ensures err { IfErr result (ExplainsRefs (sources S.tells S.left S.faults S.path) source.old objects.items source.new) }

    ensures on { IsReadOn S.path S.faults source.old source.new NotRead result }
{
    let known = known_of(alloc, objects.as_slice())?;
    let snapshot = read_snapshot(alloc, namer, source, &known)?;
    Ok(with_snapshot(objects, snapshot)?)
}
