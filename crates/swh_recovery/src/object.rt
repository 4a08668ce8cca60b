//! The objects of a run as they stand in the store: each read, or its first harm.
ghost use Rattle.std.specs.Prelude.{
  ◌≡◌,
  ◌↔◌,
  ◌+◌,
  ◌≤◌,
  ◌<◌,
  ◌^◌,
  IsTrue,
  IfOk,
  OnOk,
  IfErr,
  length,
};
ghost use Rattle.swh_segment.specs.Reads.{OnlyReads};
ghost use Rattle.swh_base.specs.Name.{kind_number};
ghost use Rattle.swh_base.specs.Limits.{body_limit};
ghost use Rattle.swh_format.specs.declared.kinds.Choice.TheVariants as choice;
ghost use Rattle.swh_format.specs.Fields.{IsAmong};
ghost use Rattle.swh_format.specs.Kinds.{choices, head_fields};
ghost use Rattle.swh_recovery.specs.Fields.{IsCut, found_at, FieldsBreak};
ghost use Rattle.swh_recovery.specs.StoreHarm.{ObjectBreaks};
ghost use Rattle.swh_recovery.specs.Reading.{
  IfHarmed,
  UnlessDisk,
  IsNoDiskFault,
  window,
  IsHeadOf,
  BeginsWithHead,
  BodyHarms,
  IsEntryOf,
  BeginsWith,
  BodyHarmsAt,
};
ghost use Rattle.swh_recovery.specs.Pieces.{IsPieceOf};
ghost use Rattle.swh_object.specs.Object.{IsObject};
ghost use Rattle.swh_format.specs.StoredObject.{IsCodableEntry};
ghost use Rattle.swh_recovery.specs.declared.fault.ReadFault.TheVariants.{DiskFailed, Harmed};
ghost use Rattle.swh_recovery.specs.declared.harm.Harm.TheVariants.{Body};

use crate::fault::ReadFault;
use crate::field::{cut, take_byte, take_bytes, take_eight};
use crate::harm::{Found, Harm};
use crate::piece::{Piece, held, reach, read_behind};
use std::alloc::Global;
use swh_base::{BODY_LIMIT, Entry, Kind, Namer, Shared};
use swh_format::{Choice, entry_is_codable};
use swh_object::{Object, ObjectFault};
use swh_outside::Disk;

// What stands of an object before its body: a kind in a byte, the body's length in eight bytes, and the id in twenty.
const HEAD: usize = 29;

/// What stands of an object before its body.
#[derive(Clone, Copy)]
pub struct Head {
    pub kind: Kind,
    pub size: u64,
    pub id: [u8; 20],
}

// The kind of a number.
fn kind_of(number: u8) -> Kind
    requires { IsAmong number (choices choice.Object) }
    ensures { number ≡ kind_number result }
{
    match number {
        1 => Kind::Content,
        2 => Kind::Directory,
        3 => Kind::Revision,
        4 => Kind::Release,
        _ => Kind::Snapshot,
    }
}

// The head at the front of bytes that stand from a place on, and what is behind it.
fn take_head(bytes: &[u8], at: u64) -> Result<(Head, &[u8]), Found>
    requires { at + 29 < 2 ^ 64 }
    ensures ok { IfOk result (λ x. IsHeadOf bytes.now x.0 x.1.now) }
    ensures err { IfErr result (FieldsBreak head_fields bytes.now at) }
{
    let (number, rest) = take_byte(bytes, Choice::Object, at)?;
    let (size, rest) = take_eight(rest, at + 1)?;
    let Some((id, behind)) = rest.split_first_chunk::<20>() else {
        return Err(cut(rest.len(), 20, at + 9));
    };
    let kind = kind_of(number);
    Ok((
        Head {
            kind,
            size,
            id: *id,
        },
        behind,
    ))
}

fn is_same_id(a: &[u8; 20], b: &[u8; 20]) -> bool
    ensures { IsTrue result ↔ (a.now ≡ b.now) }
{
    *a == *b
}

fn refused(at: u64, place: u64) -> ReadFault
    requires { at + 29 < 2 ^ 64 }
    ensures { result ≡ Harmed (found_at (at + 29) (Body place)) }
{
    ReadFault::Harmed(Found {
        at: at + 29,
        harm: Harm::Body { at: place },
    })
}

// The object of a head and a body, which stands from a place on. The body is taken over without a copy.
fn object_of<N: Namer>(
    alloc: Global,
    namer: &N,
    head: &Head,
    body: Vec<u8>,
    at: u64,
) -> Result<Entry, ReadFault>
    requires { at + 29 < 2 ^ 64 }
    ensures ok { IfOk result (IsEntryOf N.id_of head.now body.items) }
    ensures harm { IfErr result (λ fault. IfHarmed fault (BodyHarms N.id_of head.now body.items at)) }
    ensures why { IfErr result IsNoDiskFault }
{
    let body = Shared::from_vec(body)?;
    let entry = match Object::of_shared(alloc, namer, head.kind, body) {
        Ok(object) => object.into_entry(),
        Err(ObjectFault::Memory) => return Err(ReadFault::Memory),
        Err(ObjectFault::TooLong { .. }) => return Err(refused(at, BODY_LIMIT)),
        Err(ObjectFault::BadBody { at: place }) => return Err(refused(at, place)),
    };
    if !is_same_id(&entry.name.id, &head.id) {
        return Err(ReadFault::Harmed(Found {
            at: at + 9,
            harm: Harm::Name {
                found: head.id,
                wanted: entry.name.id,
            },
        }));
    }
    Ok(entry)
}

// The head of the object that stands from a place on, where so many bytes stand up to the end of its run.
fn read_head<D: Disk>(
    alloc: Global,
    store: &mut D,
    piece: &mut Piece,
    at: u64,
    have: u64,
) -> Result<Head, ReadFault>
    requires inside { at + have < 2 ^ 63 }
    requires stands { D.tells → at + have ≤ length (D.file store.old).seen }
    requires piece { D.tells → IsPieceOf (D.file store.old).seen piece.old }
    ensures piece { D.tells → OnOk result (IsPieceOf (D.file store.old).seen piece.new) }
    ensures ok { D.tells → IfOk result (BeginsWithHead (window (D.file store.old).seen at have)) }
    ensures whole { OnOk result (29 ≤ have) }
    ensures harm { D.tells → IfErr result (λ fault.
        IfHarmed fault (FieldsBreak head_fields (window (D.file store.old).seen at have) at)) }
    ensures reads { OnlyReads D.tells UnlessDisk DiskFailed (D.file store.old, D.faults store.old)
        (D.file store.new, D.faults store.new) result }
{
    let count = have.min(HEAD as u64);
    reach(alloc, store, piece, at, count, have)?;
    let (head, _rest) = take_head(held(piece, at, count), at)?;
    Ok(head)
}

// The body of the object whose head was read from a place on, where so many bytes stand up to the end of its run. What
// of it stands in the piece is copied, and the rest is read into its place.
fn read_body<D: Disk>(
    alloc: Global,
    store: &mut D,
    piece: &Piece,
    at: u64,
    have: u64,
    size: u64,
) -> Result<Vec<u8>, ReadFault>
    requires inside { at + have < 2 ^ 63 }
    requires head { 29 ≤ have }
    requires stands { D.tells → at + have ≤ length (D.file store.old).seen }
    requires piece { D.tells → IsPieceOf (D.file store.old).seen piece.now }
    ensures ok { D.tells → IfOk result (λ body. body.items ≡ window (D.file store.old).seen (at + 29) size) }
    ensures whole { OnOk result ((29 + size ≤ have) × (size ≤ body_limit)) }
    ensures count { IfOk result (λ body. length body.items ≤ size) }
    ensures harm { IfErr result (λ fault. IfHarmed fault (BodyHarmsAt at have size)) }
    ensures reads { OnlyReads D.tells UnlessDisk DiskFailed (D.file store.old, D.faults store.old)
        (D.file store.new, D.faults store.new) result }
{
    let have = have - HEAD as u64;
    if size > have {
        return Err(ReadFault::Harmed(Found {
            at: at + HEAD as u64,
            harm: Harm::Short { have, need: size },
        }));
    }
    if size > BODY_LIMIT {
        return Err(refused(at, BODY_LIMIT));
    }
    let place = at + HEAD as u64;
    read_behind(alloc, store, held(piece, place, size), place, size)
}

/// The object that stands from a place of the store on, where so many bytes stand up to the end of its run; else its
/// first harm. A piece of the store serves as many objects as stand in it; a longer body is read into its place.
pub fn read_object<N: Namer, D: Disk>(
    alloc: Global,
    namer: &N,
    store: &mut D,
    piece: &mut Piece,
    at: u64,
    have: u64,
) -> Result<Entry, ReadFault>
    requires inside { at + have < 2 ^ 63 }
    requires stands { D.tells → at + have ≤ length (D.file store.old).seen }
    requires piece { D.tells → IsPieceOf (D.file store.old).seen piece.old }
    ensures piece { D.tells → OnOk result (IsPieceOf (D.file store.old).seen piece.new) }
    ensures ok { D.tells → IfOk result (BeginsWith N.id_of (window (D.file store.old).seen at have)) }
    ensures good { IfOk result (IsObject N.id_of) }
    ensures codable { IfOk result IsCodableEntry }
    ensures whole { IfOk result (λ e. 29 + length e.body ≤ have) }
    ensures harm { D.tells → IfErr result (λ fault.
        IfHarmed fault (ObjectBreaks N.id_of (window (D.file store.old).seen at have) at)) }
    ensures reads { OnlyReads D.tells UnlessDisk DiskFailed (D.file store.old, D.faults store.old)
        (D.file store.new, D.faults store.new) result }
{
    let head = read_head(alloc, store, piece, at, have)?;
    let body = read_body(alloc, store, piece, at, have, head.size)?;
    let entry = object_of(alloc, namer, &head, body, at)?;
    entry_is_codable(&entry);
    Ok(entry)
}
