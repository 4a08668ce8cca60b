//! A piece of the store, read in one call of many bytes, from which small objects are taken.
ghost use Rattle.std.specs.Prelude.{
  ◌≡◌,
  ◌↔◌,
  ◌+◌,
  ◌≤◌,
  ◌<◌,
  ◌^◌,
  ℕ,
  List,
  [],
  IsTrue,
  IfOk,
  OnOk,
  OnErr,
  IfErr,
  length,
  take,
};
ghost use Rattle.swh_outside.specs.Faults.{HasCause};
ghost use Rattle.swh_segment.specs.Reads.{OnlyReads};
ghost use Rattle.swh_base.specs.Limits.{body_limit};
ghost use Rattle.swh_recovery.specs.Reading.{IfHarmed, UnlessDisk, window};
ghost use Rattle.swh_recovery.specs.Pieces.{IsPieceOf, Reaches};
ghost use Rattle.swh_recovery.specs.declared.fault.ReadFault.TheVariants.{DiskFailed};

use crate::fault::ReadFault;
use std::alloc::Global;
use swh_outside::{Disk, Failed};
use swh_segment::fill;

/// Bytes of a file from a place on, in bytes from 0.
#[derive(Drop)]
pub struct Piece {
    pub begin: u64,
    pub bytes: Vec<u8>,
}

// A piece has as many bytes at most.
const LONGEST: u64 = 262_144;

/// As many of a piece's bytes as are asked, from a place of the file on; fewer where the piece ends, and none where it
/// begins behind the place.
pub fn held(piece: &Piece, at: u64, count: u64) -> &[u8]
    requires { at + count < 2 ^ 64 }
    ensures short { length result.now ≤ count }
    ensures all { Reaches piece.now at count → length result.now ≡ count }
    ensures stand { (seen : List ℕ) → IsPieceOf seen piece.now → result.now ≡ window seen at (length result.now) }
{
    let bytes = piece.bytes.as_slice();
    if at < piece.begin || at - piece.begin >= bytes.len() as u64 {
        return &[];
    }
    let behind = &bytes[(at - piece.begin) as usize..];
    let count = count.min(behind.len() as u64);
    &behind[..count as usize]
}

// Whether the piece has as many bytes from a place on.
fn reaches(piece: &Piece, at: u64, count: u64) -> bool
    requires { at + count < 2 ^ 64 }
    ensures { IsTrue result ↔ Reaches piece.now at count }
{
    let length = piece.bytes.as_slice().len() as u64;
    piece.begin <= at && count <= length && at - piece.begin <= length - count
}

// Fills the buffer with what stands from a place on, of which the first bytes are given, up to the end of the file, and
// answers how many bytes there are.
fn fill_behind<D: Disk>(
    disk: &mut D,
    front: &[u8],
    at: u64,
    out: &mut [u8],
) -> Result<usize, Failed>
    requires inside { at + length out.old < 2 ^ 64 }
    requires front { length front.now ≤ length out.old }
    requires stands { D.tells → front.now ≡ window (D.file disk.old).seen at (length front.now) }
    ensures bound { IfOk result (λ n. n ≤ length out.new) }
    ensures filled { D.tells → IfOk result (λ n. take n out.new ≡ window (D.file disk.old).seen at (length out.old)) }
    ensures same { D.tells → D.file disk.new ≡ D.file disk.old }
    ensures cause { HasCause (D.faults disk.old) (D.faults disk.new) result }
{
    let (begin, rest) = out.split_at_mut(front.len());
    begin.copy_from_slice(front);
    let more = fill(disk, at + front.len() as u64, rest)?;
    Ok(front.len() + more)
}

/// As many bytes as are asked, from a place on, of which the first are given; fewer where the file ends. Room is taken
/// for as many as are asked.
pub fn read_behind<D: Disk>(
    alloc: Global,
    disk: &mut D,
    front: &[u8],
    at: u64,
    count: u64,
) -> Result<Vec<u8>, ReadFault>
    requires small { count ≤ body_limit }
    requires inside { at + count < 2 ^ 64 }
    requires front { length front.now ≤ count }
    requires stands { D.tells → front.now ≡ window (D.file disk.old).seen at (length front.now) }
    ensures bytes { D.tells → IfOk result (λ bytes. bytes.items ≡ window (D.file disk.old).seen at count) }
    ensures count { IfOk result (λ bytes. length bytes.items ≤ count) }
    ensures why { IfErr result (λ fault. IfHarmed fault (λ _. ⊥)) }
    ensures reads { OnlyReads D.tells UnlessDisk DiskFailed (D.file disk.old, D.faults disk.old)
        (D.file disk.new, D.faults disk.new) result }
{
    let mut bytes = vec![in alloc; 0u8; count as usize]?;
    let count = fill_behind(disk, front, at, &mut bytes)?;
    bytes.truncate(count);
    Ok(bytes)
}

/// Reads on, unless the piece reaches over as many bytes as are asked from a place on. Of the file so many are there up
/// to the run's end.
pub fn reach<D: Disk>(
    alloc: Global,
    disk: &mut D,
    piece: &mut Piece,
    at: u64,
    count: u64,
    have: u64,
) -> Result<(), ReadFault>
    requires inside { at + have < 2 ^ 63 }
    requires few { count ≤ 29 }
    requires there { count ≤ have }
    requires stands { D.tells → at + have ≤ length (D.file disk.old).seen }
    requires piece { D.tells → IsPieceOf (D.file disk.old).seen piece.old }
    ensures piece { D.tells → OnOk result (IsPieceOf (D.file disk.old).seen piece.new) }
    ensures reaches { D.tells → OnOk result (Reaches piece.new at count) }
    // A piece that reaches so far is used as it is: the disk is not read.
    ensures used { Reaches piece.old at count → (OnErr result ⊥) × (piece.new ≡ piece.old) × (disk.new ≡ disk.old) }
    ensures why { IfErr result (λ fault. IfHarmed fault (λ _. ⊥)) }
    ensures reads { OnlyReads D.tells UnlessDisk DiskFailed (D.file disk.old, D.faults disk.old)
        (D.file disk.new, D.faults disk.new) result }
{
    if reaches(piece, at, count) {
        return Ok(());
    }
    let bytes = read_behind(alloc, disk, &[], at, have.min(LONGEST))?;
    *piece = Piece { begin: at, bytes };
    Ok(())
}
