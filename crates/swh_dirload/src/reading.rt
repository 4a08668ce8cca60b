//! The files of a folder, read in the order of its walk.
ghost use Rattle.std.specs.Prelude.{◌≡◌, ◌≢◌, ◌≤◌, ◌+◌, ℕ, List, [], IfOk, IfErr, OnOk, IsErrOf, length};
ghost use Rattle.swh_base.specs.declared.entry.Entry.{Entry};
ghost use Rattle.swh_base.specs.declared.kind.Kind.{Kind as AKind};
ghost use Rattle.swh_base.specs.Limits.{body_limit};
ghost use Rattle.std.specs.List.{AllByRecursion};
ghost use Rattle.swh_dedup.specs.Making.{made, names_of_made};
ghost use Rattle.swh_dirmade.specs.Giving.{Keeps};
ghost use Rattle.swh_dirmade.specs.Making.{IsHeld};
ghost use Rattle.swh_outside.specs.Faults.{Rose};
ghost use Rattle.swh_fastlex.specs.ReadOn.{IsQuietBut};
ghost use Rattle.swh_outside.specs.declared.folder.What.TheVariants.{File as AFile, Other as NeitherKind};
ghost use Rattle.swh_dirload.specs.declared.fault.DirFault.TheVariants.{ReadFault as NotRead};
ghost use Rattle.swh_dirload.specs.May.{MayRefusePlain};
ghost use Rattle.swh_dirload.specs.Found.{items_of, ArePlaced};
ghost use Rattle.swh_dirload.specs.Walk.{AllFit};
ghost use Rattle.swh_dirload.specs.Reading.{HasFile, IsRead, ReadsAll, ExplainsRead, ExplainsReading};

use crate::content::give_content;
use crate::fault::DirFault;
use crate::file::read_file;
use crate::found::Found;
use crate::limits::FILES_LIMIT;
use crate::path::path_of;
use std::alloc::Global;
use swh_base::{Kind, Namer, Which};
use swh_dirmade::{Given, Member};
use swh_outside::{Folder, What};

/// The bytes of a file, where so many bytes were read before, and how many bytes are read now.
fn read_bytes<F: Folder>(
    alloc: Global,
    folder: &mut F,
    path: &str,
    total: u64,
) -> Result<(Vec<u8>, u64), DirFault>
    requires { total ≤ FILES_LIMIT }
    ensures has { F.tells → IfOk result (λ x. HasFile (F.holds folder.old) path.now x.0.items) }
    ensures short { IfOk result (λ x. length x.0.items ≤ body_limit) }
    ensures count { IfOk result (λ x. x.1 ≡ total + length x.0.items) }
    ensures within { IfOk result (λ x. x.1 ≤ FILES_LIMIT) }
    ensures may { IfErr result MayRefusePlain }
    ensures err { F.tells → (id : AKind → List ℕ → List ℕ)
        → IfErr result (ExplainsRead id (F.holds folder.old) total path.now AFile) }

    ensures same { F.tells → F.holds folder.new ≡ F.holds folder.old }
    ensures same_path { F.opened_at folder.new ≡ F.opened_at folder.old }
    ensures later { F.faults folder.old ≤ F.faults folder.new }
    ensures quiet { IsQuietBut (F.faults folder.old) (F.faults folder.new) NotRead result }
    ensures cause { IsErrOf result NotRead → Rose (F.faults folder.old) (F.faults folder.new) }
{
    let bytes = read_file(alloc, folder, path)?;
    let count = bytes.len() as u64;
    if count > FILES_LIMIT - total {
        return Err(DirFault::Limit {
            which: Which::Stream,
            number: FILES_LIMIT + 1,
        });
    }
    Ok((bytes, total + count))
}

/// Reads a file and makes its content, where so many bytes were read before; what stands there, and how many bytes are
/// read now.
fn read_content<N: Namer, F: Folder>(
    alloc: Global,
    namer: &N,
    folder: &mut F,
    path: &str,
    given: &mut Given<N>,
    total: u64,
) -> Result<(Member, u64), DirFault>
    requires { total ≤ FILES_LIMIT }
    ensures read { F.tells → IfOk result (λ x. (count : ℕ) × (x.1 ≡ total + count)
        × IsRead N.id_of (F.holds folder.old) path.now AFile count given.old x.0 given.new) }
    ensures within { IfOk result (λ x. x.1 ≤ FILES_LIMIT) }
    ensures held { IfOk result (λ x. IsHeld (names_of_made N.id_of (made given.new)) x.0) }
    ensures kept { OnOk result (Keeps given.old given.new) }
    ensures may { IfErr result MayRefusePlain }
    ensures err { F.tells → IfErr result (ExplainsRead N.id_of (F.holds folder.old) total path.now AFile) }

    ensures same { F.tells → F.holds folder.new ≡ F.holds folder.old }
    ensures same_path { F.opened_at folder.new ≡ F.opened_at folder.old }
    ensures later { F.faults folder.old ≤ F.faults folder.new }
    ensures quiet { IsQuietBut (F.faults folder.old) (F.faults folder.new) NotRead result }
    ensures cause { IsErrOf result NotRead → Rose (F.faults folder.old) (F.faults folder.new) }
{
    let (bytes, now) = read_bytes(alloc, folder, path, total)?;
    let id = give_content(alloc, namer, given, bytes)?;
    let mode = 100_644;
    Ok((Member::File { mode, id }, now))
}

/// Reads an item, where so many bytes were read before; what stands there, and how many bytes are read now.
fn read_item<N: Namer, F: Folder>(
    alloc: Global,
    namer: &N,
    folder: &mut F,
    path: &str,
    what: What,
    given: &mut Given<N>,
    total: u64,
) -> Result<(Member, u64), DirFault>
    requires kind { what ≢ NeitherKind }
    requires within { total ≤ FILES_LIMIT }
    ensures read { F.tells → IfOk result (λ x. (count : ℕ) × (x.1 ≡ total + count)
        × IsRead N.id_of (F.holds folder.old) path.now what count given.old x.0 given.new) }
    ensures within { IfOk result (λ x. x.1 ≤ FILES_LIMIT) }
    ensures held { IfOk result (λ x. IsHeld (names_of_made N.id_of (made given.new)) x.0) }
    ensures kept { OnOk result (Keeps given.old given.new) }
    ensures may { IfErr result MayRefusePlain }
    ensures err { F.tells → IfErr result (ExplainsRead N.id_of (F.holds folder.old) total path.now what) }

    ensures same { F.tells → F.holds folder.new ≡ F.holds folder.old }
    ensures same_path { F.opened_at folder.new ≡ F.opened_at folder.old }
    ensures later { F.faults folder.old ≤ F.faults folder.new }
    ensures quiet { IsQuietBut (F.faults folder.old) (F.faults folder.new) NotRead result }
    ensures cause { IsErrOf result NotRead → Rose (F.faults folder.old) (F.faults folder.new) }
{
    match what {
        What::File => read_content(alloc, namer, folder, path, given, total),
        What::Folder => Ok((Member::Folder, total)),
        What::Other => unreachable!(),
    }
}

/// Reads the files of a table, in its order and each once, and makes their contents; what stands at each place.
///
/// # Errors
///
/// The first file that is longer than a body may be, or with which the files together are longer than an input may be;
/// the folder or a file fails, or memory runs out.
pub fn read_files<N: Namer, F: Folder>(
    alloc: Global,
    namer: &N,
    folder: &mut F,
    found: &[Found],
    given: &mut Given<N>,
) -> Result<Vec<Member>, DirFault>
    requires placed { ArePlaced 0 found.now }
    requires fit { AllFit (items_of found.now) }
    ensures read { F.tells → IfOk result (λ places. (total : ℕ)
        × ReadsAll N.id_of (F.holds folder.old) 0 given.old (items_of found.now) places.items total given.new) }
    // Also of a folder that does not tell what it holds.
    ensures count { IfOk result (λ places. length places.items ≡ length found.now) }
    ensures held { IfOk result (λ places. AllByRecursion (IsHeld (names_of_made N.id_of (made given.new))) places.items) }
    ensures may { IfErr result MayRefusePlain }
    ensures err { F.tells → IfErr result (ExplainsReading N.id_of (F.holds folder.old) given.old (items_of found.now)) }

    ensures same { F.tells → F.holds folder.new ≡ F.holds folder.old }
    ensures same_path { F.opened_at folder.new ≡ F.opened_at folder.old }
    ensures later { F.faults folder.old ≤ F.faults folder.new }
    ensures quiet { IsQuietBut (F.faults folder.old) (F.faults folder.new) NotRead result }
    ensures cause { IsErrOf result NotRead → Rose (F.faults folder.old) (F.faults folder.new) }
{
    let mut places = Vec::new(alloc);
    let mut total = 0;
    'files: for number in 0..found.len() {
        let item = &found[number];
        let what = item.what;
        let path = path_of(alloc, &found[..number], item)?;
        let (place, now) = read_item(alloc, namer, folder, path.as_str(), what, given, total)?;
        places.push(place)?;
        total = now;
    }
    Ok(places)
}

/// Reads a file and names its content, where so many bytes were read before; what stands there, and how many bytes are
/// read now. The bytes are let go.
fn name_content<N: Namer, F: Folder>(
    alloc: Global,
    namer: &N,
    folder: &mut F,
    path: &str,
    total: u64,
) -> Result<(Member, u64), DirFault>
    requires { total ≤ FILES_LIMIT }
    ensures read { F.tells → (old : List Entry) → IfOk result (λ x. (new : List Entry) × (count : ℕ) × (x.1 ≡ total + count)
        × IsRead N.id_of (F.holds folder.old) path.now AFile count old x.0 new) }
    ensures within { IfOk result (λ x. x.1 ≤ FILES_LIMIT) }
    ensures held { (old : List Entry) → IfOk result (λ x. (new : List Entry) × Keeps old new
        × IsHeld (names_of_made N.id_of (made new)) x.0) }
    ensures may { IfErr result MayRefusePlain }
    ensures err { F.tells → IfErr result (ExplainsRead N.id_of (F.holds folder.old) total path.now AFile) }

    ensures same { F.tells → F.holds folder.new ≡ F.holds folder.old }
    ensures same_path { F.opened_at folder.new ≡ F.opened_at folder.old }
    ensures later { F.faults folder.old ≤ F.faults folder.new }
    ensures quiet { IsQuietBut (F.faults folder.old) (F.faults folder.new) NotRead result }
    ensures cause { IsErrOf result NotRead → Rose (F.faults folder.old) (F.faults folder.new) }
{
    let (bytes, now) = read_bytes(alloc, folder, path, total)?;
    let id = namer.id(Kind::Content, bytes.as_slice());
    let mode = 100_644;
    Ok((Member::File { mode, id }, now))
}

/// Reads an item and names its content, where so many bytes were read before; what stands there, and how many bytes are
/// read now.
fn name_item<N: Namer, F: Folder>(
    alloc: Global,
    namer: &N,
    folder: &mut F,
    path: &str,
    what: What,
    total: u64,
) -> Result<(Member, u64), DirFault>
    requires kind { what ≢ NeitherKind }
    requires within { total ≤ FILES_LIMIT }
    ensures read { F.tells → (old : List Entry) → IfOk result (λ x. (new : List Entry) × (count : ℕ) × (x.1 ≡ total + count)
        × IsRead N.id_of (F.holds folder.old) path.now what count old x.0 new) }
    ensures within { IfOk result (λ x. x.1 ≤ FILES_LIMIT) }
    ensures held { (old : List Entry) → IfOk result (λ x. (new : List Entry) × Keeps old new
        × IsHeld (names_of_made N.id_of (made new)) x.0) }
    ensures may { IfErr result MayRefusePlain }
    ensures err { F.tells → IfErr result (ExplainsRead N.id_of (F.holds folder.old) total path.now what) }

    ensures same { F.tells → F.holds folder.new ≡ F.holds folder.old }
    ensures same_path { F.opened_at folder.new ≡ F.opened_at folder.old }
    ensures later { F.faults folder.old ≤ F.faults folder.new }
    ensures quiet { IsQuietBut (F.faults folder.old) (F.faults folder.new) NotRead result }
    ensures cause { IsErrOf result NotRead → Rose (F.faults folder.old) (F.faults folder.new) }
{
    match what {
        What::File => name_content(alloc, namer, folder, path, total),
        What::Folder => Ok((Member::Folder, total)),
        What::Other => unreachable!(),
    }
}

/// Reads the files of a table, in its order and each once, and names their contents; what stands at each place. No more
/// than one file is held at a time.
///
/// # Errors
///
/// As of `read_files`.
pub fn name_files<N: Namer, F: Folder>(
    alloc: Global,
    namer: &N,
    folder: &mut F,
    found: &[Found],
) -> Result<Vec<Member>, DirFault>
    requires placed { ArePlaced 0 found.now }
    requires fit { AllFit (items_of found.now) }
    ensures read { F.tells → IfOk result (λ places. (contents : List Entry) × (total : ℕ)
        × ReadsAll N.id_of (F.holds folder.old) 0 [] (items_of found.now) places.items total contents) }
    // Also of a folder that does not tell what it holds.
    ensures count { IfOk result (λ places. length places.items ≡ length found.now) }
    ensures held { IfOk result (λ places. (contents : List Entry)
        × AllByRecursion (IsHeld (names_of_made N.id_of (made contents))) places.items) }
    ensures may { IfErr result MayRefusePlain }
    ensures err { F.tells → IfErr result (ExplainsReading N.id_of (F.holds folder.old) [] (items_of found.now)) }

    ensures same { F.tells → F.holds folder.new ≡ F.holds folder.old }
    ensures same_path { F.opened_at folder.new ≡ F.opened_at folder.old }
    ensures later { F.faults folder.old ≤ F.faults folder.new }
    ensures quiet { IsQuietBut (F.faults folder.old) (F.faults folder.new) NotRead result }
    ensures cause { IsErrOf result NotRead → Rose (F.faults folder.old) (F.faults folder.new) }
{
    let mut places = Vec::new(alloc);
    let mut total = 0;
    'files: for number in 0..found.len() {
        let item = &found[number];
        let what = item.what;
        let path = path_of(alloc, &found[..number], item)?;
        let (place, now) = name_item(alloc, namer, folder, path.as_str(), what, total)?;
        places.push(place)?;
        total = now;
    }
    Ok(places)
}
