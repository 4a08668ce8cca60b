//! A folder with its listing, loaded.
ghost use Rattle.std.specs.Prelude.{◌≡◌, ◌≤◌, ◌⊎◌, [], List, ℕ, Some, IfOk, IfErr, IsErrOf, OnOk, length};
ghost use Rattle.std.specs.List.{AllByRecursion};
ghost use Rattle.swh_base.specs.declared.entry.Entry.{Entry};
ghost use Rattle.swh_base.specs.declared.name.Name.{Name};
ghost use Rattle.swh_outside.specs.Faults.{Rose};
ghost use Rattle.swh_fastlex.specs.ReadOn.{IsQuietBut};
ghost use Rattle.swh_dedup.specs.Giving.{AreNew};
ghost use Rattle.swh_dedup.specs.Making.{made, names_of_made};
ghost use Rattle.swh_dedup.specs.Whole.{HasAllThatIsReached};
ghost use Rattle.swh_dirmade.specs.declared.member.Member.TheVariants.{Folder as AFolder};
ghost use Rattle.swh_dirmade.specs.Making.{IsHeld};
ghost use Rattle.swh_dirmade.specs.Sizes.{AreShort};
ghost use Rattle.swh_dirmade.specs.Spots.{Places, IsTable, Stand};
ghost use Rattle.swh_dirload.specs.declared.fault.DirFault.TheVariants.{ReadFault as NotRead};
ghost use Rattle.swh_dirload.specs.Lines.{AreTaken, ExplainsLines, GoesOn};
ghost use Rattle.swh_dirload.specs.Loading.{HasTable, ExplainsLength, IsLongAfter, MakesAll};
ghost use Rattle.swh_dirload.specs.May.{MayRefuse, MayRefusePlain};
ghost use Rattle.swh_dirload.specs.Meaning.{MeansFolder, ExplainsFolder};
ghost use Rattle.swh_dirload.specs.Modes.{Tells, text_of, IsLeft, IsQuietIn, RoseIn};

use crate::fault::DirFault;
use crate::listing::take_lines;
use crate::lookup::index_of;
use crate::reading::{name_files, read_files};
use crate::spot::spots_of;
use crate::walking::walk;
use std::alloc::Global;
use swh_base::{Memory, Namer, Which};
use swh_dedup::Objects;
use swh_dirmade::{Given, Member, Spot, first_long, make_directories, make_snapshot};
use swh_outside::{Folder, Source};

/// What stands in a folder: its table, and what is under each number of it.
#[derive(Drop)]
pub struct Standing {
    pub spots: Vec<Spot>,
    pub places: Vec<Member>,
}

/// What stands in a folder, with the contents of its files.
pub fn read_folder<N: Namer, F: Folder>(
    alloc: Global,
    namer: &N,
    folder: &mut F,
    given: &mut Given<N>,
) -> Result<Standing, DirFault>
    requires { given.old ≡ [] }
    ensures has { F.tells → IfOk result (λ s. HasTable N.id_of (F.holds folder.old) s.spots.items s.places.items given.new) }
    ensures table { IfOk result (λ s. IsTable s.spots.items) }
    ensures count { IfOk result (λ s. length s.places.items ≡ length s.spots.items) }
    ensures held { IfOk result (λ s. AllByRecursion (IsHeld (names_of_made N.id_of (made given.new))) s.places.items) }
    ensures may { IfErr result MayRefusePlain }
    ensures err { F.tells → (text : List ℕ) → IfErr result (ExplainsFolder N.id_of (F.holds folder.old) text) }

    ensures same { F.tells → F.holds folder.new ≡ F.holds folder.old }
    ensures same_path { F.opened_at folder.new ≡ F.opened_at folder.old }
    ensures later { F.faults folder.old ≤ F.faults folder.new }
    ensures quiet { IsQuietBut (F.faults folder.old) (F.faults folder.new) NotRead result }
    ensures cause { IsErrOf result NotRead → Rose (F.faults folder.old) (F.faults folder.new) }
{
    let found = walk(alloc, folder)?;
    let places = read_files(alloc, namer, folder, found.as_slice(), given)?;
    let spots = spots_of(alloc, found.as_slice())?;
    Ok(Standing { spots, places })
}

/// What stands in a folder, with the ids of the contents of its files, which are let go one after another.
pub fn name_standing<N: Namer, F: Folder>(
    alloc: Global,
    namer: &N,
    folder: &mut F,
) -> Result<Standing, DirFault>
    ensures has { F.tells → IfOk result (λ s. (contents : List Entry)
        × HasTable N.id_of (F.holds folder.old) s.spots.items s.places.items contents) }
    ensures table { IfOk result (λ s. IsTable s.spots.items) }
    ensures count { IfOk result (λ s. length s.places.items ≡ length s.spots.items) }
    ensures held { IfOk result (λ s. (contents : List Entry)
        × AllByRecursion (IsHeld (names_of_made N.id_of (made contents))) s.places.items) }
    ensures may { IfErr result MayRefusePlain }
    ensures err { F.tells → (text : List ℕ) → IfErr result (ExplainsFolder N.id_of (F.holds folder.old) text) }

    ensures same { F.tells → F.holds folder.new ≡ F.holds folder.old }
    ensures same_path { F.opened_at folder.new ≡ F.opened_at folder.old }
    ensures later { F.faults folder.old ≤ F.faults folder.new }
    ensures quiet { IsQuietBut (F.faults folder.old) (F.faults folder.new) NotRead result }
    ensures cause { IsErrOf result NotRead → Rose (F.faults folder.old) (F.faults folder.new) }
{
    let found = walk(alloc, folder)?;
    let places = name_files(alloc, namer, folder, found.as_slice())?;
    let spots = spots_of(alloc, found.as_slice())?;
    Ok(Standing { spots, places })
}

/// Refuses directories that are longer than a body may be.
pub fn check_lengths(alloc: Global, spots: &[Spot], places: &[Member]) -> Result<(), DirFault>
    requires table { IsTable spots.now }
    requires count { length places.now ≡ length spots.now }
    ensures short { OnOk result (AreShort spots.now places.now) }
    ensures err { IfErr result (ExplainsLength spots.now places.now) }
    ensures may { IfErr result MayRefusePlain }
{
    match first_long(alloc, spots, places)? {
        Some(number) => Err(DirFault::Limit {
            which: Which::Body,
            number,
        }),
        None => Ok(()),
    }
}

/// The lines of a listing, taken over what stands there, where no directory is then longer than a body may be.
fn take_listing<S: Source>(
    alloc: Global,
    spots: &mut Vec<Spot>,
    places: &mut Vec<Member>,
    source: &mut S,
) -> Result<(), DirFault>
    requires table { IsTable spots.old.items }
    requires count { length places.old.items ≡ length spots.old.items }
    ensures taken { S.tells → (before : Places) → Stand spots.old.items places.old.items before
        → OnOk result (AreTaken before (S.left source.old) spots.new.items places.new.items) }
    ensures goes { OnOk result (GoesOn spots.old.items places.old.items spots.new.items places.new.items) }
    ensures held { (names : List Name) → AllByRecursion (IsHeld names) places.old.items
        → OnOk result (AllByRecursion (IsHeld names) places.new.items) }
    ensures table { OnOk result (IsTable spots.new.items) }
    ensures count { OnOk result (length places.new.items ≡ length spots.new.items) }
    ensures short { OnOk result (AreShort spots.new.items places.new.items) }
    ensures may { IfErr result MayRefuse }
    ensures err { S.tells → (before : Places) → Stand spots.old.items places.old.items before
        → IfErr result (λ fault. ExplainsLines before (S.left source.old) fault
        ⊎ IsLongAfter before (S.left source.old) spots.old.items places.old.items spots.new.items places.new.items
        fault) }

    ensures same_path { S.path source.new ≡ S.path source.old }
    ensures later { S.faults source.old ≤ S.faults source.new }
    ensures quiet { IsQuietBut (S.faults source.old) (S.faults source.new) NotRead result }
    ensures cause { IsErrOf result NotRead → Rose (S.faults source.old) (S.faults source.new) }
{
    let mut numbers = index_of(alloc, spots.as_slice())?;
    take_lines(alloc, spots, places, &mut numbers, source)?;
    check_lengths(alloc, spots.as_slice(), places.as_slice())?;
    Ok(())
}

/// The directories of what stands there, and the snapshot.
fn make_objects<N: Namer>(
    alloc: Global,
    namer: &N,
    spots: &[Spot],
    standing: &[Member],
    given: Given<N>,
) -> Result<Objects<N>, Memory>
    requires table { IsTable spots.now }
    requires count { length standing.now ≡ length spots.now }
    requires short { AreShort spots.now standing.now }
    requires held { AllByRecursion (IsHeld (names_of_made N.id_of (made given))) standing.now }
    ensures makes { (places : Places) → Stand spots.now standing.now places → places [] ≡ Some AFolder
        → IfOk result (λ loaded. MakesAll N.id_of places given loaded.objects.items loaded.snapshot) }
    ensures once { IfOk result (λ loaded. AreNew N.id_of [] loaded.objects.items) }
    ensures whole { IfOk result (HasAllThatIsReached N.id_of) }
{
    let mut given = given;
    let root = make_directories(alloc, namer, spots, standing, &mut given)?;
    let snapshot = make_snapshot(alloc, namer, &mut given, root)?;
    let objects = given.into_objects();
    Ok(Objects { objects, snapshot })
}

/// The objects of a folder that has no listing.
fn load_plain<N: Namer, F: Folder>(
    alloc: Global,
    namer: &N,
    folder: &mut F,
) -> Result<Objects<N>, DirFault>
    ensures ok { F.tells → IfOk result (λ loaded. MeansFolder N.id_of (F.holds folder.old) [] loaded.objects.items
        loaded.snapshot) }
    ensures whole { IfOk result (HasAllThatIsReached N.id_of) }
    ensures may { IfErr result MayRefuse }
    ensures err { F.tells → IfErr result (ExplainsFolder N.id_of (F.holds folder.old) []) }

    ensures same { F.tells → F.holds folder.new ≡ F.holds folder.old }
    ensures same_path { F.opened_at folder.new ≡ F.opened_at folder.old }
    ensures later { F.faults folder.old ≤ F.faults folder.new }
    ensures quiet { IsQuietBut (F.faults folder.old) (F.faults folder.new) NotRead result }
    ensures cause { IsErrOf result NotRead → Rose (F.faults folder.old) (F.faults folder.new) }
{
    let mut given = Given::new(alloc);
    let Standing { spots, places } = read_folder(alloc, namer, folder, &mut given)?;
    check_lengths(alloc, spots.as_slice(), places.as_slice())?;
    let loaded = make_objects(alloc, namer, spots.as_slice(), places.as_slice(), given)?;
    Ok(loaded)
}

/// The objects of a folder with its listing, which is all that is left of the source.
fn load_listed<N: Namer, F: Folder, S: Source>(
    alloc: Global,
    namer: &N,
    folder: &mut F,
    source: &mut S,
) -> Result<Objects<N>, DirFault>
    ensures ok { F.tells → S.tells → IfOk result (λ loaded. MeansFolder N.id_of (F.holds folder.old) (S.left source.old)
        loaded.objects.items loaded.snapshot) }
    ensures whole { IfOk result (HasAllThatIsReached N.id_of) }
    ensures may { IfErr result MayRefuse }
    ensures err { F.tells → S.tells → IfErr result (ExplainsFolder N.id_of (F.holds folder.old) (S.left source.old)) }

    ensures same { F.tells → F.holds folder.new ≡ F.holds folder.old }
    ensures same_path { F.opened_at folder.new ≡ F.opened_at folder.old }
    ensures later { F.faults folder.old ≤ F.faults folder.new }
    ensures quiet { IsQuietBut (F.faults folder.old) (F.faults folder.new) NotRead result }
    ensures same_source { S.path source.new ≡ S.path source.old }
    ensures later_source { S.faults source.old ≤ S.faults source.new }
    ensures quiet_source { IsQuietBut (S.faults source.old) (S.faults source.new) NotRead result }
    ensures cause { IsErrOf result NotRead → Rose (F.faults folder.old) (F.faults folder.new)
        ⊎ Rose (S.faults source.old) (S.faults source.new) }
{
    let mut given = Given::new(alloc);
    let Standing {
        mut spots,
        mut places,
    } = read_folder(alloc, namer, folder, &mut given)?;
    check_lengths(alloc, spots.as_slice(), places.as_slice())?;
    take_listing(alloc, &mut spots, &mut places, source)?;
    let loaded = make_objects(alloc, namer, spots.as_slice(), places.as_slice(), given)?;
    Ok(loaded)
}

/// The objects of a folder with its listing, which is all that is left of the source: the contents of its files, the
/// directories of all its folders, empty ones too, and the snapshot whose one branch is `HEAD`, to the directory of the
/// folder itself. Without a listing all files are of mode 100644.
///
/// # Errors
///
/// The folder's own faults come before the listing's: the first item of its walk that is neither file nor folder, or
/// whose path is too long; then the first file that is too long, or with which the files are too long together; then the
/// first directory that is longer than a body may be. Of the listing the first line that is none or may not come, or the
/// limit that it passes, is told; and then the first directory that its projects make longer than a body may be.
pub fn load_folder<N: Namer, F: Folder, S: Source>(
    alloc: Global,
    namer: &N,
    folder: &mut F,
    modes: Option<&mut S>,
) -> Result<Objects<N>, DirFault>
    ensures ok { F.tells → Tells S.tells modes.entry → IfOk result (λ loaded. MeansFolder N.id_of (F.holds folder.old)
        (text_of S.left modes.entry) loaded.objects.items loaded.snapshot) }
    ensures err { F.tells → Tells S.tells modes.entry
        → IfErr result (ExplainsFolder N.id_of (F.holds folder.old) (text_of S.left modes.entry)) }
    // Also of a folder and a listing that do not tell what they hold.
    ensures whole { IfOk result (HasAllThatIsReached N.id_of) }
    ensures may { IfErr result MayRefuse }

    ensures same { F.tells → F.holds folder.new ≡ F.holds folder.old }
    ensures same_path { F.opened_at folder.new ≡ F.opened_at folder.old }
    ensures later { F.faults folder.old ≤ F.faults folder.new }
    ensures quiet { IsQuietBut (F.faults folder.old) (F.faults folder.new) NotRead result }
    ensures listing { IsLeft S.path S.faults modes.entry modes.exit }
    ensures quiet_listing { (IsErrOf result NotRead → ⊥) → IsQuietIn S.faults modes.entry modes.exit }
    ensures cause { IsErrOf result NotRead → Rose (F.faults folder.old) (F.faults folder.new)
        ⊎ RoseIn S.faults modes.entry modes.exit }
{
    match modes {
        Some(source) => load_listed(alloc, namer, folder, source),
        None => load_plain(alloc, namer, folder),
    }
}
