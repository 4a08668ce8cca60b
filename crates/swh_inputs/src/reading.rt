// An input that is found, read.
ghost use Rattle.std.specs.Prelude.{◌≡◌, ◌⊎◌, Some, None, option_map, IfSome, IfOk, IfErr};
ghost use Rattle.swh_base.specs.Text.{IsRef};
ghost use Rattle.swh_base.specs.declared.visit.VisitKind.TheVariants.{Fast, Dir, Batch};
ghost use Rattle.swh_outside.specs.Faults.{Rose};
ghost use Rattle.swh_outside.specs.Views.{sources};
ghost use Rattle.swh_outside.specs.declared.fault.Opened.TheVariants.{Found as Here};
ghost use Rattle.std.specs.Option.{option_copied};
ghost use Rattle.swh_ingest.specs.Parts.{IsWhole};
ghost use Rattle.swh_ingest.specs.declared.input.Opening.TheVariants.{Found};
ghost use Rattle.swh_inputs.specs.Input.InputText.{StreamText, FolderText, BatchText};
ghost use Rattle.swh_inputs.specs.declared.input.Input.TheVariants.{Dir as DirInput};
ghost use Rattle.swh_inputs.specs.Opening.{found_as, found_first, listing_found, opening_of};
ghost use Rattle.swh_inputs.specs.Parts.{folders, parts, both_given, given, HasGoodHead, IfBothFound, IsQuiet, IsQuietOf, RoseOf};
ghost use Rattle.swh_inputs.specs.Parts.{IsSameSource, IsSameFolder, IsSamePart, IsSameListing, IsSameInput};
ghost use Rattle.swh_inputs.specs.Reading.{GivesSo, IsRead, IsReadFault, IsTold, told_of_stream, told_of_folder, told_of_batch};

use crate::bad::{BadText, InputFault};
use crate::input::Input;
use std::alloc::Global;
use swh_base::{Bytes, Memory, Namer};
use swh_batchread::{BatchFault, read_batch, read_refs};
use swh_dirload::{DirFault, load_folder};
use swh_fastload::{BadStream, InputFault as StreamFault, load_source};
use swh_ingest::{Next, SaidOfParts};
use swh_outside::{Folder, Opened, Source};

/// The fault of an input for one of its stream.
pub fn fault_of_stream(fault: StreamFault) -> Result<InputFault, Memory>
    ensures told { IfOk result (λ told. told_of_stream fault ≡ Some told) }
    ensures memory { IfErr result (λ _. told_of_stream fault ≡ None) }
{
    match fault {
        StreamFault::Bad(BadStream::Stream { at, why }) => {
            Ok(InputFault::Bad(BadText::Stream { at, why }))
        }
        StreamFault::Bad(BadStream::Limit { which, number }) => {
            Ok(InputFault::Bad(BadText::Limit { which, number }))
        }
        StreamFault::ReadFault => Ok(InputFault::ReadFault),
        StreamFault::Memory => Err(Memory),
    }
}

/// What is told of a stream's faults.
fn told_of_stream<N: Namer>(fault: StreamFault) -> Result<Next<N, InputFault>, Memory>
    ensures told { IfOk result (IsTold (told_of_stream fault)) }
    ensures memory { IfErr result (λ _. told_of_stream fault ≡ None) }
{
    match fault_of_stream(fault) {
        Ok(fault) => Ok(Next::Bad(fault)),
        Err(fault) => Err(fault),
    }
}

/// What is told of the faults of a folder and its listing.
fn told_of_folder<N: Namer>(fault: DirFault) -> Result<Next<N, InputFault>, Memory>
    ensures told { IfOk result (IsTold (told_of_folder fault)) }
    ensures memory { IfErr result (λ _. told_of_folder fault ≡ None) }
{
    let fault = match fault {
        DirFault::OtherKind { path } => InputFault::Bad(BadText::Other { path }),
        DirFault::BadModes { line } => InputFault::Bad(BadText::Modes { line }),
        DirFault::Limit { which, number } => InputFault::Bad(BadText::Limit { which, number }),
        DirFault::ReadFault => InputFault::ReadFault,
        DirFault::Memory => return Err(Memory),
    };
    Ok(Next::Bad(fault))
}

/// The fault of an input for one of its batch or refs.
pub fn fault_of_batch(fault: BatchFault) -> Result<InputFault, Memory>
    ensures told { IfOk result (λ told. told_of_batch fault ≡ Some told) }
    ensures memory { IfErr result (λ _. told_of_batch fault ≡ None) }
{
    match fault {
        BatchFault::BadBatch { at } => Ok(InputFault::Bad(BadText::Batch { at })),
        BatchFault::WrongName { given, got } => Ok(InputFault::Bad(BadText::Name { given, got })),
        BatchFault::BadRefs { line } => Ok(InputFault::Bad(BadText::Refs { line })),
        BatchFault::NoObject { id } => Ok(InputFault::Bad(BadText::NoObject { id })),
        BatchFault::Limit { which, number } => {
            Ok(InputFault::Bad(BadText::Limit { which, number }))
        }
        BatchFault::ReadFault => Ok(InputFault::ReadFault),
        BatchFault::Memory => Err(Memory),
    }
}

/// What is told of the faults of a batch and its refs.
fn told_of_batch<N: Namer>(fault: BatchFault) -> Result<Next<N, InputFault>, Memory>
    ensures told { IfOk result (IsTold (told_of_batch fault)) }
    ensures memory { IfErr result (λ _. told_of_batch fault ≡ None) }
{
    match fault_of_batch(fault) {
        Ok(fault) => Ok(Next::Bad(fault)),
        Err(fault) => Err(fault),
    }
}

/// The bytes of a head, where one is named.
pub fn head_of(head: &Option<Bytes>) -> Option<&[u8]>
    ensures { option_copied result ≡ head.now }
{
    match head {
        Some(head) => Some(head.as_slice()),
        None => None,
    }
}

/// Reads a stream, for which this head is named, or none.
fn read_stream<N: Namer, S: Source>(
    alloc: Global,
    namer: &N,
    source: &mut S,
    head: &Option<Bytes>,
) -> Result<Next<N, InputFault>, Memory>
    requires { IfSome head.now IsRef }
    ensures read { IfOk result (GivesSo N.id_of Fast S.tells (Some (StreamText head.now (S.left source.old)))
        (Rose (S.faults source.old) (S.faults source.new))) }
    ensures whole { IfOk result (IsWhole N.id_of) }
    ensures same { IsSameSource (sources S.tells S.left S.faults S.path) source.old source.new }
    ensures quiet { (IsReadFault result → ⊥) → IsQuietOf S.faults source.old source.new }
{
    match load_source(alloc, namer, head_of(head), source) {
        Ok(objects) => Ok(Next::Last(objects)),
        Err(fault) => told_of_stream(fault),
    }
}

/// Reads a folder that has no listing.
fn read_plain<'a, N: Namer, S: Source + 'a, F: Folder>(
    alloc: Global,
    namer: &N,
    folder: &'a mut F,
) -> Result<Next<N, InputFault>, Memory>
    ensures read { IfOk result (GivesSo N.id_of Dir F.tells (Some (FolderText (F.holds folder.old) None))
        (Rose (F.faults folder.old) (F.faults folder.new))) }
    ensures whole { IfOk result (IsWhole N.id_of) }
    ensures same { IsSameFolder (folders F.tells F.holds F.faults F.opened_at) folder.old folder.new }
    ensures quiet { (IsReadFault result → ⊥) → IsQuietOf F.faults folder.old folder.new }
{
    let none: Option<&'a mut S> = None;
    match load_folder(alloc, namer, folder, none) {
        Ok(objects) => Ok(Next::Last(objects)),
        Err(fault) => told_of_folder(fault),
    }
}

/// Reads a folder with its listing.
fn read_listed<N: Namer, S: Source, F: Folder>(
    alloc: Global,
    namer: &N,
    folder: &mut F,
    source: &mut S,
) -> Result<Next<N, InputFault>, Memory>
    ensures read { IfOk result (GivesSo N.id_of Dir (F.tells × S.tells)
        (Some (FolderText (F.holds folder.old) (Some (S.left source.old))))
        (Rose (F.faults folder.old) (F.faults folder.new) ⊎ Rose (S.faults source.old) (S.faults source.new))) }
    ensures whole { IfOk result (IsWhole N.id_of) }
    ensures same { IsSameFolder (folders F.tells F.holds F.faults F.opened_at) folder.old folder.new }
    ensures same_source { IsSameSource (sources S.tells S.left S.faults S.path) source.old source.new }
    ensures quiet { (IsReadFault result → ⊥) → IsQuietOf F.faults folder.old folder.new }
    ensures quiet_source { (IsReadFault result → ⊥) → IsQuietOf S.faults source.old source.new }
{
    match load_folder(alloc, namer, folder, Some(source)) {
        Ok(objects) => Ok(Next::Last(objects)),
        Err(fault) => told_of_folder(fault),
    }
}

/// Reads a batch, and then its refs.
fn read_both<N: Namer, S: Source>(
    alloc: Global,
    namer: &N,
    objects: &mut S,
    refs: &mut S,
) -> Result<Next<N, InputFault>, Memory>
    ensures read { IfOk result (GivesSo N.id_of Batch S.tells
        (Some (BatchText (S.left objects.old) (S.left refs.old)))
        (Rose (S.faults objects.old) (S.faults objects.new) ⊎ Rose (S.faults refs.old) (S.faults refs.new))) }
    ensures whole { IfOk result (IsWhole N.id_of) }
    ensures same { IsSameSource (sources S.tells S.left S.faults S.path) objects.old objects.new }
    ensures same_refs { IsSameSource (sources S.tells S.left S.faults S.path) refs.old refs.new }
    ensures quiet { (IsReadFault result → ⊥) → IsQuietOf S.faults objects.old objects.new }
    ensures quiet_refs { (IsReadFault result → ⊥) → IsQuietOf S.faults refs.old refs.new }
{
    let of_batch = match read_batch(alloc, namer, objects) {
        Ok(of_batch) => of_batch,
        Err(fault) => return told_of_batch(fault),
    };
    match read_refs(alloc, namer, refs, of_batch) {
        Ok(made) => Ok(Next::Last(made)),
        Err(fault) => told_of_batch(fault),
    }
}

/// Reads the stream of an input, which was found.
fn read_fast<N: Namer, S: Source>(
    alloc: Global,
    namer: &N,
    stream: &mut Opened<S>,
    head: &Option<Bytes>,
) -> Result<Next<N, InputFault>, Memory>
    requires found { found_as stream.old ≡ Found }
    requires head { IfSome head.now IsRef }
    ensures read { IfOk result (GivesSo N.id_of Fast S.tells (option_map (StreamText head.now) (given S.left stream.old))
        (IfBothFound (RoseOf S.faults) stream.old stream.new)) }
    ensures whole { IfOk result (IsWhole N.id_of) }
    ensures same { IsSamePart (IsSameSource (sources S.tells S.left S.faults S.path)) stream.old stream.new }
    ensures quiet { (IsReadFault result → ⊥) → IsSamePart (IsQuietOf S.faults) stream.old stream.new }
{
    match stream {
        Opened::Found(source) => read_stream(alloc, namer, source, head),
        Opened::NotFound | Opened::Failed | Opened::Memory => unreachable!(),
    }
}

/// Reads a folder, which was found, with its listing, which was found where one is named.
fn read_dir<N: Namer, S: Source, F: Folder>(
    alloc: Global,
    namer: &N,
    folder: &mut F,
    modes: &mut Option<Opened<S>>,
) -> Result<Next<N, InputFault>, Memory>
    requires { listing_found modes.old ≡ Found }
    ensures read { IfOk result (IsRead N.id_of (parts (sources S.tells S.left S.faults S.path)
        (folders F.tells F.holds F.faults F.opened_at)) (DirInput (Here folder.old) modes.old)
        (DirInput (Here folder.new) modes.new)) }
    ensures whole { IfOk result (IsWhole N.id_of) }
    ensures same { IsSameFolder (folders F.tells F.holds F.faults F.opened_at) folder.old folder.new }
    ensures same_listing { IsSameListing (IsSameSource (sources S.tells S.left S.faults S.path)) modes.old modes.new }
    ensures quiet { (IsReadFault result → ⊥) → IsQuietOf F.faults folder.old folder.new }
    ensures quiet_listing { (IsReadFault result → ⊥) → IsSameListing (IsQuietOf S.faults) modes.old modes.new }
{
    match modes {
        None => read_plain::<N, S, F>(alloc, namer, folder),
        Some(Opened::Found(source)) => read_listed(alloc, namer, folder, source),
        Some(Opened::NotFound | Opened::Failed | Opened::Memory) => unreachable!(),
    }
}

/// Reads the folder of an input, which was found, with its listing.
fn read_opened<N: Namer, S: Source, F: Folder>(
    alloc: Global,
    namer: &N,
    folder: &mut Opened<F>,
    modes: &mut Option<Opened<S>>,
) -> Result<Next<N, InputFault>, Memory>
    requires { found_first (found_as folder.old) (listing_found modes.old) ≡ Found }
    ensures read { IfOk result (IsRead N.id_of (parts (sources S.tells S.left S.faults S.path)
        (folders F.tells F.holds F.faults F.opened_at)) (DirInput folder.old modes.old)
        (DirInput folder.new modes.new)) }
    ensures whole { IfOk result (IsWhole N.id_of) }
    ensures same { IsSamePart (IsSameFolder (folders F.tells F.holds F.faults F.opened_at)) folder.old folder.new }
    ensures same_listing { IsSameListing (IsSameSource (sources S.tells S.left S.faults S.path)) modes.old modes.new }
    ensures quiet { (IsReadFault result → ⊥) → IsSamePart (IsQuietOf F.faults) folder.old folder.new }
    ensures quiet_listing { (IsReadFault result → ⊥) → IsSameListing (IsQuietOf S.faults) modes.old modes.new }
{
    match folder {
        Opened::Found(folder) => read_dir(alloc, namer, folder, modes),
        Opened::NotFound | Opened::Failed | Opened::Memory => unreachable!(),
    }
}

/// Reads the refs of an input, which were found, behind its batch.
fn read_behind<N: Namer, S: Source>(
    alloc: Global,
    namer: &N,
    objects: &mut S,
    refs: &mut Opened<S>,
) -> Result<Next<N, InputFault>, Memory>
    requires { found_as refs.old ≡ Found }
    ensures read { IfOk result (GivesSo N.id_of Batch S.tells
        (both_given BatchText (Some (S.left objects.old)) (given S.left refs.old))
        (Rose (S.faults objects.old) (S.faults objects.new) ⊎ IfBothFound (RoseOf S.faults) refs.old refs.new)) }
    ensures whole { IfOk result (IsWhole N.id_of) }
    ensures same { IsSameSource (sources S.tells S.left S.faults S.path) objects.old objects.new }
    ensures same_refs { IsSamePart (IsSameSource (sources S.tells S.left S.faults S.path)) refs.old refs.new }
    ensures quiet { (IsReadFault result → ⊥) → IsQuietOf S.faults objects.old objects.new }
    ensures quiet_refs { (IsReadFault result → ⊥) → IsSamePart (IsQuietOf S.faults) refs.old refs.new }
{
    match refs {
        Opened::Found(source) => read_both(alloc, namer, objects, source),
        Opened::NotFound | Opened::Failed | Opened::Memory => unreachable!(),
    }
}

/// Reads the batch of an input, which was found, and its refs.
fn read_pair<N: Namer, S: Source>(
    alloc: Global,
    namer: &N,
    objects: &mut Opened<S>,
    refs: &mut Opened<S>,
) -> Result<Next<N, InputFault>, Memory>
    requires { found_first (found_as objects.old) (found_as refs.old) ≡ Found }
    ensures read { IfOk result (GivesSo N.id_of Batch S.tells
        (both_given BatchText (given S.left objects.old) (given S.left refs.old))
        (IfBothFound (RoseOf S.faults) objects.old objects.new ⊎ IfBothFound (RoseOf S.faults) refs.old refs.new)) }
    ensures whole { IfOk result (IsWhole N.id_of) }
    ensures same { IsSamePart (IsSameSource (sources S.tells S.left S.faults S.path)) objects.old objects.new }
    ensures same_refs { IsSamePart (IsSameSource (sources S.tells S.left S.faults S.path)) refs.old refs.new }
    ensures quiet { (IsReadFault result → ⊥) → IsSamePart (IsQuietOf S.faults) objects.old objects.new }
    ensures quiet_refs { (IsReadFault result → ⊥) → IsSamePart (IsQuietOf S.faults) refs.old refs.new }
{
    match objects {
        Opened::Found(source) => read_behind(alloc, namer, source, refs),
        Opened::NotFound | Opened::Failed | Opened::Memory => unreachable!(),
    }
}

/// Reads an input of which all parts are found, and makes its objects, the snapshot among them.
///
/// # Errors
///
/// An input that breaks, or of which a part fails, is `Bad`; what is then left of its sources is not promised.
pub fn read_input<N: Namer, S: Source, F: Folder>(
    alloc: Global,
    namer: &N,
    input: &mut Input<S, F>,
) -> Result<Next<N, InputFault>, Memory>
    requires found { opening_of input.old ≡ Found }
    requires head { HasGoodHead input.old }
    // What is made is what the input means; or it breaks so, or a part of it failed in this call.
    ensures read { IfOk result (IsRead N.id_of (parts (sources S.tells S.left S.faults S.path)
        (folders F.tells F.holds F.faults F.opened_at)) input.old input.new) }
    // The objects have all of their children, and the snapshot is one of them.
    ensures whole { IfOk result (IsWhole N.id_of) }
    // Nothing fails unheard: where it is not told that a part failed, none did.
    ensures quiet { (IsReadFault result → ⊥) → IsQuiet (parts (sources S.tells S.left S.faults S.path)
        (folders F.tells F.holds F.faults F.opened_at)) input.old input.new }

    ensures same { IsSameInput (parts (sources S.tells S.left S.faults S.path)
        (folders F.tells F.holds F.faults F.opened_at)) input.old input.new }
{
    match input {
        Input::Fast { stream, head } => read_fast(alloc, namer, stream, head),
        Input::Dir { folder, modes } => read_opened(alloc, namer, folder, modes),
        Input::Batch { objects, refs } => read_pair(alloc, namer, objects, refs),
    }
}

/// What is said of an input that is read whole: it may be read where it was found, and nothing comes behind what is read.
#[derive(Clone, Copy, Debug)]
pub struct WholeInput;

impl<S, F> SaidOfParts<Input<S, F>> for WholeInput {
    ghost use Rattle.swh_inputs.specs.Reading.{MayBeRead};

    ghost ready = { λ i. MayBeRead i };

    ghost left = { λ i. 0 };
}
