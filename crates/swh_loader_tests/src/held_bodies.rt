// Inputs in memory, laid out from tables.
ghost use Rattle.std.specs.Prelude.{◌≡◌, IfOk, IfSome};
ghost use Rattle.swh_base.specs.Text.{IsRef};
ghost use Rattle.swh_ingest.specs.declared.input.Opening.TheVariants.{Found};
ghost use Rattle.swh_inputs.specs.Opening.{listing_found, opening_of};
ghost use Rattle.swh_inputs.specs.Parts.{HasGoodHead};

use std::alloc::{AllocError, Global};
use std::sync::ArcSlice;
use swh_base::{Bytes, is_ref};
use swh_inputs::Input;
use swh_memory_input::{MemoryFolder, MemorySource, PathItem, Stands};
use swh_outside::{Item, Opened, What};

/// An input in memory.
pub type MemoryInput = Input<MemorySource, MemoryFolder>;

/// A text, and the numbers of the calls of its source that fail.
pub type Text = (&'static [u8], &'static [u64]);

/// What an input holds.
#[derive(Clone, Copy)]
pub enum Held {
    /// A stream, and its head, where one is named.
    Stream(Text, Option<&'static [u8]>),
    /// The items of a folder of files and links, with the bytes of its files; the calls of the folder that fail; and a
    /// listing.
    Folder(&'static [(&'static str, What, &'static [u8])], &'static [u64], Option<Text>),
    /// A batch, and its refs.
    Batch(Text, Text),
}

/// A source that gives its text in pieces of seven bytes.
pub fn source_of(alloc: Global, (text, failing): Text) -> Result<MemorySource, AllocError> {
    let bytes = Vec::from_slice(alloc, text)?;
    let failing = Vec::from_slice(alloc, failing)?;
    Ok(MemorySource::new(String::new(alloc), bytes, 7, failing))
}

fn place_of(alloc: Global, path: &str, stands: Stands) -> Result<PathItem, AllocError> {
    let path = String::from_str(alloc, path)?;
    Ok(PathItem { path, stands })
}

fn folder_of(
    alloc: Global,
    items: &[(&'static str, What, &'static [u8])],
    failing: &[u64],
) -> Result<MemoryFolder, AllocError> {
    let mut list = Vec::new(alloc);
    let mut places = Vec::new(alloc);
    for (name, what, bytes) in items {
        let item = String::from_str(alloc, name)?;
        list.push(Item {
            name: item,
            what: *what,
        })?;
        let stands = Stands::File {
            bytes: Vec::from_slice(alloc, bytes)?,
            piece: 2,
            failing: Vec::new(alloc),
        };
        places.push(place_of(alloc, name, stands)?)?;
    }
    places.push(place_of(alloc, "", Stands::Folder(list))?)?;
    let places = ArcSlice::from_vec(places)?;
    let path = String::from_str(alloc, "in")?;
    Ok(MemoryFolder::new(alloc, path, places, Vec::from_slice(alloc, failing)?))
}

/// A head that is a ref; another one is left out.
fn head_of(alloc: Global, head: Option<&[u8]>) -> Result<Option<Bytes>, AllocError>
    ensures { IfOk result (λ head. IfSome head IsRef) }
{
    let Some(head) = head else {
        return Ok(None);
    };
    if !is_ref(head) {
        return Ok(None);
    }
    Ok(Some(Bytes::from_vec(Vec::from_slice(alloc, head)?)))
}

fn listing_of(
    alloc: Global,
    listing: Option<Text>,
) -> Result<Option<Opened<MemorySource>>, AllocError>
    ensures { IfOk result (λ listing. listing_found listing ≡ Found) }
{
    match listing {
        Some(text) => Ok(Some(Opened::Found(source_of(alloc, text)?))),
        None => Ok(None),
    }
}

/// The input that holds this, all of it found.
pub fn input_of(alloc: Global, held: Held) -> Result<MemoryInput, AllocError>
    ensures found { IfOk result (λ input. opening_of input ≡ Found) }
    ensures head { IfOk result HasGoodHead }
{
    match held {
        Held::Stream(text, head) => Ok(Input::Fast {
            stream: Opened::Found(source_of(alloc, text)?),
            head: head_of(alloc, head)?,
        }),
        Held::Folder(items, failing, listing) => Ok(Input::Dir {
            folder: Opened::Found(folder_of(alloc, items, failing)?),
            modes: listing_of(alloc, listing)?,
        }),
        Held::Batch(objects, refs) => Ok(Input::Batch {
            objects: Opened::Found(source_of(alloc, objects)?),
            refs: Opened::Found(source_of(alloc, refs)?),
        }),
    }
}
