//! Where a path of a listing leads.
ghost use Rattle.std.specs.Prelude.{◌≡◌, ◌<◌, IfOk, IfSome, IfNone, OnOk, length};
ghost use Rattle.std.specs.List.{AllByRecursion};
ghost use Rattle.swh_fastlex.specs.Path.{IsPath};
ghost use Rattle.swh_dirmade.specs.Spots.{IsTable};
ghost use Rattle.swh_dirload.specs.Index.{key_text, number_of, Adds, IsIndex, IsIn, HasNone, LooksUp};

use std::alloc::Global;
use std::collections::BTreeMap;
use swh_base::{Bytes, Memory, split_at_byte};
use swh_dirmade::Spot;

/// Where a path leads: to the spot of a number; to a name that the folder of a number does not have; or nowhere, since a
/// folder on the way is not there.
#[derive(Drop)]
pub enum Lookup {
    Here(usize),
    Free { above: usize, name: Bytes },
    Lost,
}

/// What the name in the folder of a number is looked up by.
fn key_of(alloc: Global, above: usize, name: &[u8]) -> Result<Vec<u8>, Memory>
    ensures { IfOk result (λ key. key.items ≡ key_text above name.now) }
{
    let mut key = Vec::from_slice(alloc, (above as u64).to_be_bytes().as_slice())?;
    key.extend_from_slice(name)?;
    Ok(key)
}

/// The number under a key.
fn number_of(numbers: &BTreeMap<Vec<u8>, usize>, key: &[u8]) -> Option<usize>
    ensures { result ≡ number_of numbers.now.entries key.now }
{
    numbers.get(key).copied()
}

/// Lets the name in the folder of a number lead to another number.
pub fn add_number(
    alloc: Global,
    numbers: &mut BTreeMap<Vec<u8>, usize>,
    above: usize,
    name: &[u8],
    number: usize,
) -> Result<(), Memory>
    ensures { OnOk result (Adds numbers.old.entries (key_text above name.now) number numbers.new.entries) }
{
    let key = key_of(alloc, above, name)?;
    numbers.insert(key, number)?;
    Ok(())
}

/// The numbers of all spots but the first, by their folders and names.
pub fn index_of(alloc: Global, spots: &[Spot]) -> Result<BTreeMap<Vec<u8>, usize>, Memory>
    requires { IsTable spots.now }
    ensures { IfOk result (λ numbers. IsIndex spots.now numbers.entries) }
{
    let mut numbers = BTreeMap::new(alloc);
    'spots: for number in 1..spots.len() {
        let spot = &spots[number];
        add_number(
            alloc,
            &mut numbers,
            spot.above,
            spot.name.as_slice(),
            number,
        )?;
    }
    Ok(numbers)
}

/// The number of a name in the folder of a number.
fn next_in(
    alloc: Global,
    spots: &[Spot],
    numbers: &BTreeMap<Vec<u8>, usize>,
    above: usize,
    name: &[u8],
) -> Result<Option<usize>, Memory>
    requires table { IsTable spots.now }
    requires index { IsIndex spots.now numbers.now.entries }
    ensures some { IfOk result (λ found. IfSome found (IsIn spots.now above name.now)) }
    ensures none { IfOk result (λ found. IfNone found (HasNone spots.now above name.now)) }
{
    let _count = spots.len();
    let key = key_of(alloc, above, name)?;
    Ok(number_of(numbers, key.as_slice()))
}

/// Where a path leads.
pub fn look_up(
    alloc: Global,
    spots: &[Spot],
    numbers: &BTreeMap<Vec<u8>, usize>,
    path: &[u8],
) -> Result<Lookup, Memory>
    requires table { IsTable spots.now }
    requires index { IsIndex spots.now numbers.now.entries }
    requires path { IsPath path.now }
    ensures { IfOk result (LooksUp spots.now path.now) }
{
    let mut above = 0;
    let mut rest = path;
    'components: while let Some((component, after)) = split_at_byte(rest, b'/') {
        match next_in(alloc, spots, numbers, above, component)? {
            Some(number) => {
                above = number;
                rest = after;
            }
            None => return Ok(Lookup::Lost),
        }
    }
    match next_in(alloc, spots, numbers, above, rest)? {
        Some(number) => Ok(Lookup::Here(number)),
        None => {
            let name = Bytes::from_slice(alloc, rest)?;
            Ok(Lookup::Free { above, name })
        }
    }
}
