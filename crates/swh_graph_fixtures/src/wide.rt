// Bodies of wide objects, whose parts are numbered.
use std::alloc::{AllocError, Global};
use swh_base::Name;

/// The last six decimal digits of a number.
pub fn digits(number: u32) -> [u8; 6] {
    [
        b'0' + (number / 100_000 % 10) as u8,
        b'0' + (number / 10_000 % 10) as u8,
        b'0' + (number / 1_000 % 10) as u8,
        b'0' + (number / 100 % 10) as u8,
        b'0' + (number / 10 % 10) as u8,
        b'0' + (number % 10) as u8,
    ]
}

/// The forty digits of the id of a name.
pub fn hex_of(name: &Name) -> [u8; 40] {
    let mut hex = [0; 40];
    name.hex(&mut hex);
    hex
}

/// The forty digits of an id that ends in these six, and is zero before them.
pub fn hex_of_number(alloc: Global, number: u32) -> Result<Vec<u8>, AllocError> {
    let mut hex = b"0000000000000000000000000000000000".to_vec(alloc)?;
    hex.extend_from_slice(&digits(number))?;
    Ok(hex)
}

/// The id of a file in a wide folder.
pub fn file_id(number: u32) -> [u8; 20] {
    let [a, b, c, d] = number.to_be_bytes();
    [0, 0, 0, 0, 0, 0, 0, 0, 0, 0, 0, 0, 0, 0, 0, 0, a, b, c, d]
}

/// A folder of so many files, below a million, each named by the six digits of its number.
pub fn folder_body(alloc: Global, count: u32) -> Result<Vec<u8>, AllocError> {
    let mut body = Vec::new(alloc);
    for number in 0..count {
        body.extend_from_slice(b"100644 ")?;
        body.extend_from_slice(&digits(number))?;
        body.extend_from_slice(b"\0")?;
        body.extend_from_slice(&file_id(number))?;
    }
    Ok(body)
}

/// A revision of this folder without parents, which its number tells from others.
pub fn numbered_body(alloc: Global, folder: &Name, number: u32) -> Result<Vec<u8>, AllocError> {
    let mut body = b"tree ".to_vec(alloc)?;
    body.extend_from_slice(&hex_of(folder))?;
    body.extend_from_slice(b"\nnumber ")?;
    body.extend_from_slice(&digits(number))?;
    body.extend_from_slice(b"\n")?;
    Ok(body)
}

/// A revision of this folder with these parents, and so many more by number that are not among them.
pub fn merge_body(
    alloc: Global,
    folder: &Name,
    parents: &[Name],
    more: u32,
) -> Result<Vec<u8>, AllocError> {
    let mut body = b"tree ".to_vec(alloc)?;
    body.extend_from_slice(&hex_of(folder))?;
    body.extend_from_slice(b"\n")?;
    for parent in parents {
        body.extend_from_slice(b"parent ")?;
        body.extend_from_slice(&hex_of(parent))?;
        body.extend_from_slice(b"\n")?;
    }
    for number in 0..more {
        let hex = hex_of_number(alloc, number)?;
        body.extend_from_slice(b"parent ")?;
        body.extend_from_slice(hex.as_slice())?;
        body.extend_from_slice(b"\n")?;
    }
    Ok(body)
}

/// Branches that lead nowhere, as many as the count, each named by a letter and the six digits of its number.
pub fn dangling_body(alloc: Global, count: u32) -> Result<Vec<u8>, AllocError> {
    let mut body = Vec::new(alloc);
    for number in 0..count {
        body.extend_from_slice(b"dangling b")?;
        body.extend_from_slice(&digits(number))?;
        body.extend_from_slice(b"\x000:")?;
    }
    Ok(body)
}

/// A branch HEAD that leads by so many aliases more to a branch behind them, which is the folder where there is one.
pub fn alias_body(alloc: Global, count: u32, folder: Option<Name>) -> Result<Vec<u8>, AllocError> {
    let mut body = b"alias HEAD\x007:b000000".to_vec(alloc)?;
    for number in 0..count {
        body.extend_from_slice(b"alias b")?;
        body.extend_from_slice(&digits(number))?;
        body.extend_from_slice(b"\x007:b")?;
        body.extend_from_slice(&digits(number.wrapping_add(1)))?;
    }
    if let Some(folder) = folder {
        body.extend_from_slice(b"directory b")?;
        body.extend_from_slice(&digits(count))?;
        body.extend_from_slice(b"\x0020:")?;
        body.extend_from_slice(&folder.id)?;
    }
    Ok(body)
}
