// Long inputs, spelled by a few pieces.
use crate::batches::{put_doubled, put_numbered, put_tagged};
use std::alloc::{AllocError, Global};

/// A part of an input.
#[derive(Clone, Copy)]
pub enum Piece<'a> {
    /// These bytes.
    Text(&'a [u8]),
    /// So many times the byte `x`.
    Fill(usize),
    /// So many times these bytes.
    Times(usize, &'a [u8]),
    /// For each number below `count`: what stands before it, the number in six digits, so many times the byte `x`, and
    /// what stands after it.
    Rows {
        count: usize,
        before: &'a [u8],
        fill: usize,
        after: &'a [u8],
    },
    /// The objects of a batch: for each number below this a content of its six digits, and the directory with each of them
    /// as the file of that name.
    Numbered(usize),
    /// The objects of a batch: the content `x`, the directory with it as `f`, and so many directories, each with the one
    /// before it as `a` and as `b`.
    Doubled(usize),
    /// The objects of a batch: the content `x`, and for each number below this a release with its six digits as its name, the
    /// first of the content, and each other one of the one before it.
    Tagged(usize),
}

fn fill(out: &mut Vec<u8>, count: usize) -> Result<(), AllocError> {
    out.resize(out.len().saturating_add(count), b'x')
}

fn put_row(
    alloc: Global,
    out: &mut Vec<u8>,
    row: (usize, &[u8], usize, &[u8]),
) -> Result<(), AllocError> {
    let (number, before, count, after) = row;
    out.extend_from_slice(before)?;
    let digits = format!(in alloc; "{number:06}")?;
    out.extend_from_slice(digits.as_bytes())?;
    fill(out, count)?;
    out.extend_from_slice(after)
}

fn put_times(out: &mut Vec<u8>, count: usize, bytes: &[u8]) -> Result<(), AllocError> {
    for _ in 0..count {
        out.extend_from_slice(bytes)?;
    }
    Ok(())
}

fn put(alloc: Global, out: &mut Vec<u8>, piece: Piece<'_>) -> Result<(), AllocError> {
    match piece {
        Piece::Text(bytes) => out.extend_from_slice(bytes),
        Piece::Fill(count) => fill(out, count),
        Piece::Times(count, bytes) => put_times(out, count, bytes),
        Piece::Rows {
            count,
            before,
            fill,
            after,
        } => {
            for number in 0..count {
                put_row(alloc, out, (number, before, fill, after))?;
            }
            Ok(())
        }
        Piece::Numbered(count) => put_numbered(alloc, out, count),
        Piece::Doubled(levels) => put_doubled(alloc, out, levels),
        Piece::Tagged(count) => put_tagged(alloc, out, count),
    }
}

/// The bytes that these pieces spell.
pub fn spelled(alloc: Global, pieces: &[Piece<'_>]) -> Result<Vec<u8>, AllocError> {
    let mut out = Vec::new(alloc);
    for piece in pieces {
        put(alloc, &mut out, *piece)?;
    }
    Ok(out)
}
