// Why an input makes nothing.
use swh_base::{Bytes, Which};
use swh_fastload::StreamWhy;

/// How an input breaks.
#[derive(Debug, Drop)]
pub enum BadText {
    /// The stream breaks at this byte.
    Stream { at: u64, why: StreamWhy },
    /// The object of the batch whose header begins at this byte breaks.
    Batch { at: u64 },
    /// An object of the batch stands under this id, and its id is another one.
    Name { given: [u8; 20], got: [u8; 20] },
    /// This line of the refs breaks, counted from 1.
    Refs { line: u64 },
    /// No object of the batch has this id, or none of the kind that it is named with.
    NoObject { id: [u8; 20] },
    /// The item of the folder at this path is neither file nor folder.
    Other { path: Bytes },
    /// This line of the listing breaks, counted from 1.
    Modes { line: u64 },
    /// The input passes this limit, with this number.
    Limit { which: Which, number: u64 },
}

/// Why an input that is found makes nothing.
#[derive(Debug, Drop)]
pub enum InputFault {
    /// It breaks.
    Bad(BadText),
    /// A part of it failed, and a count of faults rose.
    ReadFault,
}
