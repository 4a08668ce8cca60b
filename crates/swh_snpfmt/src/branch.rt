//! One branch of a snapshot, of its own or in a body.

use swh_base::{Bytes, Kind, Name};

/// What a branch leads to: an object, another branch by its name, or nothing.
#[derive(Debug, Drop)]
pub enum Target {
    /// The object of this name, of any of the five kinds.
    Object(Name),
    /// Any bytes but none; whether a branch has this name is not tested.
    Alias(Bytes),
    /// Nothing.
    Dangling,
}

/// A branch of a snapshot. Its name is any bytes without NUL, one or more.
#[derive(Debug, Drop)]
pub struct Branch {
    pub name: Bytes,
    pub target: Target,
}

/// What a branch leads to, where the object's id or the other branch's name stands in a body.
#[derive(Clone, Copy, Debug)]
pub enum SpelledTarget<'a> {
    Object(Kind, &'a [u8; 20]),
    Alias(&'a [u8]),
    Dangling,
}

/// A branch whose name and target stand in a body.
#[derive(Clone, Copy, Debug)]
pub struct SpelledBranch<'a> {
    pub name: &'a [u8],
    pub target: SpelledTarget<'a>,
}
