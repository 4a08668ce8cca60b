//! Why bytes are no stream.

/// What is wrong at the first place where something is.
#[derive(Clone, Copy, Debug, PartialEq, Eq)]
pub enum StreamWhy {
    /// No stream begins with the bytes up to the end of this line.
    Grammar,
    /// The input ended inside a line or a command, or without the `done` that it promised.
    End,
    /// The line belongs to git's format and is left out here.
    LeftOut,
    /// A mark is not set, or is of a kind that does not fit.
    Mark,
    /// A ref has no commit as its tip.
    Branch,
    /// The source of a copy or a move is not there.
    Place,
}
