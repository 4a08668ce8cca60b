// First lines of items (git-fast-import(1), commands). A ref that is too long is told before anything else.
ghost use Rattle.std.specs.Prelude.{◌++◌, codes, MatchBool, IfOk};
ghost use Rattle.swh_fastlines.specs.ItemLine.{SaysNothing, IsItemLine};

use crate::line_words::{ref_word, tag_word};
use std::alloc::{AllocError, Global};
use swh_base::{Bytes, behind};
use swh_fastlex::Word;

/// What the first line of an item says.
#[derive(Drop)]
pub enum ItemLine {
    Blob,
    /// A commit to this ref.
    Commit(Bytes),
    /// A tag of this name.
    Tag(Bytes),
    /// A reset of this ref.
    Reset(Bytes),
    /// The line `done` will end the stream.
    Promise,
    /// The item says nothing.
    Nothing,
    /// The stream ends.
    Done,
    /// A ref is longer than it may be. This many bytes of the line could belong to it.
    Over(u64),
    /// No item begins with the line.
    No,
}

/// A line `commit`, from what follows its word on.
fn commit_item(alloc: Global, name: &[u8]) -> Result<ItemLine, AllocError>
    ensures { IfOk result (IsItemLine (codes "commit " ++ name.now)) }
{
    match ref_word(alloc, name)? {
        Word::Is(branch) => Ok(ItemLine::Commit(branch)),
        Word::Over(number) => Ok(ItemLine::Over(number)),
        Word::No => Ok(ItemLine::No),
    }
}

/// A line `tag`, from what follows its word on.
fn tag_item(alloc: Global, name: &[u8]) -> Result<ItemLine, AllocError>
    ensures { IfOk result (IsItemLine (codes "tag " ++ name.now)) }
{
    match tag_word(alloc, name)? {
        Word::Is(branch) => Ok(ItemLine::Tag(branch)),
        Word::Over(number) => Ok(ItemLine::Over(number)),
        Word::No => Ok(ItemLine::No),
    }
}

/// A line `reset`, from what follows its word on.
fn reset_item(alloc: Global, name: &[u8]) -> Result<ItemLine, AllocError>
    ensures { IfOk result (IsItemLine (codes "reset " ++ name.now)) }
{
    match ref_word(alloc, name)? {
        Word::Is(branch) => Ok(ItemLine::Reset(branch)),
        Word::Over(number) => Ok(ItemLine::Over(number)),
        Word::No => Ok(ItemLine::No),
    }
}

/// Whether the line is an item that says nothing: an empty line, `checkpoint`, or `progress` with anything after it.
fn says_nothing(line: &[u8]) -> bool
    ensures { MatchBool result (SaysNothing line.now) (SaysNothing line.now → ⊥) }
{
    if line.is_empty() {
        return true;
    }
    if line == b"checkpoint".as_slice() {
        return true;
    }
    match behind(b"progress ", line) {
        Some(_) => true,
        None => false,
    }
}

/// What the line, which is given without its LF, says as the first of an item.
///
/// # Errors
///
/// Memory ran out.
pub fn item_line(alloc: Global, line: &[u8]) -> Result<ItemLine, AllocError>
    ensures { IfOk result (IsItemLine line.now) }
{
    if let Some(name) = behind(b"commit ", line) {
        return commit_item(alloc, name);
    }
    if let Some(name) = behind(b"tag ", line) {
        return tag_item(alloc, name);
    }
    if let Some(name) = behind(b"reset ", line) {
        return reset_item(alloc, name);
    }
    if line == b"blob".as_slice() {
        return Ok(ItemLine::Blob);
    }
    if line == b"feature done".as_slice() {
        return Ok(ItemLine::Promise);
    }
    if line == b"done".as_slice() {
        return Ok(ItemLine::Done);
    }
    if says_nothing(line) {
        return Ok(ItemLine::Nothing);
    }
    Ok(ItemLine::No)
}
