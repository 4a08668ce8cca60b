// Lines of changes (git-fast-import(1), filemodify, filedelete, filecopy, filerename, filedeleteall). A path that is too
// long is told before anything else.
ghost use Rattle.std.specs.Prelude.{◌≡◌, ℕ, List, ◌++◌, codes, IfOk, IfSome, IfNone};
ghost use Rattle.swh_fastlex.specs.Word.{IsWord};
ghost use Rattle.swh_fastgrammar.specs.declared.command.Dataref.{Dataref as Given};
ghost use Rattle.swh_fastgrammar.specs.Grammar.{BeginsSet, IsPair};
ghost use Rattle.swh_fastlines.specs.Limit.{PassesPair, PassesPaths};
ghost use Rattle.swh_fastlines.specs.Reading.{BeginsFile, LineSays, IsChangeLine, set_line_of};

use crate::line_words::{id_of, mark_of, mode_of};
use std::alloc::{AllocError, Global};
use swh_base::{Bytes, behind, split_at_byte};
use swh_fastgrammar::{Change, Dataref};
use swh_fastlex::{Word, path_before, path_word};

/// The change that a line says.
#[derive(Drop)]
pub enum ChangeLine {
    Whole(Change),
    /// The path is set to the bytes of the data that follow the line.
    Inline { mode: u32, path: Bytes },
    /// A path is longer than it may be. This many bytes of the line could belong to it.
    Over(u64),
    /// None.
    No,
}

/// What a path is set to, and what comes after it.
#[derive(Drop)]
struct FileFront<'a> {
    /// No bytes where those of the data that follow are meant.
    what: Dataref,
    rest: &'a [u8],
}

/// What stands before the path that is set, and what comes after it.
#[derive(Drop)]
struct SetFront<'a> {
    mode: u32,
    what: Dataref,
    rest: &'a [u8],
}

/// A source, and a path.
#[derive(Drop)]
struct Pair {
    source: Bytes,
    path: Bytes,
}

/// The mark, or the word `inline`, that follows a mode and a space.
fn file_front(alloc: Global, text: &[u8]) -> Option<FileFront<'_>>
    ensures some { IfSome result (λ x. BeginsFile text.now x.what x.rest.now) }
    ensures none { IfNone result ((what : Given) (rest : List ℕ) → BeginsFile text.now what rest → ⊥) }
{
    if let Some(rest) = behind(b"inline ", text) {
        let what = Dataref::Inline(Bytes::from_vec(Vec::new(alloc)));
        return Some(FileFront { what, rest });
    }
    let Some(marked) = behind(b":", text) else {
        return None;
    };
    let Some((number, rest)) = split_at_byte(marked, b' ') else {
        return None;
    };
    let Some(mark) = mark_of(number) else {
        return None;
    };
    let what = Dataref::Mark(mark);
    Some(FileFront { what, rest })
}

/// The id of a revision that is linked to, after its mode and a space.
fn link_front(text: &[u8]) -> Option<SetFront<'_>>
    ensures some { IfSome result (λ x. BeginsSet (codes "160000 " ++ text.now) x.mode x.what x.rest.now) }
    ensures none { IfNone result ((mode : ℕ) (what : Given) (rest : List ℕ)
        → BeginsSet (codes "160000 " ++ text.now) mode what rest → ⊥) }
{
    let Some((digits, rest)) = split_at_byte(text, b' ') else {
        return None;
    };
    let Some(id) = id_of(digits) else {
        return None;
    };
    Some(SetFront {
        mode: 160_000,
        what: Dataref::Hex(id),
        rest,
    })
}

/// What stands before a path that is set.
fn set_front(alloc: Global, text: &[u8]) -> Option<SetFront<'_>>
    ensures some { IfSome result (λ x. BeginsSet text.now x.mode x.what x.rest.now) }
    ensures none { IfNone result ((mode : ℕ) (what : Given) (rest : List ℕ) → BeginsSet text.now mode what rest → ⊥) }
{
    if let Some(link) = behind(b"160000 ", text) {
        return link_front(link);
    }
    let Some((word, after)) = split_at_byte(text, b' ') else {
        return None;
    };
    let Some(mode) = mode_of(word) else {
        return None;
    };
    let Some(FileFront { what, rest }) = file_front(alloc, after) else {
        return None;
    };
    Some(SetFront { mode, what, rest })
}

/// The line that sets a path.
fn set_to(mode: u32, what: Dataref, path: Bytes) -> ChangeLine
    ensures { result ≡ set_line_of mode what path }
{
    match what {
        Dataref::Inline(_) => ChangeLine::Inline { mode, path },
        Dataref::Mark(mark) => ChangeLine::Whole(Change::Set {
            mode,
            what: Dataref::Mark(mark),
            path,
        }),
        Dataref::Hex(id) => ChangeLine::Whole(Change::Set {
            mode,
            what: Dataref::Hex(id),
            path,
        }),
    }
}

/// A line `M`, from what follows its word on.
fn set_line(alloc: Global, text: &[u8]) -> Result<ChangeLine, AllocError>
    ensures { IfOk result (IsChangeLine (LineSays (codes "M " ++ text.now)) (PassesPaths (codes "M " ++ text.now))) }
{
    let Some(front) = set_front(alloc, text) else {
        return Ok(ChangeLine::No);
    };
    match path_word(alloc, front.rest)? {
        Word::Is(path) => Ok(set_to(front.mode, front.what, path)),
        Word::Over(number) => Ok(ChangeLine::Over(number)),
        Word::No => Ok(ChangeLine::No),
    }
}

/// A line `D`, from what follows its word on.
fn delete_line(alloc: Global, text: &[u8]) -> Result<ChangeLine, AllocError>
    ensures { IfOk result (IsChangeLine (LineSays (codes "D " ++ text.now)) (PassesPaths (codes "D " ++ text.now))) }
{
    match path_word(alloc, text)? {
        Word::Is(path) => Ok(ChangeLine::Whole(Change::Delete { path })),
        Word::Over(number) => Ok(ChangeLine::Over(number)),
        Word::No => Ok(ChangeLine::No),
    }
}

/// A source, a space and a path.
fn pair_word(alloc: Global, text: &[u8]) -> Result<Word<Pair>, AllocError>
    ensures { IfOk result (IsWord (λ x. IsPair text.now x.source x.path) (PassesPair text.now)) }
{
    let source = match path_before(alloc, text, b' ')? {
        Word::Is(source) => source,
        Word::Over(number) => return Ok(Word::Over(number)),
        Word::No => return Ok(Word::No),
    };
    match path_word(alloc, &text[source.length..])? {
        Word::Is(path) => Ok(Word::Is(Pair {
            source: source.path,
            path,
        })),
        Word::Over(number) => Ok(Word::Over(number)),
        Word::No => Ok(Word::No),
    }
}

/// A line `C`, from what follows its word on.
fn copy_line(alloc: Global, text: &[u8]) -> Result<ChangeLine, AllocError>
    ensures { IfOk result (IsChangeLine (LineSays (codes "C " ++ text.now)) (PassesPaths (codes "C " ++ text.now))) }
{
    match pair_word(alloc, text)? {
        Word::Is(pair) => Ok(ChangeLine::Whole(Change::Copy {
            source: pair.source,
            path: pair.path,
        })),
        Word::Over(number) => Ok(ChangeLine::Over(number)),
        Word::No => Ok(ChangeLine::No),
    }
}

/// A line `R`, from what follows its word on.
fn move_line(alloc: Global, text: &[u8]) -> Result<ChangeLine, AllocError>
    ensures { IfOk result (IsChangeLine (LineSays (codes "R " ++ text.now)) (PassesPaths (codes "R " ++ text.now))) }
{
    match pair_word(alloc, text)? {
        Word::Is(pair) => Ok(ChangeLine::Whole(Change::Move {
            source: pair.source,
            path: pair.path,
        })),
        Word::Over(number) => Ok(ChangeLine::Over(number)),
        Word::No => Ok(ChangeLine::No),
    }
}

/// The change that the line says, which is given without its LF: `deleteall`, or `M`, `D`, `C` or `R` and what they
/// want. A line `M` with `inline` says it together with the data that follow.
///
/// # Errors
///
/// Memory ran out.
pub fn change_line(alloc: Global, line: &[u8]) -> Result<ChangeLine, AllocError>
    ensures { IfOk result (IsChangeLine (LineSays line.now) (PassesPaths line.now)) }
{
    if line == b"deleteall".as_slice() {
        return Ok(ChangeLine::Whole(Change::Clear));
    }
    if let Some(text) = behind(b"M ", line) {
        return set_line(alloc, text);
    }
    if let Some(text) = behind(b"D ", line) {
        return delete_line(alloc, text);
    }
    if let Some(text) = behind(b"C ", line) {
        return copy_line(alloc, text);
    }
    if let Some(text) = behind(b"R ", line) {
        return move_line(alloc, text);
    }
    Ok(ChangeLine::No)
}
