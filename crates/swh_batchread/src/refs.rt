//! Refs that are read of a file (git-show-ref(1)), line by line.
ghost use Rattle.std.specs.Prelude.{◌≡◌, ◌≤◌, ◌+◌, ℕ, List, [], false, IfOk, IfErr, IfSome, IfNone, OnOk, IsTrue, codes, length, Contains, map, if◌then◌else◌};
ghost use Rattle.std.specs.Ordering.{nat_cmp};
ghost use Rattle.std.specs.BTreeMap.{is_at};
ghost use Rattle.std.specs.Cmp.Lexicographic.{slice_cmp};
ghost use Rattle.swh_base.specs.Limits.{line_limit};
ghost use Rattle.swh_fastlex.specs.Line.{unread, Takes, IsAtEnd, IsLine};
ghost use Rattle.swh_fastlex.specs.ReadOn.{IsReadOn};
ghost use Rattle.swh_batchread.specs.declared.fault.BatchFault.TheVariants.{ReadFault as NotRead};
ghost use Rattle.swh_batchread.specs.Failing.{Fails};
ghost use Rattle.swh_batchread.specs.Refs.{RefLine, kept_refs};
ghost use Rattle.swh_batchread.specs.RefsFault.{LineBreaks, RefBreaks, BreaksLines, MayBreakLines};
ghost use Rattle.swh_batchread.specs.RefSteps.{line_of, told, HasNone, Holds, PutsRef, TakesLine, GivesLines};

use crate::fault::BatchFault;
use crate::limits::{INPUT_LIMIT, REFS_LIMIT};
use crate::ref_line::{RefIn, is_peeled, ref_in};
use std::alloc::Global;
use std::collections::BTreeMap;
use swh_base::{LINE_LIMIT, Memory, Which};
use swh_fastlex::{LineFault, Window, next_line};
use swh_outside::Source;

/// Refs: the ids that they lead to in the order of their lines, the same by their names, and how many there are beside
/// `HEAD`.
#[derive(Drop)]
pub struct Refs {
    pub ids: Vec<[u8; 20]>,
    pub by_name: BTreeMap<Vec<u8>, [u8; 20]>,
    pub counted: u64,
}

/// No refs.
fn no_refs(alloc: Global) -> Refs
    ensures { Holds [] result }
{
    Refs {
        ids: Vec::new(alloc),
        by_name: BTreeMap::new(alloc),
        counted: 0,
    }
}

/// Whether the name is `HEAD`.
fn is_head(name: &[u8]) -> bool
    ensures { result ≡ is_at (slice_cmp nat_cmp (codes "HEAD")) name.now }
{
    b"HEAD".as_slice().cmp(name).is_eq()
}

/// Whether a ref of this name was met.
fn has_name(refs: &Refs, name: &[u8]) -> bool
    ensures met { (rs : List RefLine) → Holds rs refs.now → IsTrue result
        → Contains (map (λ r. r.name) (kept_refs rs)) name.now }
    ensures none { result ≡ false → HasNone refs.now.by_name.entries name.now }
{
    refs.by_name.contains_key(name)
}

/// How many refs count, with one of this name.
fn count_with(refs: &Refs, name: &[u8]) -> u64
    requires { refs.now.counted ≤ REFS_LIMIT }
    ensures { result ≡ refs.now.counted + (if is_at (slice_cmp nat_cmp (codes "HEAD")) name.now then 0 else 1) }
{
    if is_head(name) {
        refs.counted
    } else {
        refs.counted + 1
    }
}

/// Adds a ref of whose name none was met.
fn put_ref(alloc: Global, refs: &mut Refs, found: &RefIn<'_>, counted: u64) -> Result<(), Memory>
    requires { HasNone refs.old.by_name.entries found.now.name.now }
    ensures { OnOk result (PutsRef (line_of found.now) counted refs.old refs.new) }
{
    let name = Vec::from_slice(alloc, found.name)?;
    let id = found.id;
    refs.ids.push(id)?;
    refs.by_name.insert(name, id)?;
    refs.counted = counted;
    Ok(())
}

/// Takes a line of this number, with its LF, behind those that were read.
fn take_line(alloc: Global, refs: &mut Refs, number: u64, line: &[u8]) -> Result<(), BatchFault>
    requires line { IsLine line.now }
    requires short { length line.now ≤ line_limit }
    requires first { 1 ≤ number }
    requires last { number ≤ INPUT_LIMIT + 1 }
    requires few { refs.old.counted ≤ REFS_LIMIT }
    ensures ok { (rs : List RefLine) → Holds rs refs.old → OnOk result (TakesLine rs line.now refs.new) }
    ensures err { (rs : List RefLine) → Holds rs refs.old → (faults : ℕ)
        → IfErr result (Fails (Unit {0}) MayBreakLines (RefBreaks rs number line.now) faults faults) }
{
    let Some(found) = ref_in(line) else {
        return Err(BatchFault::BadRefs { line: number });
    };
    if is_peeled(found.name) {
        return Ok(());
    }
    if has_name(refs, found.name) {
        return Err(BatchFault::BadRefs { line: number });
    }
    let counted = count_with(refs, found.name);
    if counted > REFS_LIMIT {
        return Err(BatchFault::Limit {
            which: Which::Refs,
            number: REFS_LIMIT + 1,
        });
    }
    put_ref(alloc, refs, &found, counted)?;
    Ok(())
}

/// Why no line of this number is given where so many bytes were given out.
fn line_fault(fault: LineFault, place: u64, number: u64) -> BatchFault
    ensures { result ≡ told fault place number }
{
    match fault {
        LineFault::Failed => BatchFault::ReadFault,
        LineFault::End if place <= INPUT_LIMIT => BatchFault::BadRefs { line: number },
        LineFault::Limit if place < INPUT_LIMIT => BatchFault::Limit {
            which: Which::Line,
            number: LINE_LIMIT as u64 + 1,
        },
        LineFault::End | LineFault::Limit => BatchFault::Limit {
            which: Which::Stream,
            number: INPUT_LIMIT + 1,
        },
        LineFault::Memory => BatchFault::Memory,
    }
}

/// The next line, whose number this is, with its LF; none where nothing is to be read.
fn next_row<S: Source>(
    alloc: Global,
    window: &mut Window,
    source: &mut S,
    number: u64,
) -> Result<Option<Vec<u8>>, BatchFault>
    requires place { window.old.place ≤ INPUT_LIMIT }
    requires first { 1 ≤ number }
    requires last { number ≤ INPUT_LIMIT + 1 }
    ensures line { IfOk result (λ found. IfSome found (λ line. IsLine line.items)) }
    ensures short { IfOk result (λ found. IfSome found (λ line. length line.items ≤ line_limit)) }
    ensures counted { IfOk result (λ found. IfSome found (λ line. window.new.place
        ≡ window.old.place + length line.items)) }
    ensures within { IfOk result (λ found. IfSome found (λ _. window.new.place ≤ INPUT_LIMIT)) }
    ensures taken { S.tells → IfOk result (λ found. IfSome found (λ line. Takes window.old window.new
        (S.left source.old) (S.left source.new) line.items)) }
    ensures none { S.tells → IfOk result (λ found. IfNone found (IsAtEnd window.old window.new
        (S.left source.old) (S.left source.new))) }
    ensures err { IfErr result (Fails S.tells MayBreakLines
        (LineBreaks number window.old.place (unread window.old (S.left source.old)))
        (S.faults source.old) (S.faults source.new)) }

    ensures on { IsReadOn S.path S.faults source.old source.new NotRead result }
{
    let line = match next_line(alloc, window, source) {
        Ok(Some(line)) => line,
        Ok(None) => return Ok(None),
        Err(fault) => return Err(line_fault(fault, window.place(), number)),
    };
    if window.place() > INPUT_LIMIT {
        return Err(BatchFault::Limit {
            which: Which::Stream,
            number: INPUT_LIMIT + 1,
        });
    }
    Ok(Some(line))
}

/// The refs of the lines that are to be read through a window.
pub fn read_lines<S: Source>(
    alloc: Global,
    window: &mut Window,
    source: &mut S,
) -> Result<Refs, BatchFault>
    requires empty { window.old.bytes ≡ [] }
    requires first { window.old.place ≡ 0 }
    ensures ok { IfOk result (GivesLines S.tells (S.left source.old)) }
    ensures read { S.tells → IfOk result (λ _. S.left source.new ≡ []) }
    ensures err { IfErr result (Fails S.tells MayBreakLines (BreaksLines (S.left source.old))
        (S.faults source.old) (S.faults source.new)) }

    ensures on { IsReadOn S.path S.faults source.old source.new NotRead result }
{
    let mut refs = no_refs(alloc);
    let mut number = 1u64;
    'lines: loop {
        let Some(line) = next_row(alloc, window, source, number)? else {
            return Ok(refs);
        };
        take_line(alloc, &mut refs, number, line.as_slice())?;
        number += 1;
    }
}
