// The next line of a listing.
ghost use Rattle.std.specs.Prelude.{◌≡◌, ◌≤◌, ◌<◌, IfOk, IfErr, IfSome, IfNone};
ghost use Rattle.swh_fastlex.specs.ReadOn.{IsReadOn};
ghost use Rattle.swh_fastlex.specs.Line.{unread, IsAtEnd};
ghost use Rattle.swh_listing.specs.declared.fault.ListingFault.TheVariants.{ReadFault as NotRead};
ghost use Rattle.swh_listing.specs.Fault.{NextBreaks, MayBreak};
ghost use Rattle.swh_listing.specs.Reading.{SaysWithin, ExplainsLine, too_long, told, TakesListed};

use crate::fault::ListingFault;
use crate::limits::LISTING_LIMIT;
use crate::listed::Listed;
use crate::row::listed_line;
use std::alloc::Global;
use swh_base::{LINE_LIMIT, Which};
use swh_fastlex::{LineFault, Window, Word, next_line};
use swh_outside::Source;

/// The fault of a listing that is too long.
fn too_long() -> ListingFault
    ensures { result ≡ too_long }
{
    ListingFault::Limit {
        which: Which::Stream,
        number: LISTING_LIMIT + 1,
    }
}

/// Why no line of this number is given where the window stands at this place behind it.
fn fault_told(fault: LineFault, place: u64, count: u64) -> ListingFault
    ensures { result ≡ told fault place count }
{
    match fault {
        LineFault::Failed => ListingFault::ReadFault,
        LineFault::End if place > LISTING_LIMIT => too_long(),
        LineFault::End => ListingFault::BadModes { line: count },
        LineFault::Limit if place < LISTING_LIMIT => ListingFault::Limit {
            which: Which::Line,
            number: LINE_LIMIT as u64 + 1,
        },
        LineFault::Limit => too_long(),
        LineFault::Memory => ListingFault::Memory,
    }
}

/// What a line of this number says, which is given without its LF.
fn said_by(alloc: Global, line: &[u8], count: u64) -> Result<Listed, ListingFault>
    ensures ok { IfOk result (SaysWithin line.now) }
    ensures err { IfErr result (ExplainsLine line.now count) }
{
    match listed_line(alloc, line)? {
        Word::Is(listed) => Ok(listed),
        Word::Over(number) => Err(ListingFault::Limit {
            which: Which::Path,
            number,
        }),
        Word::No => Err(ListingFault::BadModes { line: count }),
    }
}

/// What the next line says, whose number is `count`. None where nothing is to be read.
///
/// # Errors
///
/// The next line is none of a listing, or passes a limit; the source fails, or memory runs out.
pub fn next_listed<S: Source>(
    alloc: Global,
    window: &mut Window,
    source: &mut S,
    count: u64,
) -> Result<Option<Listed>, ListingFault>
    requires place { window.old.place ≤ LISTING_LIMIT }
    requires count { 1 ≤ count }
    ensures some { S.tells → IfOk result (λ found. IfSome found (TakesListed window.old window.new (S.left source.old)
        (S.left source.new))) }
    ensures none { S.tells → IfOk result (λ found. IfNone found (IsAtEnd window.old window.new (S.left source.old)
        (S.left source.new))) }
    ensures err { S.tells → IfErr result (NextBreaks window.old.place (unread window.old (S.left source.old)) count) }
    ensures may { IfErr result MayBreak }
    ensures onward { IfOk result (λ found. IfSome found (λ _. window.old.place < window.new.place)) }
    ensures within { IfOk result (λ found. IfSome found (λ _. window.new.place ≤ LISTING_LIMIT)) }

    ensures on { IsReadOn S.path S.faults source.old source.new NotRead result }
{
    let found = match next_line(alloc, window, source) {
        Ok(found) => found,
        Err(fault) => return Err(fault_told(fault, window.place(), count)),
    };
    let Some(line) = found else {
        return Ok(None);
    };
    if window.place() > LISTING_LIMIT {
        return Err(too_long());
    }
    let listed = match said_by(alloc, &line[..line.len() - 1], count) {
        Ok(listed) => listed,
        Err(refused) => return Err(refused),
    };
    Ok(Some(listed))
}
