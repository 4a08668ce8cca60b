// A whole listing.
ghost use Rattle.std.specs.Prelude.{◌≡◌, [], IfOk, IfErr};
ghost use Rattle.swh_fastlex.specs.ReadOn.{IsReadOn};
ghost use Rattle.swh_listing.specs.declared.fault.ListingFault.TheVariants.{ReadFault as NotRead};
ghost use Rattle.swh_listing.specs.Fault.{MayBreak};
ghost use Rattle.swh_listing.specs.Listing.{IsListing};
ghost use Rattle.swh_listing.specs.Reading.{Explains};

use crate::fault::ListingFault;
use crate::listed::Listed;
use crate::next::next_listed;
use std::alloc::Global;
use swh_fastlex::Window;
use swh_outside::Source;

/// What the lines of a listing say, which is all that is left of the source.
///
/// # Errors
///
/// The first line that is none of a listing, or the first limit that the listing passes; the source fails, or memory
/// runs out. What is left of the source after a refusal is not promised.
pub fn read_listing<S: Source>(alloc: Global, source: &mut S) -> Result<Vec<Listed>, ListingFault>
    ensures lines { S.tells → IfOk result (λ lines. IsListing (S.left source.old) lines.items) }
    ensures whole { S.tells → IfOk result (λ _. S.left source.new ≡ []) }
    ensures err { S.tells → IfErr result (Explains (S.left source.old)) }
    // Also of a source that does not tell what is left.
    ensures may { IfErr result MayBreak }

    ensures on { IsReadOn S.path S.faults source.old source.new NotRead result }
{
    let mut window = Window::new(alloc)?;
    let mut lines = Vec::new(alloc);
    'lines: while let Some(listed) = next_listed(
        alloc,
        &mut window,
        source,
        lines.len() as u64 + 1,
    )? {
        lines.push(listed)?;
    }
    Ok(lines)
}
