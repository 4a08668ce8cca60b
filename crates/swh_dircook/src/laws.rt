//! That what is written is read again.
ghost use Rattle.std.specs.Prelude.{◌≤◌, List, length};
ghost use Rattle.std.specs.List.{AllByRecursion};
ghost use Rattle.swh_listing.specs.declared.limits.TheConstants.{LISTING_LIMIT as most};
ghost use Rattle.swh_listing.specs.declared.listed.Listed.{Listed as Line};
ghost use Rattle.swh_listing.specs.Listing.{IsListing};
ghost use Rattle.swh_dircook.specs.Listing.{lines_text, MayBeListed};

/// A listing that is within the limit is read as the lines that were written, in their order.
pub fn listings_are_read_again()
    ensures { (lines : List Line) → AllByRecursion MayBeListed lines → length (lines_text lines) ≤ most
        → IsListing (lines_text lines) lines }
{}
