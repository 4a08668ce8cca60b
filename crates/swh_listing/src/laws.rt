//! What the definitions determine.
ghost use Rattle.std.specs.Prelude.{◌≡◌, ◌^◌, ℕ, List};
ghost use Rattle.swh_listing.specs.declared.fault.ListingFault.{ListingFault as Fault};
ghost use Rattle.swh_listing.specs.declared.limits.TheConstants.{LISTING_LIMIT as most};
ghost use Rattle.swh_listing.specs.declared.listed.Listed.{Listed as Line};
ghost use Rattle.swh_listing.specs.Fault.{IsFault};
ghost use Rattle.swh_listing.specs.Listing.{IsListing};

/// A text says one listing at most, and where it says one it has no fault.
pub fn one_listing()
    ensures one { (text : List ℕ) (a b : List Line) → IsListing text a → IsListing text b → a ≡ b }
    ensures no_fault { (text : List ℕ) (lines : List Line) (fault : Fault) → IsListing text lines → IsFault text fault → ⊥ }
{}

/// A text has one fault at most.
pub fn one_listing_fault()
    ensures { (text : List ℕ) (a b : Fault) → IsFault text a → IsFault text b → a ≡ b }
{}

/// A listing has no more than 4,294,967,296 bytes.
pub fn limit_of_a_listing()
    ensures { most ≡ 2 ^ 32 }
{}
