// Where links come in.
ghost use Rattle.std.specs.Prelude.{◌≡◌, ◌≤◌, ◌<◌, ◌+◌, ◌-◌, ◌++◌, ◌∷◌, [], List, ℕ, false, IfOk, OnOk, OnErr};
ghost use Rattle.swh_outside.specs.Link.{LinkNote};
ghost use Rattle.swh_outside.specs.Causes.{HasOutCause};

use crate::{Link, OutFault};

/// A listener at an address, and the links that came in.
pub trait Doors: Send {
    type L: Link;

    /// The implementation tells what came of the links given back.
    ghost tells: { Type 0 };

    /// The links given back, the last at the end.
    ghost given_back: { Self → List LinkNote };

    /// How many places are made for links that are out.
    ghost places: { Self → ℕ };

    /// How often it has failed. Its links have counts of their own.
    ghost faults: { Self → ℕ };

    /// Begins to listen at an address.
    fn bind(&mut self, addr: &str) -> Result<(), OutFault>
        ensures same_back { tells → given_back self.new ≡ given_back self.old }
        ensures same_places { tells → places self.new ≡ places self.old }
        ensures cause { HasOutCause (faults self.old) (faults self.new) result };

    /// Waits for the next link. Its place to be given back to is made here.
    fn accept(&mut self) -> Result<Self::L, OutFault>
        ensures link_tells { tells → Self.L.Source.tells }
        ensures no_fault { IfOk result (λ link. Self.L.Source.faults link ≡ 0) }
        ensures nothing_given { tells → IfOk result (λ link. Self.L.given link ≡ []) }
        ensures nothing_ended { tells → IfOk result (λ link. Self.L.ended link ≡ false) }
        ensures nothing_taken { tells → IfOk result (λ link. Self.L.taken link ≡ []) }
        ensures same_back { tells → given_back self.new ≡ given_back self.old }
        ensures place { tells → OnOk result (places self.new ≡ places self.old + 1) }
        ensures no_place { tells → OnErr result (places self.new ≡ places self.old) }
        ensures cause { HasOutCause (faults self.old) (faults self.new) result };

    /// Takes a link back, and notes what came of it. The doors' own count stays.
    fn back(&mut self, link: Self::L)
        ensures noted { tells → 0 < places self.old → given_back self.new ≡ given_back self.old
            ++ record { given = Self.L.given link; ended = Self.L.ended link; taken = Self.L.taken link; faults = Self.L.Source.faults link } ∷ [] }
        ensures place { tells → places self.new ≡ places self.old - 1 }
        ensures same_count { faults self.new ≡ faults self.old };
}
