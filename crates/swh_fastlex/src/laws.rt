//! What the definitions determine.
ghost use Rattle.std.specs.Prelude.{◌≡◌, ◌≢◌, ℕ, List};
ghost use Rattle.swh_fastlex.specs.Path.{SpellsPath};
ghost use Rattle.swh_fastlex.specs.declared.source.TheConstants.{WINDOW as window_size};

/// A text begins with a spelling of one path at most, and it ends at one place.
pub fn one_spelled_path()
    ensures { (stop : ℕ) (text p q x y : List ℕ) → stop ≢ 34 → SpellsPath stop text p x → SpellsPath stop text q y
        → (p ≡ q) × (x ≡ y) }
{}

/// A window holds as many bytes.
pub fn size_of_a_window()
    ensures { window_size ≡ 65536 }
{}
