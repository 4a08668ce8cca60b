// Where inputs are opened.
ghost use Rattle.std.specs.Prelude.{◌≡◌, ◌≢◌, ◌≤◌, ◌<◌, List, ℕ, Option, Some, None};
ghost use Rattle.swh_outside.specs.Faults.{Rose};
ghost use Rattle.swh_outside.specs.Folder.{Tree};
ghost use Rattle.swh_outside.specs.Opened.{IfFound, IsFailed, IsNotFound, UnlessFailed, UnlessMemory};

use crate::{Folder, Opened, Source};

/// The inputs outside, files and folders by their paths. It counts its faults per path too, and what it gives back
/// counts at the path where it was opened.
pub trait Origins: Send {
    type S: Source;

    type F: Folder;

    /// The implementation tells what its files hold.
    ghost tells: { Type 0 };

    /// The bytes of the file at a path, if there is one. A call does not change them.
    ghost file_at: { Self → List ℕ → Option (List ℕ) };

    /// What the folder at a path holds, if there is one. A call does not change it.
    ghost folder_at: { Self → List ℕ → Option Tree };

    /// How often it has failed, what it gave included once it is given back.
    ghost faults: { Self → ℕ };

    /// How often it has failed at a path.
    ghost path_faults: { Self → List ℕ → ℕ };

    /// A path has a place for its count: something was opened there before.
    ghost has_place: { Self → List ℕ → Type 0 };

    /// Opens a file.
    fn file(&mut self, path: &str) -> Opened<Self::S>
        ensures found { tells → IfFound result (λ source. file_at self.old path.now ≡ Some (Self.S.left source)) }
        ensures absent { tells → IsNotFound result → file_at self.old path.now ≡ None }
        ensures source_tells { tells → Self.S.tells }
        ensures source_path { IfFound result (λ source. Self.S.path source ≡ path.now) }
        ensures no_fault { IfFound result (λ source. Self.S.faults source ≡ 0) }

        ensures same_files { tells → (p : List ℕ) → file_at self.new p ≡ file_at self.old p }
        ensures same_folders { tells → (p : List ℕ) → folder_at self.new p ≡ folder_at self.old p }

        ensures later { faults self.old ≤ faults self.new }
        ensures path_later { (p : List ℕ) → path_faults self.old p ≤ path_faults self.new p }
        ensures cause { IsFailed result → Rose (faults self.old) (faults self.new) }
        ensures path_cause { IsFailed result → Rose (path_faults self.old path.now) (path_faults self.new path.now) }

        // Nothing is counted where it does not fail, and never at another path.
        ensures quiet { UnlessFailed result (faults self.new ≡ faults self.old) }
        ensures path_quiet { UnlessFailed result (path_faults self.new path.now ≡ path_faults self.old path.now) }
        ensures other_paths { (p : List ℕ) → p ≢ path.now → path_faults self.new p ≡ path_faults self.old p }

        ensures place { UnlessMemory result (has_place self.new path.now) }
        ensures places { (p : List ℕ) → has_place self.old p → has_place self.new p };

    /// Opens a folder.
    fn folder(&mut self, path: &str) -> Opened<Self::F>
        ensures found { tells → IfFound result (λ folder. folder_at self.old path.now ≡ Some (Self.F.holds folder)) }
        ensures absent { tells → IsNotFound result → folder_at self.old path.now ≡ None }
        ensures folder_tells { tells → Self.F.tells }
        ensures folder_path { IfFound result (λ folder. Self.F.opened_at folder ≡ path.now) }
        ensures no_fault { IfFound result (λ folder. Self.F.faults folder ≡ 0) }

        ensures same_files { tells → (p : List ℕ) → file_at self.new p ≡ file_at self.old p }
        ensures same_folders { tells → (p : List ℕ) → folder_at self.new p ≡ folder_at self.old p }

        ensures later { faults self.old ≤ faults self.new }
        ensures path_later { (p : List ℕ) → path_faults self.old p ≤ path_faults self.new p }
        ensures cause { IsFailed result → Rose (faults self.old) (faults self.new) }
        ensures path_cause { IsFailed result → Rose (path_faults self.old path.now) (path_faults self.new path.now) }

        // Nothing is counted where it does not fail, and never at another path.
        ensures quiet { UnlessFailed result (faults self.new ≡ faults self.old) }
        ensures path_quiet { UnlessFailed result (path_faults self.new path.now ≡ path_faults self.old path.now) }
        ensures other_paths { (p : List ℕ) → p ≢ path.now → path_faults self.new p ≡ path_faults self.old p }

        ensures place { UnlessMemory result (has_place self.new path.now) }
        ensures places { (p : List ℕ) → has_place self.old p → has_place self.new p };

    /// Takes a source back. Where it has failed, the count rises, and that of its path;
    /// else all counts stay. The count of another path stays where it has a place.
    fn back(&mut self, source: Self::S)
        ensures same_files { tells → (p : List ℕ) → file_at self.new p ≡ file_at self.old p }
        ensures same_folders { tells → (p : List ℕ) → folder_at self.new p ≡ folder_at self.old p }
        ensures later { faults self.old ≤ faults self.new }
        ensures path_later { (p : List ℕ) → path_faults self.old p ≤ path_faults self.new p }
        ensures cause { 0 < Self.S.faults source → Rose (faults self.old) (faults self.new) }
        ensures path_cause { 0 < Self.S.faults source → Rose (path_faults self.old (Self.S.path source))
            (path_faults self.new (Self.S.path source)) }

        ensures quiet { Self.S.faults source ≡ 0 → faults self.new ≡ faults self.old }
        ensures path_quiet { Self.S.faults source ≡ 0 → (p : List ℕ) → path_faults self.new p ≡ path_faults self.old p }
        ensures other_paths { (p : List ℕ) → p ≢ Self.S.path source → has_place self.old p
            → path_faults self.new p ≡ path_faults self.old p }
        ensures places { (p : List ℕ) → has_place self.old p → has_place self.new p };

    /// Takes a folder back. Where it has failed, the count rises, and that of its path;
    /// else all counts stay. The count of another path stays where it has a place.
    fn back_folder(&mut self, folder: Self::F)
        ensures same_files { tells → (p : List ℕ) → file_at self.new p ≡ file_at self.old p }
        ensures same_folders { tells → (p : List ℕ) → folder_at self.new p ≡ folder_at self.old p }
        ensures later { faults self.old ≤ faults self.new }
        ensures path_later { (p : List ℕ) → path_faults self.old p ≤ path_faults self.new p }
        ensures cause { 0 < Self.F.faults folder → Rose (faults self.old) (faults self.new) }
        ensures path_cause { 0 < Self.F.faults folder → Rose (path_faults self.old (Self.F.opened_at folder))
            (path_faults self.new (Self.F.opened_at folder)) }

        ensures quiet { Self.F.faults folder ≡ 0 → faults self.new ≡ faults self.old }
        ensures path_quiet { Self.F.faults folder ≡ 0 → (p : List ℕ) → path_faults self.new p ≡ path_faults self.old p }
        ensures other_paths { (p : List ℕ) → p ≢ Self.F.opened_at folder → has_place self.old p
            → path_faults self.new p ≡ path_faults self.old p }
        ensures places { (p : List ℕ) → has_place self.old p → has_place self.new p };
}
