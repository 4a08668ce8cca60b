//! What was made of a directory is loaded as the directory.

ghost use Rattle.std.specs.Prelude.{◌≡◌, ℕ, List, Option, length};
ghost use Rattle.swh_base.specs.declared.kind.Kind.{Kind};
ghost use Rattle.swh_base.specs.declared.kind.Kind.TheVariants.{Directory};
ghost use Rattle.swh_base.specs.declared.name.Name.{Name};
ghost use Rattle.swh_outside.specs.Folder.{Tree};
ghost use Rattle.swh_model.specs.Archive.{Bodies, IsGraphOf};
ghost use Rattle.swh_postorder.specs.Postorder.{IsPostorder};
ghost use Rattle.swh_carried.specs.Uncarried.{AreCarried};
ghost use Rattle.swh_dircook.specs.Cook.{IsCarriedFolder, IsFolderOf, MakesFolder};
ghost use Rattle.swh_dircook.specs.Listing.{listing_text};
ghost use Rattle.swh_dircook.specs.Made.{Made, Yarded};
ghost use Rattle.swh_dircook.specs.Rules.{BreaksInFolder};
ghost use Rattle.swh_cook.specs.FolderBack.{AreGoodBodies, AreOfBytes, HoldsMade, LoadsBack};

/// A folder that holds what was made of a directory means, with the listing that was made, a snapshot of the one branch `HEAD`
/// to that directory: where all that is reached is held, in bodies that stand under their names and are within the limit, with
/// directories that are made of bytes, and a folder carries it.
pub fn what_was_made_loads_back()
    ensures { (id : Kind → List ℕ → List ℕ) (bodies : Bodies) (children_of : Name → Option (List Name)) (root : Name)
        (order : List Name) (out : List ℕ) (made : List Made) (tree : Tree) → AreGoodBodies id bodies
        → AreOfBytes bodies order → IsGraphOf bodies children_of → root.kind ≡ Directory → length root.id ≡ 20
        → IsPostorder children_of root order → AreCarried children_of (BreaksInFolder bodies root) order
        → (folder : IsFolderOf bodies root out made) → HoldsMade out made tree
        → LoadsBack id tree (listing_text folder.rows) root }
{}

/// The same as the cooking of a directory tells it, where it answers: all that is reached is held, and a folder carries it;
/// and what was made is the whole folder.
pub fn made_folders_load_back()
    ensures { (id : Kind → List ℕ → List ℕ) (bodies : Bodies) (children_of : Name → Option (List Name)) (root : Name)
        (out : List ℕ) (old new : Yarded) (tree : Tree) (c : IsCarriedFolder bodies children_of root)
        (m : MakesFolder bodies root out old new) → AreGoodBodies id bodies → AreOfBytes bodies c.order
        → IsGraphOf bodies children_of → root.kind ≡ Directory → length root.id ≡ 20 → HoldsMade out m.made tree
        → LoadsBack id tree (listing_text m.folder.rows) root }
{}

/// Some tree holds what was made of a directory: there is always a folder that the laws before speak of.
pub fn some_folder_holds_what_was_made()
    ensures { (bodies : Bodies) (root : Name) (out : List ℕ) (made : List Made) → IsFolderOf bodies root out made
        → (tree : Tree) × HoldsMade out made tree }
{}
