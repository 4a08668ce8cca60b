//! That the files of a directory, set at their paths, make the directory again.
ghost use Rattle.std.specs.Prelude.{◌≡◌, ℕ, List, [], Some};
ghost use Rattle.swh_base.specs.declared.kind.Kind.{Kind};
ghost use Rattle.swh_base.specs.declared.kind.Kind.TheVariants.{Directory};
ghost use Rattle.swh_base.specs.declared.name.Name.{Name as Named};
ghost use Rattle.swh_model.specs.Archive.{Bodies, body_of};
ghost use Rattle.swh_model.specs.Meaning.{Made as Object};
ghost use Rattle.swh_trees.specs.Directory.{directory_of};
ghost use Rattle.swh_pathwalk.specs.Tree.{Tree, IsTreeOf, entries_in, path_walk};
ghost use Rattle.swh_fastmeaning.specs.Commands.{IsDirectoryIn};
ghost use Rattle.swh_roundtrip.specs.Made.{IsHeldMade};
ghost use Rattle.swh_roundtrip.specs.Sound.{AreNamed};
ghost use Rattle.swh_roundtrip.specs.Trees.{with_rows, HasNoEmptyFolder};

/// Where each body stands under its name, and no folder is empty, the entries of a directory, set at their paths in the
/// order of its path walk, make that directory.
pub fn files_make_their_directory()
    ensures { (id : Kind → List ℕ → List ℕ) (bodies : Bodies) (name : Named) (tree : Tree) → AreNamed id bodies
        → IsTreeOf bodies name tree → HasNoEmptyFolder tree
        → directory_of id (with_rows (path_walk [] tree) []) ≡ entries_in tree }
{}

/// Each folder that they make is a directory that is held.
pub fn folders_are_held()
    ensures { (id : Kind → List ℕ → List ℕ) (bodies : Bodies) (name : Named) (tree : Tree) (object : Object)
        → AreNamed id bodies → name.kind ≡ Directory → IsTreeOf bodies name tree → HasNoEmptyFolder tree
        → IsDirectoryIn id (with_rows (path_walk [] tree) []) object → IsHeldMade bodies object }
{}
