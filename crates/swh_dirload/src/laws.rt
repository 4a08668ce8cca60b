//! What the definitions determine.
ghost use Rattle.std.specs.Prelude.{◌≡◌, ◌↔◌, ◌^◌, ◌∷◌, ℕ, List, [], Contains};
ghost use Rattle.swh_base.specs.declared.entry.Entry.{Entry};
ghost use Rattle.swh_base.specs.declared.kind.Kind.{Kind};
ghost use Rattle.swh_base.specs.declared.kind.Kind.TheVariants.{Snapshot};
ghost use Rattle.swh_base.specs.Snapshot.{IsSnapshot};
ghost use Rattle.swh_outside.specs.Folder.{Tree};
ghost use Rattle.swh_model.specs.Meaning.{Made};
ghost use Rattle.swh_dedup.specs.Making.{made};
ghost use Rattle.swh_dirload.specs.declared.fault.DirFault.{DirFault as Fault};
ghost use Rattle.swh_dirload.specs.declared.limits.TheConstants.{FILES_LIMIT as most};
ghost use Rattle.swh_dirload.specs.Items.{Item};
ghost use Rattle.swh_dirload.specs.Walk.{IsWalk};
ghost use Rattle.swh_dirmade.specs.Snapshots.{head};
ghost use Rattle.swh_dirload.specs.Meaning.{MeansFolder, BreaksFolder};
ghost use Rattle.swh_dirload.specs.Root.{HasRoot};

/// A folder has one walk at most.
pub fn one_walk()
    ensures { (tree : Tree) (items others : List Item) → IsWalk tree items → IsWalk tree others → items ≡ others }
{}

/// A folder with its listing means one snapshot at most, whose objects are the same but for their order; it breaks in one
/// way at most, and does not do both.
pub fn one_folder()
    ensures snapshot { (id : Kind → List ℕ → List ℕ) (tree : Tree) (text : List ℕ) (objects others : List Entry)
        (snapshot other : List ℕ) → MeansFolder id tree text objects snapshot → MeansFolder id tree text others other
        → snapshot ≡ other }
    ensures objects { (id : Kind → List ℕ → List ℕ) (tree : Tree) (text : List ℕ) (objects others : List Entry)
        (snapshot other : List ℕ) → MeansFolder id tree text objects snapshot → MeansFolder id tree text others other
        → (m : Made) → Contains (made objects) m ↔ Contains (made others) m }
    ensures fault { (id : Kind → List ℕ → List ℕ) (tree : Tree) (text : List ℕ) (fault other : Fault)
        → BreaksFolder id tree text fault → BreaksFolder id tree text other → fault ≡ other }
    ensures never_both { (id : Kind → List ℕ → List ℕ) (tree : Tree) (text : List ℕ) (objects : List Entry)
        (snapshot : List ℕ) (fault : Fault) → MeansFolder id tree text objects snapshot
        → BreaksFolder id tree text fault → ⊥ }
{}

/// The directory of a folder with its listing has one id at most, and none where they break; the branch `HEAD` of the
/// snapshot that they mean leads to it.
pub fn one_root()
    ensures one { (id : Kind → List ℕ → List ℕ) (tree : Tree) (text root other : List ℕ)
        → HasRoot id tree text root → HasRoot id tree text other → root ≡ other }
    ensures head { (id : Kind → List ℕ → List ℕ) (tree : Tree) (text root : List ℕ) (objects : List Entry)
        (snapshot : List ℕ) → HasRoot id tree text root → MeansFolder id tree text objects snapshot
        → (body : List ℕ) × IsSnapshot body (head root ∷ []) × (snapshot ≡ id Snapshot body) }
    ensures unbroken { (id : Kind → List ℕ → List ℕ) (tree : Tree) (text root : List ℕ) (fault : Fault)
        → HasRoot id tree text root → BreaksFolder id tree text fault → ⊥ }
{}

/// The files of a folder have no more than 4,294,967,296 bytes together.
pub fn limit_of_files()
    ensures { most ≡ 2 ^ 32 }
{}
