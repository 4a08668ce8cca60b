//! What the definitions determine.
ghost use Rattle.std.specs.Prelude.{◌≡◌, ℕ, List};
ghost use Rattle.swh_base.specs.declared.entry.Entry.{Entry};
ghost use Rattle.swh_base.specs.declared.kind.Kind.{Kind};
ghost use Rattle.swh_model.specs.Meaning.{Made};
ghost use Rattle.swh_batchread.specs.Batch.{input_limit, MeansObjects};
ghost use Rattle.swh_batchread.specs.BatchFault.{BreaksBatch};
ghost use Rattle.swh_dedup.specs.Making.{made};
ghost use Rattle.swh_batchread.specs.Refs.{refs_limit, MeansRefs};
ghost use Rattle.swh_batchread.specs.RefsFault.{BreaksRefs};
ghost use Rattle.swh_batchread.specs.declared.fault.BatchFault.{BatchFault as Fault};

/// A batch means one list of objects at most, breaks in one way at most, and does not do both.
pub fn one_batch()
    ensures meaning { (id : Kind → List ℕ → List ℕ) (text : List ℕ) (objects others : List Made)
        → MeansObjects id text objects → MeansObjects id text others → objects ≡ others }
    ensures fault { (id : Kind → List ℕ → List ℕ) (text : List ℕ) (fault other : Fault)
        → BreaksBatch id text fault → BreaksBatch id text other → fault ≡ other }
    ensures never_both { (id : Kind → List ℕ → List ℕ) (text : List ℕ) (objects : List Made) (fault : Fault)
        → MeansObjects id text objects → BreaksBatch id text fault → ⊥ }
{}

/// With the objects of a batch a file of refs gives one list of objects at most, breaks in one way at most, and does not do
/// both.
pub fn one_refs()
    ensures meaning { (text : List ℕ) (objects given others : List Entry) (id other : List ℕ)
        → MeansRefs text objects given id → MeansRefs text objects others other → made given ≡ made others }
    ensures fault { (text : List ℕ) (objects : List Entry) (fault other : Fault)
        → BreaksRefs text objects fault → BreaksRefs text objects other → fault ≡ other }
    ensures never_both { (text : List ℕ) (objects given : List Entry) (id : List ℕ) (fault : Fault)
        → MeansRefs text objects given id → BreaksRefs text objects fault → ⊥ }
{}

/// A batch, and a file of refs, has as many bytes at most.
pub fn limit_of_input()
    ensures { input_limit ≡ 4294967296 }
{}

/// A file has as many refs at most, `HEAD` and what is skipped apart.
pub fn limit_of_refs()
    ensures { refs_limit ≡ 65536 }
{}
