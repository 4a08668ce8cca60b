//! That an archive which is damaged has one first harm, and then stands for no history.
ghost use Rattle.std.specs.Prelude.{◌≡◌, ℕ, List};
ghost use Rattle.swh_base.specs.declared.kind.Kind.{Kind};
ghost use Rattle.swh_recovery.specs.declared.harm.Harm.{Harm};
ghost use Rattle.swh_keeper.specs.Damage.{IsDamagedAt};
ghost use Rattle.swh_keeper.specs.Opening.{IsDamaged};

/// Two files have one first harm at most, in one file and at one place.
pub fn one_damage()
    ensures { (id_of : Kind → List ℕ → List ℕ) (ledger store : List ℕ) (file at file' at' : ℕ) (harm harm' : Harm)
        → IsDamagedAt id_of ledger store file at harm → IsDamagedAt id_of ledger store file' at' harm'
        → (file ≡ file') × (at ≡ at') × (harm ≡ harm') }
{}

/// Files that have one stand for no history.
pub fn damaged_files_have_no_history()
    ensures { (id_of : Kind → List ℕ → List ℕ) (ledger store : List ℕ) (file at : ℕ) (harm : Harm)
        → IsDamagedAt id_of ledger store file at harm → IsDamaged id_of ledger store }
{}
