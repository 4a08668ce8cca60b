//! What a row weighs.
ghost use Rattle.std.specs.Prelude.{◌≡◌};
ghost use Rattle.swh_base.specs.Directory.{DirectoryEntry};
ghost use Rattle.swh_dirfmt.specs.Entries.{entry_of};
ghost use Rattle.swh_pathsums.specs.declared.weight.Weight.{Weight as Weighed};

use swh_dirfmt::SpelledEntry;

/// How long the text of a row is: so many bytes by its entry, and with them its path, quoted where it has to be, where it is
/// `with_path`.
#[derive(Clone, Copy, Debug, PartialEq, Eq)]
pub struct Weight {
    pub bytes: u64,
    pub with_path: bool,
}

/// What rows weigh by their entries.
pub trait Weigh {
    /// What an entry weighs.
    ghost weight_of: { Self → DirectoryEntry → Weighed };

    /// An entry that may be weighed.
    ghost may_weigh: { Self → DirectoryEntry → Type 0 };

    /// What an entry weighs.
    fn weigh(&self, entry: &SpelledEntry<'_>) -> Weight
        requires { may_weigh self.now (entry_of entry.now) }
        ensures { result ≡ weight_of self.now (entry_of entry.now) };
}
