//! Names that are known to be closed.
use std::alloc::Global;
use std::collections::BTreeSet;
use std::marker::Model;
use swh_base::{Memory, Name};

/// A set of names, seen as the list of them. It is ordered: strangers choose names, and no choice makes a look-up longer
/// than the logarithm of their number.
#[derive(Drop)]
pub struct Closed {
    names: BTreeSet<Name>,
}

impl Model for Closed {
    ghost use Rattle.std.specs.Prelude.{List};
    ghost use Rattle.swh_base.specs.declared.name.Name.{Name};

    ghost Value = { List Name };

    ghost view = { λ c. c.names.keys };
}

impl Closed {
    ghost use Rattle.std.specs.Prelude.{◌≡◌, ◌+◌, ◌^◌, ◌<◌, ◌↔◌, ◌⊎◌, [], false, IsTrue, Contains, IfOk, OnOk, OnErr, length, if◌then◌else◌};
    ghost use Rattle.std.specs.List.Sorted.{IsStrictlySortedBy};
    ghost use Rattle.swh_base.specs.declared.name.Name.{Name};
    ghost use Rattle.swh_base.specs.Name.{name_cmp};

    pub fn new(alloc: Global) -> Closed
        ensures { result ≡ [] }
    {
        Closed {
            names: BTreeSet::new(alloc),
        }
    }

    /// Whether a name is among these. It takes no memory.
    pub fn contains(&self, name: &Name) -> bool
        ensures { IsTrue result ↔ Contains self.now name.now }
    {
        self.names.contains(name)
    }

    /// Adds a name, unless it is there.
    pub fn add(&mut self, name: Name) -> Result<(), Memory>
        ensures ok { OnOk result ((n : Name) → Contains self.new n ↔ (Contains self.old n ⊎ (name ≡ n))) }
        ensures once { Contains self.old name → self.new ≡ self.old }
        ensures more { OnOk result ((Contains self.old name → ⊥) → length self.new ≡ length self.old + 1) }
        ensures err { OnErr result (self.new ≡ self.old) }
    {
        self.names.insert(name)?;
        Ok(())
    }

    /// Adds a name, and answers whether it was not there.
    pub(crate) fn insert(&mut self, name: Name) -> Result<bool, Memory>
        ensures ok { OnOk result ((n : Name) → Contains self.new n ↔ (Contains self.old n ⊎ (name ≡ n))) }
        ensures fresh { IfOk result (λ added. IsTrue added → Contains self.old name → ⊥) }
        ensures same { IfOk result (λ added. added ≡ false → self.new ≡ self.old) }
        ensures count { IfOk result (λ added. length self.new ≡ length self.old + (if added then 1 else 0)) }
        ensures err { OnErr result (self.new ≡ self.old) }
    {
        let added = self.names.insert(name)?;
        Ok(added)
    }

    /// Adds all names of another set. Where memory runs out some of them are added.
    pub(crate) fn join(&mut self, other: Closed) -> Result<(), Memory>
        ensures stays { (n : Name) → Contains self.old n → Contains self.new n }
        ensures only { (n : Name) → Contains self.new n → Contains self.old n ⊎ Contains other n }
        ensures all { OnOk result ((n : Name) → Contains other n → Contains self.new n) }
    {
        let Closed { mut names } = other;
        self.names.append(&mut names)?;
        Ok(())
    }

    /// How many names there are.
    pub fn len(&self) -> usize
        ensures value { result ≡ length self.now }
        ensures small { result < 2 ^ 63 }
        ensures ascending { IsStrictlySortedBy name_cmp self.now }
    {
        self.names.len()
    }

    /// The names in ascending order, each once.
    pub fn list(&self, alloc: Global) -> Result<Vec<Name>, Memory>
        ensures same { IfOk result (λ names. names.items ≡ self.now) }
        ensures ascending { IsStrictlySortedBy name_cmp self.now }
    {
        let _count = self.names.len();
        let names = self.names.iter().copied().collect(alloc)?;
        Ok(names)
    }
}
