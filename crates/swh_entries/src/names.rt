//! The names of entries, each kept once under its number.

ghost use Rattle.std.specs.Prelude.{◌≡◌, ◌<◌, length};
ghost use Rattle.std.specs.Ordering.{nat_cmp, is_eq};
ghost use Rattle.std.specs.Cmp.Lexicographic.{slice_cmp};
ghost use Rattle.swh_entries.specs.Keys.{name_at, texts};
ghost use Rattle.swh_entries.specs.Named.{digest_of, first_of, number_of};

use std::alloc::{AllocError, Global};
use std::collections::BTreeMap;
use std::marker::Model;

/// Names by their numbers, and the number of each name. Contracts see the names in the order of their numbers.
#[derive(Drop)]
pub struct Names {
    texts: Vec<Vec<u8>>,
    /// The number of the first name that has a digest.
    firsts: BTreeMap<u64, usize>,
    /// The number of each other name: there are few, but for names that were chosen so.
    others: BTreeMap<Vec<u8>, usize>,
}

impl Model for Names {
    ghost use Rattle.swh_entries.specs.Named.{Named, IsIndex};

    ghost Value = { Named };

    ghost view = { λ n. record { items = n.texts.items } };

    ghost invariant = { λ n. IsIndex n.texts.items n.firsts.entries n.others.entries };
}

/// A number for a name, which few others share: its bytes as digits, of which 64 bits are kept. Names that are alike but for
/// their last bytes are near each other.
fn digest_of(name: &[u8]) -> u64
    ensures { result ≡ digest_of name.now }
{
    let mut digest: u64 = 0;
    for byte in name {
        digest = digest.wrapping_mul(257).wrapping_add(*byte as u64);
    }
    digest
}

/// The number of the first name that has a digest, where there is one.
fn first_in(firsts: &BTreeMap<u64, usize>, digest: u64) -> Option<usize>
    ensures { result ≡ first_of firsts.now.entries digest }
{
    firsts.get(&digest).copied()
}

/// The number of a name, where it has one by its bytes.
fn number_in(numbers: &BTreeMap<Vec<u8>, usize>, name: &[u8]) -> Option<usize>
    ensures { result ≡ number_of numbers.now.entries name.now }
{
    numbers.get(name).copied()
}

/// Whether the name of this number is this one.
fn is_name(names: &[Vec<u8>], number: usize, name: &[u8]) -> bool
    requires { number < length names.now }
    ensures { result ≡ is_eq (slice_cmp nat_cmp name.now (name_at (texts names.now) number)) }
{
    name.cmp(names[number].as_slice()).is_eq()
}

impl Names {
    ghost use Rattle.std.specs.Prelude.{◌≡◌, ◌⊎◌, ◌<◌, ◌++◌, ◌∷◌, [], ℕ, length, IfOk, OnErr};
    ghost use Rattle.swh_entries.specs.Keys.{name_at, texts};
    ghost use Rattle.swh_entries.specs.Named.{Extends};

    /// No names.
    pub fn new(alloc: Global) -> Names
        ensures { result.items ≡ [] }
    {
        Names {
            texts: Vec::new(alloc),
            firsts: BTreeMap::new(alloc),
            others: BTreeMap::new(alloc),
        }
    }

    /// The names in the order of their numbers. None stands twice.
    pub fn as_slice(&self) -> &[Vec<u8>]
        ensures value { result.now ≡ self.now.items }
        ensures once { (i j : ℕ) → i < length self.now.items → j < length self.now.items
            → name_at (texts self.now.items) i ≡ name_at (texts self.now.items) j → i ≡ j }
    {
        self.texts.as_slice()
    }

    /// The number of a name: the one that it has, or else a new one. Where memory runs out no name is added.
    pub fn number(&mut self, alloc: Global, name: &[u8]) -> Result<usize, AllocError>
        ensures names { Extends self.old.items self.new.items }
        ensures number { IfOk result (λ n. (n < length self.new.items) × (name_at (texts self.new.items) n ≡ name.now)) }
        ensures known { (n : ℕ) → n < length self.old.items → name_at (texts self.old.items) n ≡ name.now
            → self.new.items ≡ self.old.items }
        ensures one { (self.new.items ≡ self.old.items)
            ⊎ (texts self.new.items ≡ texts self.old.items ++ name.now ∷ []) }
        ensures err { OnErr result (self.new.items ≡ self.old.items) }
    {
        let digest = digest_of(name);
        let Some(first) = first_in(&self.firsts, digest) else {
            let number = self.texts.len();
            let text = Vec::from_slice(alloc, name)?;
            self.texts.reserve(1)?;
            self.firsts.insert(digest, number)?;
            self.texts.push_reserved(text);
            return Ok(number);
        };
        let same = is_name(self.texts.as_slice(), first, name);
        if same {
            return Ok(first);
        }
        if let Some(number) = number_in(&self.others, name) {
            return Ok(number);
        }
        let number = self.texts.len();
        let text = Vec::from_slice(alloc, name)?;
        let key = Vec::from_slice(alloc, name)?;
        self.texts.reserve(1)?;
        self.others.insert(key, number)?;
        self.texts.push_reserved(text);
        Ok(number)
    }
}
