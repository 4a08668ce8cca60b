//! Names as keys of an ordered map, compared by their first bytes at once.
ghost use Rattle.std.specs.Prelude.{◌≡◌, ◌<◌, ℕ, length, get_or};
ghost use Rattle.std.specs.Int.{w64, from_be_bytes};
ghost use Rattle.swh_base.specs.Name.{name_key};
ghost use Rattle.swh_store.specs.Entries.{keys_cmp};

use std::cmp::Ordering;
use std::marker::Model;
use swh_base::Name;
use swh_model::kind_byte;

/// The kind's number, then the id. Keys ascend as their bytes do.
#[derive(Drop)]
pub struct Key {
    bytes: [u8; 21],
}

impl Model for Key {
    ghost use Rattle.std.specs.Prelude.{ℕ, List};

    ghost Value = { List ℕ };

    ghost view = { λ k. k.bytes };
}

/// The key of a name.
pub fn key_of(name: &Name) -> Key
    ensures { result ≡ name_key name.now }
{
    let mut bytes = [0; 21];
    bytes[0] = kind_byte(name.kind);
    bytes[1..].copy_from_slice(&name.id);
    Key { bytes }
}

/// The first eight bytes as the digits of one number.
fn head_of(bytes: &[u8; 21]) -> u64
    ensures value { result ≡ from_be_bytes w64 bytes.now }
    ensures long { length bytes.now ≡ 21 }
    ensures bytes { (i : ℕ) → get_or bytes.now i 0 < 256 }
{
    u64::from_be_bytes([
        bytes[0], bytes[1], bytes[2], bytes[3], bytes[4], bytes[5], bytes[6], bytes[7],
    ])
}

/// The order of the bytes. Two keys hardly ever have the same first eight.
fn order_of(a: &[u8; 21], b: &[u8; 21]) -> Ordering
    ensures { result ≡ keys_cmp a.now b.now }
{
    let (head, other) = (head_of(a), head_of(b));
    if head < other {
        return Ordering::Less;
    }
    if head > other {
        return Ordering::Greater;
    }
    a.cmp(b)
}

impl PartialEq for Key {
    ghost use Rattle.std.specs.Prelude.{bytes_eq};
    ghost use Rattle.std.specs.Cmp.{partial_equiv_from_equiv};
    ghost use Rattle.std.specs.Cmp.Lexicographic.{nat_list_eq_equiv};

    ghost eq = { λ a b. bytes_eq a b };

    ghost laws = { partial_equiv_from_equiv nat_list_eq_equiv };

    fn eq(&self, other: &Key) -> bool {
        self.bytes == other.bytes
    }
}

impl Eq for Key {
    ghost use Rattle.std.specs.Cmp.Lexicographic.{nat_list_eq_equiv};

    ghost laws = { nat_list_eq_equiv };
}

impl PartialOrd for Key {
    ghost use Rattle.std.specs.Prelude.{Some};
    ghost use Rattle.std.specs.Cmp.Lexicographic.{texts_po};
    ghost use Rattle.swh_store.specs.Entries.{keys_cmp};

    ghost partial_cmp = { λ a b. Some (keys_cmp a b) };

    ghost laws = { texts_po };

    fn partial_cmp(&self, other: &Key) -> Option<Ordering> {
        Some(self.cmp(other))
    }
}

impl Ord for Key {
    ghost use Rattle.std.specs.Prelude.{refl};
    ghost use Rattle.std.specs.Cmp.Lexicographic.{nat_list_cmp_total, texts_ties};
    ghost use Rattle.swh_store.specs.Entries.{keys_cmp};

    ghost cmp = { λ a b. keys_cmp a b };

    ghost total = { nat_list_cmp_total };

    ghost matches_partial_cmp = { λ a b. refl };

    ghost matches_eq = { λ a b. texts_ties a b };

    fn cmp(&self, other: &Key) -> Ordering {
        order_of(&self.bytes, &other.bytes)
    }
}
