// Pieces of bytes: what stands before and after the first of a byte, and what follows a word.
ghost use Rattle.std.specs.Prelude.{◌≡◌, ℕ, List, ◌∷◌, ◌++◌, Contains, IfSome, IfNone};

/// What stands before the first byte that is `stop`, and what after it; none where no byte is. Nothing is copied.
pub fn split_at_byte(bytes: &[u8], stop: u8) -> Option<(&[u8], &[u8])>
    ensures some { IfSome result (λ x. (Contains x.0.now stop → ⊥) × (bytes.now ≡ x.0.now ++ stop ∷ x.1.now)) }
    ensures none { IfNone result (Contains bytes.now stop → ⊥) }
{
    let end = bytes.iter().position(|byte| *byte == stop)?;
    Some((&bytes[..end], &bytes[end + 1..]))
}

/// What follows `front` where the bytes begin with it; none where they do not. Nothing is copied.
pub fn behind<'a>(front: &[u8], bytes: &'a [u8]) -> Option<&'a [u8]>
    ensures some { IfSome result (λ rest. bytes.now ≡ front.now ++ rest.now) }
    ensures none { IfNone result ((rest : List ℕ) → bytes.now ≡ front.now ++ rest → ⊥) }
{
    bytes.strip_prefix(front)
}
