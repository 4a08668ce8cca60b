// Numbers and bytes at the front of bytes.
ghost use Rattle.std.specs.Prelude.{◌≡◌, ◌++◌, ◌<◌, ◌^◌, IfSome, IfNone, length};
ghost use Rattle.std.specs.Int.{w32, w64, to_be_bytes};

/// A number in four bytes, the highest first, and what is after it.
pub fn split_four(bytes: &[u8]) -> Option<(u32, &[u8])>
    ensures some { IfSome result (λ x. bytes.now ≡ to_be_bytes w32 x.0 ++ x.1.now) }
    ensures small { IfSome result (λ x. x.0 < 2 ^ 32) }
    ensures none { IfNone result (length bytes.now < 4) }
{
    let Some((front, rest)) = bytes.split_first_chunk::<4>() else {
        return None;
    };
    Some((u32::from_be_bytes(*front), rest))
}

/// A number in eight bytes, the highest first, and what is after it.
pub fn split_eight(bytes: &[u8]) -> Option<(u64, &[u8])>
    ensures some { IfSome result (λ x. bytes.now ≡ to_be_bytes w64 x.0 ++ x.1.now) }
    ensures small { IfSome result (λ x. x.0 < 2 ^ 64) }
    ensures none { IfNone result (length bytes.now < 8) }
{
    let Some((front, rest)) = bytes.split_first_chunk::<8>() else {
        return None;
    };
    Some((u64::from_be_bytes(*front), rest))
}

/// As many bytes as are asked, and what is after them.
pub fn split_bytes(bytes: &[u8], count: u64) -> Option<(&[u8], &[u8])>
    ensures some { IfSome result (λ x. bytes.now ≡ x.0.now ++ x.1.now) }
    ensures count { IfSome result (λ x. length x.0.now ≡ count) }
    ensures none { IfNone result (length bytes.now < count) }
{
    if count > bytes.len() as u64 {
        return None;
    }
    Some((&bytes[..count as usize], &bytes[count as usize..]))
}
